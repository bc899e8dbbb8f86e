// Third marks: of zones, then of anchors.

#![tactic(auto)]

ghost use Rattle.std.specs.Prelude.{◌≡◌, ◌≤◌, ◌<◌, ◌+◌, [], ◌∷◌, length};
ghost use mathlib.Core.List.{foldl};
ghost use Rattle.rows.specs.Rows.{rows_in};
ghost use Rattle.rules.specs.Lists.{any, each};
ghost use Rattle.rules.specs.Records.{Levels};
ghost use Rattle.rules.specs.Marks.{add_third, zone_third, third_marks};
ghost use Rattle.rules.specs.Zones.{overlap_zones};
ghost use Rattle.tables.specs.Tables.{bigs_of};
ghost use Rattle.mark_scan.specs.Scan.{TablesOf, ZoneScans, Scanned};
ghost use Rattle.mark_hits.specs.Quotes.{quotes_of};
ghost use Rattle.mark_hits.specs.Anchors.{anchors_in};
ghost use Rattle.mark_thirds.specs.Third.{same_key, listed, first_mark, edge, zone_mark, anchor_mark};

use chart::{Ground, ThirdMark, Zone};
use mark_hits::{Anchor, Quotes, Side};
use mark_scan::Scan;
use rows::Rows;
use tables::{Big, Superior};

// ---- one mark

// The mark of a side at a bar, over a ground of price p, where the bar is a hit.
#[tactic(auto, using(crate::proofs::Marks::hit_mark))]
fn mark_at(quotes: &Quotes, buy: bool, ground: Ground, p: f64, bar: u16) -> Option<ThirdMark>
    ensures { listed result ≡ first_mark (quotes_of quotes.now) buy ground p (bar ∷ []) }
{
    let price = mark_hits::hit_at(quotes, buy, p, bar as usize)?;
    Some(ThirdMark {
        bar_index: bar,
        is_buy: buy,
        price,
        ground,
    })
}

// Whether one of some marks has the bar and the side of this one.
fn is_met(marks: &[ThirdMark], mark: &ThirdMark) -> bool
    ensures { result ≡ any (same_key mark.now) marks.now }
{
    marks.iter().any(|m| m.bar_index == mark.bar_index && m.is_buy == mark.is_buy)
}

// Puts a mark behind the others, if none of them has its bar and side. So the first of these is kept, with its ground.
#[tactic(auto, unfolding(rules::specs::Marks::add_third))]
fn add(marks: &mut Rows<ThirdMark, 512>, mark: ThirdMark)
    requires { marks.old.count < 512 }
    ensures one_more { marks.new.count ≤ marks.old.count + 1 }
    ensures adds { rows_in marks.new ≡ add_third (rows_in marks.old) mark }
{
    if !is_met(marks.listed(), &mark) {
        marks.push(mark);
    }
}

// ---- zones

// The edge of a zone that its mark beats: zg for a buy, zd for a sell.
fn edge_of(buy: bool, zone: &Zone) -> f64
    ensures { result ≡ edge buy zone.now }
{
    if buy { zone.zg } else { zone.zd }
}

// The mark of a zone: at the first hit of its scan, over its edge.
fn zone_mark(bigs: &[Big], quotes: &Quotes, zone: &Zone, scan: &Scan) -> Option<ThirdMark>
    ensures { (c : Levels) → bigs.now ≡ bigs_of c → listed result ≡ zone_mark c (quotes_of quotes.now) zone.now scan.now }
{
    let buy = scan.direction == 1;
    let edge = edge_of(buy, zone);
    let mut from = scan.from;
    // a while, since only the next pair tells where the one after it is looked for
    while let Some(pair) = mark_scan::next_pair(bigs, scan, from) {
        let mark = mark_at(quotes, buy, Ground::Zone(edge), edge, pair.bar);
        if mark.is_some() {
            return mark;
        }
        from = pair.next;
    }
    None
}

// ---- anchors

// The mark of an anchor of a side: at the first hit among the bigs of the other direction that end behind it, over its price C.
fn anchor_mark(bigs: &[Big], quotes: &Quotes, buy: bool, anchor: &Anchor) -> Option<ThirdMark>
    requires { anchor.now.from ≤ length bigs.now }
    ensures { listed result ≡ anchor_mark bigs.now (quotes_of quotes.now) buy anchor.now }
{
    let p = anchor.price?;
    for big in &bigs[anchor.from..] {
        let Some(end) = mark_hits::end_behind(big, !buy, anchor.bar) else {
            continue;
        };
        let mark = mark_at(quotes, buy, Ground::Anchor(p), p, end.bar);
        if mark.is_some() {
            return mark;
        }
    }
    None
}

// ---- all

// The marks of zones with these scans, behind those that are there.
fn zone_marks(
    bigs: &[Big],
    zones: &[Zone],
    scans: &[Scan],
    quotes: &Quotes,
    marks: &mut Rows<ThirdMark, 512>,
)
    requires { marks.old.count + length zones.now ≤ 512 }
    ensures few { marks.new.count ≤ marks.old.count + length zones.now }
    ensures marks { (c : Levels) → bigs.now ≡ bigs_of c → ZoneScans c zones.now scans.now
        → rows_in marks.new
        ≡ foldl add_third (rows_in marks.old) (each (zone_third c (quotes_of quotes.now) (overlap_zones c)) zones.now) }
{
    for (zone, scan) in zones.iter().zip(scans) {
        if let Some(mark) = zone_mark(bigs, quotes, zone, scan) {
            add(marks, mark);
        }
    }
}

// The marks of the anchors of a side, behind those that are there. Where no big can be one, no table of anchors is made.
fn anchor_marks(bigs: &[Big], side: Side, quotes: &Quotes, marks: &mut Rows<ThirdMark, 512>)
    requires { (length bigs.now ≤ 256) × (marks.old.count ≤ 256) }
    ensures { rows_in marks.new
        ≡ foldl add_third (rows_in marks.old) (each (anchor_mark bigs.now (quotes_of quotes.now) side.buy) (anchors_in side bigs.now)) }
{
    if side.anchors == 0 {
        return;
    }
    let anchors = mark_hits::anchors_of(bigs, side);
    for anchor in anchors.listed() {
        if let Some(mark) = anchor_mark(bigs, quotes, side.buy, anchor) {
            add(marks, mark);
        }
    }
}

// The third marks of a chart, by its bigs, superiors and zones and the zones' scans.
pub fn thirds_of(
    bigs: &[Big],
    superiors: &[Superior],
    zones: &[Zone],
    scans: &[Scan],
    quotes: &Quotes,
    marks: &mut Rows<ThirdMark, 512>,
)
    requires { (length bigs.now ≤ 256) × (length zones.now ≤ 256) }
    ensures { (c : Levels) → TablesOf c bigs.now superiors.now zones.now → Scanned c scans.now
        → rows_in marks.new ≡ third_marks c (quotes_of quotes.now) }
{
    marks.count = 0;
    zone_marks(bigs, zones, scans, quotes, marks);
    let side = mark_hits::side_of(superiors, bigs.len());
    anchor_marks(bigs, side, quotes, marks);
}
