// The rows of the superiors for 3+N marks: all pairs that the scans of a superior's zones meet, hit or not, made unique by bar, sorted and
// numbered.

#![tactic(auto)]

ghost use Rattle.std.specs.Prelude.{◌≡◌, ℕ, List, [], ◌-◌, ◌≤◌, ◌<◌, length, drop, get_or};
ghost use mathlib.Core.List.{foldl};
ghost use Rattle.chart.specs.declared.Zone.{Zone};
ghost use Rattle.rows.specs.Rows.{rows_in};
ghost use Rattle.rules.specs.Lists.{each};
ghost use Rattle.rules.specs.Records.{Levels};
ghost use Rattle.rules.specs.Zones.{overlap_zones};
ghost use Rattle.rules.specs.Marks.{scanned, superiors_numbered, insert_bar, push_3n};
ghost use Rattle.laws.specs.Lists.{All, Rising, end_bars};
ghost use Rattle.tables.specs.Tables.{bigs_of};
ghost use Rattle.mark_scan.specs.Scan.{pairs_from, Scanned};
ghost use Rattle.mark_hits.specs.Quotes.{quotes_of};
ghost use Rattle.mark_superiors.specs.Superiors.{SmallAmong, Block, ScansOf};

use chart::{NMark, ThirdMark};
use mark_hits::Quotes;
use mark_scan::Scan;
use rows::Rows;
use tables::{Big, Superior};

// Puts a bar into rising bars, in which each stands once; the place behind it. Most bars of a scan are there already, each behind the one
// before it, so it is looked for at place `near` first.
fn insert_near(bars: &mut Rows<u32, 257>, near: usize, bar: u32) -> usize
    requires rising { Rising (rows_in bars.old) }
    requires room { bars.old.count < 257 }
    ensures bars { rows_in bars.new ≡ insert_bar (rows_in bars.old) bar }
    ensures place { (0 < result) × (get_or (rows_in bars.new) (result - 1) 0 ≡ bar) }
{
    if near < bars.count && bars.rows[near] == bar {
        return near + 1;
    }
    mark_rows::insert_wide_bar(bars, bar)
}

// The bars of a scan's pairs, put into rising bars.
fn zone_bars(bigs: &[Big], scan: &Scan, bars: &mut Rows<u32, 257>)
    requires few { length bigs.now ≤ 256 }
    requires among { (c : Levels) × (bigs.now ≡ bigs_of c) × SmallAmong (end_bars c) (rows_in bars.old) }
    ensures among { (c : Levels) → bigs.now ≡ bigs_of c
        → SmallAmong (end_bars c) (rows_in bars.old) → SmallAmong (end_bars c) (rows_in bars.new) }
    ensures bars { (c : Levels) → bigs.now ≡ bigs_of c
        → rows_in bars.new ≡ foldl insert_bar (rows_in bars.old) (pairs_from c scan.now scan.now.from) }
{
    let mut at = scan.from;
    let mut near = 0;
    // a pair says where the search for the next begins
    while let Some(pair) = mark_scan::next_pair(bigs, scan, at) {
        near = insert_near(bars, near, u32::from(pair.bar));
        at = pair.next;
    }
}

// The bars of all pairs that the scans of superior h's zones meet, unique and sorted; the place behind its scans. Scans stand in the order of
// their superiors, so its own are those from place `from` on until one is another's.
fn superior_bars(
    bigs: &[Big],
    scans: &[Scan],
    h: usize,
    from: usize,
    bars: &mut Rows<u32, 257>,
) -> usize
    requires few { length bigs.now ≤ 256 }
    requires of_levels { (c : Levels) × (bigs.now ≡ bigs_of c) × Scanned c scans.now }
    ensures small { All (λ (b : ℕ). b < 0x1_0000) (rows_in bars.new) }
    ensures bars { (c : Levels) (own later : List Zone) → bigs.now ≡ bigs_of c → Scanned c scans.now → Block c h from own later
        → (rows_in bars.new ≡ foldl insert_bar [] (each (scanned c (overlap_zones c)) own)) × (drop result (overlap_zones c) ≡ later) }
{
    bars.count = 0;
    for i in from..scans.len() {
        if scans[i].superior as usize != h {
            return i;
        }
        zone_bars(bigs, &scans[i], bars);
    }
    scans.len()
}

// The rows of the superiors in ascending order, put among those of the order-0 marks, which are the third marks.
pub fn superior_rows(
    bigs: &[Big],
    superiors: &[Superior],
    scans: &[Scan],
    thirds: &[ThirdMark],
    quotes: &Quotes,
    marks: &mut Rows<NMark, 512>,
)
    requires few { length bigs.now ≤ 256 }
    requires room { (c : Levels) × ScansOf c bigs.now superiors.now scans.now × (length (foldl push_3n (rows_in marks.old)
        (superiors_numbered c (quotes_of quotes.now) (overlap_zones c) thirds.now 0 c.superiors)) ≤ 512) }
    ensures { (c : Levels) → ScansOf c bigs.now superiors.now scans.now → rows_in marks.new ≡ foldl push_3n (rows_in marks.old)
        (superiors_numbered c (quotes_of quotes.now) (overlap_zones c) thirds.now 0 c.superiors) }
{
    let mut bars = Rows::new(0);
    let mut at = 0;
    for (h, s) in superiors.iter().enumerate() {
        at = superior_bars(bigs, scans, h, at, &mut bars);
        let buy = s.direction == 1;
        mark_rows::number_wide_bars(bars.listed(), buy, thirds, quotes, marks);
    }
}
