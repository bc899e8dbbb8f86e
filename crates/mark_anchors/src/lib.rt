// The 3+N marks of the anchors: each anchor numbers its hits 0, 1, .., up to the end of the first superior of the other direction.

#![tactic(auto)]

ghost use Rattle.std.specs.Prelude.{◌≡◌, ◌<◌, ◌≤◌, ℕ, Some, length, not, find, option_map};
ghost use Rattle.std.specs.Bool.{beq};
ghost use Rattle.tables.specs.declared.Superior.{Superior};
ghost use mathlib.Core.List.{foldl, map};
ghost use Rattle.rows.specs.Rows.{rows_in};
ghost use Rattle.rules.specs.Records.{is_up, Levels};
ghost use Rattle.rules.specs.Marks.{anchor_stop, push_3n};
ghost use Rattle.laws.specs.Lists.{Distinct};
ghost use Rattle.laws.specs.Keys.{mark_key};
ghost use Rattle.tables.specs.Tables.{bigs_of, superiors_of, bar_of};
ghost use Rattle.mark_hits.specs.Quotes.{quotes_of};
ghost use Rattle.mark_anchors.specs.Anchored.{hits_of, side_hits};

use chart::NMark;
use mark_hits::{Quotes, Side};
use rows::Rows;
use tables::{Big, Superior};

// The last of the first superior that is not of the side's direction.
fn other_last(superiors: &[Superior], buy: bool) -> Option<u16>
    ensures { result ≡ option_map (λ (s : Superior). s.last) (find (λ (s : Superior). not (beq (is_up s.direction) buy)) superiors.now) }
{
    superiors
        .iter()
        .find(|s| (s.direction == 1) != buy)
        .map(|s| s.last)
}

// The bar at which the anchors' hits stop: the end bar of the big that the last of the first superior of the other direction names, if there
// is one.
pub fn anchor_limit(superiors: &[Superior], bigs: &[Big], buy: bool) -> Option<u32>
    ensures limit { (c : Levels) → superiors.now ≡ superiors_of c → bigs.now ≡ bigs_of c → result ≡ bar_of (anchor_stop c buy) }
    ensures is_bar { (bar : ℕ) → result ≡ Some bar → bar < 0x1_0000 }
{
    let last = other_last(superiors, buy)?;
    let big = bigs.get(last as usize)?;
    let end = big.end?;
    Some(end.bar as u32)
}

// What the hits of an anchor are looked for by: its end bar, the place of the first big that ends behind that, its price C, the side, and the
// bar that stops them, if one does.
#[derive(Clone, Copy)]
struct AnchorHits {
    bar: u16,
    from: usize,
    price: f64,
    buy: bool,
    limit: Option<u32>,
}

// Puts the marks of an anchor's hits among the rows, numbered 0, 1, .. in index order of the bigs. An end that reaches the limit ends them, hit
// or not. `places` remembers for each big where the mark of its end stands.
fn hit_rows(
    bigs: &[Big],
    hits: AnchorHits,
    quotes: &Quotes,
    marks: &mut Rows<NMark, 512>,
    places: &mut [usize; 256],
)
    requires few { (hits.from ≤ length bigs.now) × (length bigs.now ≤ 256) }
    requires apart { Distinct (map mark_key (rows_in marks.old)) }
    requires room { length (foldl push_3n (rows_in marks.old) (hits_of (quotes_of quotes.now) bigs.now hits)) ≤ 512 }
    ensures { rows_in marks.new ≡ foldl push_3n (rows_in marks.old) (hits_of (quotes_of quotes.now) bigs.now hits) }
{
    let mut order = 0u32;
    let later = &bigs[hits.from..];
    for (i, big) in later.iter().enumerate() {
        let Some(end) = mark_hits::end_behind(big, !hits.buy, hits.bar) else {
            continue;
        };
        if mark_scan::reached(hits.limit, end.bar) {
            return;
        }
        let bar = end.bar as usize;
        let Some(price) = mark_hits::hit_at(quotes, hits.buy, hits.price, bar) else {
            continue;
        };
        let mark = NMark {
            bar_index: end.bar,
            is_buy: hits.buy,
            order,
            price,
        };
        let near = places[hits.from + i];
        places[hits.from + i] = mark_rows::push_near(marks, mark, near);
        order += 1;
    }
}

// Puts the marks of the anchors of a side among the rows. Where no big can be an anchor, no table of them is made.
pub fn anchor_rows(
    bigs: &[Big],
    side: Side,
    limit: Option<u32>,
    quotes: &Quotes,
    marks: &mut Rows<NMark, 512>,
)
    requires few { length bigs.now ≤ 256 }
    requires apart { Distinct (map mark_key (rows_in marks.old)) }
    requires room { length (foldl push_3n (rows_in marks.old) (side_hits (quotes_of quotes.now) bigs.now side limit)) ≤ 512 }
    ensures { rows_in marks.new ≡ foldl push_3n (rows_in marks.old) (side_hits (quotes_of quotes.now) bigs.now side limit) }
{
    if side.anchors == 0 {
        return;
    }
    let anchors = mark_hits::anchors_of(bigs, side);
    let mut places = [0usize; 256];
    for anchor in anchors.listed() {
        let Some(price) = anchor.price else {
            continue;
        };
        let hits = AnchorHits {
            bar: anchor.bar,
            from: anchor.from,
            price,
            buy: side.buy,
            limit,
        };
        hit_rows(bigs, hits, quotes, marks, &mut places);
    }
}
