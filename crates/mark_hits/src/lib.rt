// Lent prices, hits, the ends of bigs, and the anchors with their prices C: what third and 3+N marks have in common beside the scan of a
// zone's pairs.

#![tactic(auto)]

ghost use Rattle.std.specs.Prelude.{◌≡◌, ◌≤◌, ℕ, Bool, false, cond, length};
ghost use Rattle.std.specs.Float.Ieee.{lt};
ghost use Rattle.chart.specs.Table.{option_of};
ghost use Rattle.chart.specs.Numbers.{number_in};
ghost use Rattle.rows.specs.Rows.{rows_in};
ghost use Rattle.rules.specs.Marks.{side, quote};
ghost use Rattle.rules.specs.Refusals.{bad_slices};
ghost use Rattle.mark_hits.specs.Quotes.{quotes_of, quotes_refusal, hit_price};
ghost use Rattle.mark_hits.specs.Anchors.{end_behind, is_behind, place_behind, is_along, place_along, side_among, anchors_in, ends_behind, first_price};

use chart::{EndPoint, Refusal};
use rows::Rows;
use tables::{Big, Superior};

// ---- lent prices

// The lent highs and lows.
#[derive(Clone, Copy)]
pub struct Quotes<'a> {
    pub highs: &'a [f64],
    pub lows: &'a [f64],
}

// The slice of a side: the lows for buys, the highs for sells.
fn prices_of<'a>(quotes: &Quotes<'a>, buy: bool) -> &'a [f64]
    ensures { result.now ≡ side (quotes_of quotes.now) buy }
{
    if buy { quotes.lows } else { quotes.highs }
}

// The lent price of a side at a bar, where the bar is inside the slice.
#[tactic(auto, using(levels::proofs::Read::got), unfolding(rules::specs::Marks::quote))]
pub fn quote_at(quotes: &Quotes, buy: bool, bar: usize) -> Option<f64>
    ensures { option_of result ≡ quote (quotes_of quotes.now) buy bar }
{
    prices_of(quotes, buy).get(bar).copied()
}

// Whether the slices are of unequal length, or have more than 65,536 prices.
#[tactic(auto, unfolding(rules::specs::Refusals::bad_slices, rules::specs::Refusals::unequal))]
fn bad_slices(quotes: &Quotes) -> bool
    ensures value { result ≡ bad_slices (quotes_of quotes.now) }
    ensures one_length { result ≡ false → length quotes.now.highs.now ≡ length quotes.now.lows.now }
{
    quotes.highs.len() != quotes.lows.len() || 65536 < quotes.highs.len()
}

// 8 slices of unequal length or above 65,536; 1 in either slice.
#[tactic(auto, unfolding(rules::specs::Refusals::refuse, rules::specs::Refusals::bad_quotes))]
pub fn quotes_refusal(quotes: &Quotes) -> Result<(), Refusal>
    ensures { number_in result ≡ quotes_refusal (quotes_of quotes.now) 0 }
{
    if bad_slices(quotes) {
        return Err(Refusal::Slices);
    }
    if !price::both_prices(quotes.highs, quotes.lows) {
        return Err(Refusal::Price);
    }
    Ok(())
}

// Whether a lent price is beyond p: above for buys, below for sells.
fn beyond(buy: bool, x: f64, p: f64) -> bool
    ensures { result ≡ cond buy (lt p x) (lt x p) }
{
    if buy { p < x } else { x < p }
}

// The lent price at a bar, if that is a hit. A bar outside the slice is none.
#[tactic(auto, using(crate::proofs::Hits::no_hit, crate::proofs::Hits::hit_here, crate::proofs::Hits::hit_missed))]
pub fn hit_at(quotes: &Quotes, buy: bool, p: f64, bar: usize) -> Option<f64>
    ensures { option_of result ≡ hit_price (quotes_of quotes.now) buy p bar }
{
    let x = quote_at(quotes, buy, bar)?;
    if beyond(buy, x, p) { Some(x) } else { None }
}

// ---- ends of bigs

// Whether a big ends behind a bar.
fn is_behind(big: &Big, after: u16) -> bool
    ensures { result ≡ is_behind after big.now.end }
{
    let Some(end) = big.end else {
        return false;
    };
    after < end.bar
}

// The end point of a big of a direction, where it is behind a bar.
pub fn end_behind(big: &Big, up: bool, after: u16) -> Option<EndPoint>
    ensures { option_of result ≡ end_behind up after big.now }
{
    if (big.direction == 1) != up {
        return None;
    }
    let end = big.end?;
    if after < end.bar { Some(end) } else { None }
}

// The place of the first big that ends behind a bar, looked for from `place` on.
fn first_behind(bigs: &[Big], place: usize, after: u16) -> usize
    requires in_bounds { place ≤ length bigs.now }
    requires passed { place ≤ place_behind after bigs.now }
    ensures in_bounds { result ≤ length bigs.now }
    ensures first { result ≡ place_behind after bigs.now }
{
    for (i, big) in bigs[place..].iter().enumerate() {
        if is_behind(big, after) {
            return place + i;
        }
    }
    bigs.len()
}

// Whether a big is of a direction and ends behind a bar.
fn is_along(big: &Big, up: bool, after: u16) -> bool
    ensures { result ≡ is_along up after big.now }
{
    (big.direction == 1) == up && is_behind(big, after)
}

// The place of the first big of a direction that ends behind a bar, looked for from `place` on.
fn first_along(bigs: &[Big], up: bool, place: usize, after: u16) -> usize
    requires in_bounds { place ≤ length bigs.now }
    requires passed { place ≤ place_along up after bigs.now }
    ensures in_bounds { result ≤ length bigs.now }
    ensures first { result ≡ place_along up after bigs.now }
{
    for (i, big) in bigs[place..].iter().enumerate() {
        if is_along(big, up, after) {
            return place + i;
        }
    }
    bigs.len()
}

// ---- anchors

// The anchors' side: how many of the first bigs are looked at for anchors, and whether their marks are buys.
#[derive(Clone, Copy)]
pub struct Side {
    pub anchors: usize,
    pub buy: bool,
}

// By the first superior: the bigs before its first, of so many bigs, and its direction.
pub fn side_of(superiors: &[Superior], bigs: usize) -> Side
    ensures few { result.anchors ≤ bigs }
    ensures side { result ≡ side_among superiors.now bigs }
{
    let Some(first) = superiors.first() else {
        return Side {
            anchors: 0,
            buy: true,
        };
    };
    Side {
        anchors: (first.first as usize).min(bigs),
        buy: first.direction == 1,
    }
}

// An anchor: its end bar, the place of the first big that ends behind that, and its price C, if there is one.
#[derive(Clone, Copy)]
pub struct Anchor {
    pub bar: u16,
    pub from: usize,
    pub price: Option<f64>,
}

const NO_ANCHOR: Anchor = Anchor {
    bar: 0,
    from: 0,
    price: None,
};

// The price C of an anchor: the end price of the first big of the side's direction that ends behind it, which stands at this place.
fn price_at(bigs: &[Big], place: usize) -> Option<f64>
    ensures { (buy : Bool) (bar : ℕ) → place ≡ place_along buy bar bigs.now → result ≡ first_price (ends_behind buy bar bigs.now) }
{
    let big = bigs.get(place)?;
    let end = big.end?;
    Some(end.price)
}

// The anchors of a side. Where the end bars rise, as they do in a live chart, the bigs are passed over once for the places of all of them, and once
// for their prices.
pub fn anchors_of(bigs: &[Big], side: Side) -> Rows<Anchor, 256>
    requires { length bigs.now ≤ 256 }
    ensures { rows_in result ≡ anchors_in side bigs.now }
{
    let mut anchors = Rows::new(NO_ANCHOR);
    let mut last = 0;
    let mut from = 0;
    let mut along = 0;
    for big in &bigs[..side.anchors.min(bigs.len())] {
        let Some(end) = big.end else {
            continue;
        };
        let place = if end.bar < last { 0 } else { from };
        from = first_behind(bigs, place, end.bar);
        let start = if end.bar < last { from } else { along };
        along = first_along(bigs, side.buy, start, end.bar);
        last = end.bar;
        let price = price_at(bigs, along);
        anchors.push(Anchor {
            bar: end.bar,
            from,
            price,
        });
    }
    anchors
}
