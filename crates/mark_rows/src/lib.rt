// Rows of 3+N marks while they are gathered: a mark is put among them by its bar and side, and the sorted bars of a superior are numbered.

#![tactic(auto)]

ghost use Rattle.std.specs.Prelude.{◌≡◌, ℕ, ◌-◌, ◌<◌, ◌≤◌, ◌∷◌, [], true, length, get_or, position};
ghost use mathlib.Core.List.{foldl, map};
ghost use Rattle.rows.specs.Rows.{rows_in};
ghost use Rattle.mark_hits.specs.Quotes.{quotes_of};
ghost use Rattle.rules.specs.Marks.{price_at, insert_bar, push_3n};
ghost use Rattle.laws.specs.Lists.{All, Distinct, Rising};
ghost use Rattle.laws.specs.Keys.{mark_key};
ghost use Rattle.mark_rows.specs.Numbered.{stands_at, has_zero, bar_marks};
ghost use Rattle.chart.specs.declared.NMark.{NMark};

use chart::{NMark, ThirdMark};
use mark_hits::Quotes;
use rows::Rows;

// The place of the mark of a bar and a side.
fn place_of(marks: &[NMark], bar: u16, buy: bool) -> Option<usize>
    ensures { result ≡ position (stands_at bar buy) marks.now }
{
    marks
        .iter()
        .position(|m| m.bar_index == bar && m.is_buy == buy)
}

// Puts a mark among the rows, at the place of its bar and side, and behind all where there is none; the place. On a repeat the smaller order
// wins, with its price, in the earlier row's place.
fn put_at<const N: usize>(marks: &mut Rows<NMark, N>, mark: NMark, place: Option<usize>) -> usize
    requires is_place { place ≡ position (stands_at mark.bar_index mark.is_buy) (rows_in marks.old) }
    requires room { length (push_3n (rows_in marks.old) mark) ≤ N }
    ensures { rows_in marks.new ≡ push_3n (rows_in marks.old) mark }
{
    let Some(place) = place else {
        let last = marks.count;
        marks.push(mark);
        return last;
    };
    if mark.order < marks.rows[place].order {
        marks.rows[place] = mark;
    }
    place
}

// Puts a mark among the rows.
pub fn push_3n<const N: usize>(marks: &mut Rows<NMark, N>, mark: NMark)
    requires room { length (push_3n (rows_in marks.old) mark) ≤ N }
    ensures { rows_in marks.new ≡ push_3n (rows_in marks.old) mark }
{
    let place = place_of(marks.listed(), mark.bar_index, mark.is_buy);
    put_at(marks, mark, place);
}

// The place of the mark of a bar and a side, by a guess: where such a mark stands there it is the place, since no two share bar and side.
fn place_near(marks: &[NMark], bar: u16, buy: bool, near: usize) -> Option<usize>
    requires { Distinct (map mark_key marks.now) }
    ensures { result ≡ position (stands_at bar buy) marks.now }
{
    if near < marks.len() && marks[near].bar_index == bar && marks[near].is_buy == buy {
        return Some(near);
    }
    place_of(marks, bar, buy)
}

// As push_3n, with a guess of the mark's place, which may be wrong; the place.
pub fn push_near<const N: usize>(marks: &mut Rows<NMark, N>, mark: NMark, near: usize) -> usize
    requires apart { Distinct (map mark_key (rows_in marks.old)) }
    requires room { length (push_3n (rows_in marks.old) mark) ≤ N }
    ensures { rows_in marks.new ≡ push_3n (rows_in marks.old) mark }
{
    let place = place_near(marks.listed(), mark.bar_index, mark.is_buy, near);
    put_at(marks, mark, place)
}

// Puts a bar into rising bars, in which each stands once.
pub fn insert_bar<const N: usize>(bars: &mut Rows<u16, N>, bar: u16)
    requires rising { Rising (rows_in bars.old) }
    requires room { bars.old.count < N }
    ensures { rows_in bars.new ≡ insert_bar (rows_in bars.old) bar }
{
    match bars.listed().binary_search(&bar) {
        Ok(_) => {}
        Err(at) => bars.insert(at, bar),
    }
}

// As insert_bar, with bars of u32; the place behind the bar.
pub fn insert_wide_bar<const N: usize>(bars: &mut Rows<u32, N>, bar: u32) -> usize
    requires rising { Rising (rows_in bars.old) }
    requires room { bars.old.count < N }
    ensures bars { rows_in bars.new ≡ insert_bar (rows_in bars.old) bar }
    ensures inside { (0 < result) × (result ≤ bars.new.count) }
    ensures place { get_or (rows_in bars.new) (result - 1) 0 ≡ bar }
{
    match bars.listed().binary_search(&bar) {
        Ok(at) => at + 1,
        Err(at) => {
            bars.insert(at, bar);
            at + 1
        }
    }
}

// Whether there is an order-0 mark of a side at a bar.
fn zero_at(thirds: &[ThirdMark], buy: bool, bar: u32) -> bool
    ensures { result ≡ has_zero thirds.now buy bar }
{
    thirds
        .iter()
        .any(|m| u32::from(m.bar_index) == bar && m.is_buy == buy)
}

// The place of the first bar that has an order-0 mark of a side.
fn first_zero(bars: &[u32], thirds: &[ThirdMark], buy: bool) -> Option<usize>
    ensures { result ≡ position (has_zero thirds.now buy) bars.now }
{
    bars.iter().position(|bar| zero_at(thirds, buy, *bar))
}

// As first_zero, with bars of u16.
fn first_narrow_zero(bars: &[u16], thirds: &[ThirdMark], buy: bool) -> Option<usize>
    ensures { result ≡ position (has_zero thirds.now buy) bars.now }
{
    bars.iter()
        .position(|bar| zero_at(thirds, buy, u32::from(*bar)))
}

// The price of a mark: the lent low for buys, the lent high for sells.
fn price_at(quotes: &Quotes, buy: bool, bar: u32) -> f64
    ensures { result ≡ price_at (quotes_of quotes.now) buy bar }
{
    mark_hits::quote_at(quotes, buy, bar as usize).unwrap_or(f64::NAN)
}

// Puts the numbered marks of a superior among the rows, by its scanned bars, which rise: those behind the first that has an order-0 mark of
// the side get 1, 2, .., other order-0 marks taking no number.
pub fn number_bars(
    bars: &[u16],
    buy: bool,
    thirds: &[ThirdMark],
    quotes: &Quotes,
    marks: &mut Rows<NMark, 512>,
)
    requires few { length bars.now ≤ 0x1_0000 }
    requires room { length (foldl push_3n (rows_in marks.old) (bar_marks (quotes_of quotes.now) thirds.now buy bars.now)) ≤ 512 }
    ensures { rows_in marks.new
        ≡ foldl push_3n (rows_in marks.old) (bar_marks (quotes_of quotes.now) thirds.now buy bars.now) }
{
    let Some(first) = first_narrow_zero(bars, thirds, buy) else {
        return;
    };
    let rest = &bars[first + 1..];
    let mut order = 1u32;
    for bar in rest {
        if zero_at(thirds, buy, u32::from(*bar)) {
            continue;
        }
        let price = price_at(quotes, buy, u32::from(*bar));
        let mark = NMark {
            bar_index: *bar,
            is_buy: buy,
            order,
            price,
        };
        push_3n(marks, mark);
        order += 1;
    }
}

// As number_bars, with bars of u32 that a u16 holds.
pub fn number_wide_bars(
    bars: &[u32],
    buy: bool,
    thirds: &[ThirdMark],
    quotes: &Quotes,
    marks: &mut Rows<NMark, 512>,
)
    requires few { length bars.now ≤ 0x1_0000 }
    requires small { All (λ (b : ℕ). b < 0x1_0000) bars.now }
    requires room { length (foldl push_3n (rows_in marks.old) (bar_marks (quotes_of quotes.now) thirds.now buy bars.now)) ≤ 512 }
    ensures { rows_in marks.new
        ≡ foldl push_3n (rows_in marks.old) (bar_marks (quotes_of quotes.now) thirds.now buy bars.now) }
{
    let Some(first) = first_zero(bars, thirds, buy) else {
        return;
    };
    let rest = &bars[first + 1..];
    let mut order = 1u32;
    for bar in rest {
        if zero_at(thirds, buy, *bar) {
            continue;
        }
        let price = price_at(quotes, buy, *bar);
        let mark = NMark {
            bar_index: *bar as u16,
            is_buy: buy,
            order,
            price,
        };
        push_3n(marks, mark);
        order += 1;
    }
}

#[cfg(test)]
mod tests {
    use super::*;
    use chart::Ground;

    // In front, between two, behind the last, and one that is there already: by the contract alone.
    fn placed() -> Rows<u16, 8>
        ensures { rows_in result ≡ 3 ∷ 5 ∷ 9 ∷ [] }
    {
        let mut bars = Rows::new(0);
        insert_bar(&mut bars, 5);
        insert_bar(&mut bars, 3);
        insert_bar(&mut bars, 9);
        insert_bar(&mut bars, 5);
        bars
    }

    #[test]
    fn bars_are_put(rt: HostRuntime) {
        assert_eq!(rt; placed().listed(), [3, 5, 9].as_slice());
    }

    // By the contract alone: behind the first bar with an order-0 mark of the side, bars 2 and 4 get 1 and 2; bar 3 has such a mark of its own.
    fn numbered(quotes: &Quotes) -> Rows<NMark, 512>
        ensures bars { map (λ (m : NMark). m.bar_index) (rows_in result) ≡ 2 ∷ 4 ∷ [] }
        ensures orders { map (λ (m : NMark). m.order) (rows_in result) ≡ 1 ∷ 2 ∷ [] }
        ensures prices { map (λ (m : NMark). m.price) (rows_in result)
            ≡ price_at (quotes_of quotes.now) true 2 ∷ price_at (quotes_of quotes.now) true 4 ∷ [] }
    {
        let third = ThirdMark {
            bar_index: 1,
            is_buy: true,
            price: 5.0,
            ground: Ground::Zone(4.5),
        };
        let later = ThirdMark {
            bar_index: 3,
            ..third
        };
        let blank = NMark {
            bar_index: 0,
            is_buy: false,
            order: 0,
            price: 0.0,
        };
        let mut marks = Rows::new(blank);
        number_bars(&[0, 1, 2, 3, 4], true, &[third, later], quotes, &mut marks);
        marks
    }

    // Buys get the lows there.
    #[test]
    fn bars_are_numbered(rt: HostRuntime) {
        let quotes = Quotes {
            highs: &[13.0, 14.0, 15.0, 16.0, 17.0],
            lows: &[3.0, 4.0, 5.0, 6.0, 7.0],
        };
        let marks = numbered(&quotes);
        let rows = marks.listed();
        assert_eq!(rt; rows.len(), 2);
        assert_eq!(rt; (rows[0].is_buy, rows[0].price), (true, 5.0));
        assert_eq!(rt; (rows[1].is_buy, rows[1].price), (true, 7.0));
    }
}
