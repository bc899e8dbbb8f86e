// Reading a bars file: every byte string gets an answer.

#![tactic(auto)]

ghost use Rattle.std.specs.Prelude.{◌≡◌, ℕ, length, drop};
ghost use mathlib.Core.List.{List, foldl};
ghost use Rattle.rules.specs.Answer.{answer_of, answer_at, given};
ghost use Rattle.rules.specs.BarsFile.{Bar, bar_in, read_bar, read_bars, read_bars_call, bar_count, placed, bars_after};
ghost use Rattle.bars_read.specs.Heads.{last_of};

use chart::{Refusal, RefusedAt};

// How many bytes a bar has: its mark HL, its number, its high and its low.
const BAR: usize = 20;

// Whether a bar is at the head of some bytes, behind so many bars with the numbers from 0 on, or why there is none.
fn test_bar(s: &[u8], places: usize, bars: usize) -> Result<(), Refusal>
    ensures { answer_of (λ (u : Unit {0}). bar_in (drop 2 s.now)) result ≡ read_bar places (last_of bars) s.now }
{
    match s {
        [] | [_] => return Err(Refusal::Cut),
        [b'H', b'L', ..] => {}
        _ => return Err(Refusal::Mark),
    }
    if s.len() < BAR {
        return Err(Refusal::Cut);
    }
    let number = fields::two_at(s, 2) as usize;
    if number != bars {
        return Err(Refusal::Bar);
    }
    if places <= number {
        return Err(Refusal::Full);
    }
    if price::wrong_prices(fields::price_at(s, 4), fields::price_at(s, 12)) {
        return Err(Refusal::Price);
    }
    Ok(())
}

// How many bars a file has, with so many places for them.
fn count_bars(bytes: &[u8], places: usize) -> Result<usize, RefusedAt>
    ensures { answer_at (λ (n : ℕ). n) result ≡ bar_count (read_bars places bytes.now) }
{
    let bars = bytes.len().div_ceil(BAR);
    for i in 0..bars {
        let place = BAR * i;
        if let Err(refusal) = test_bar(&bytes[place..], places, i) {
            return Err(RefusedAt { refusal, place });
        }
    }
    Ok(bars)
}

// Puts the bars of an accepted file into the slices, each at its number.
fn fill_bars(bytes: &[u8], highs: &mut [f64], lows: &mut [f64])
    requires same_length { length highs.old ≡ length lows.old }
    requires accepted { (bs : List Bar) × (read_bars (length highs.old) bytes.now ≡ given bs) }
    ensures { (bs : List Bar) → read_bars (length highs.old) bytes.now ≡ given bs
        → record { highs = highs.new; lows = lows.new }
        ≡ foldl placed (record { highs = highs.old; lows = lows.old }) bs }
{
    for i in 0..bytes.len() / BAR {
        highs[i] = fields::price_at(bytes, BAR * i + 4);
        lows[i] = fields::price_at(bytes, BAR * i + 12);
    }
}

// The bars of a file, at their numbers in the lent slices, and how many they are. The whole file is tested first, so that a refused one leaves
// the slices as they were.
pub fn read_bars(bytes: &[u8], highs: &mut [f64], lows: &mut [f64]) -> Result<usize, RefusedAt>
    ensures bars_value { answer_at (λ (n : ℕ). n) result
        ≡ bar_count (read_bars_call (record { highs = highs.old; lows = lows.old }) bytes.now) }
    ensures slices_after { record { highs = highs.new; lows = lows.new }
        ≡ bars_after (read_bars_call (record { highs = highs.old; lows = lows.old }) bytes.now)
        (record { highs = highs.old; lows = lows.old }) }
{
    if highs.len() != lows.len() || 65536 < highs.len() {
        return Err(RefusedAt {
            refusal: Refusal::Slices,
            place: 0,
        });
    }
    let bars = count_bars(bytes, highs.len())?;
    fill_bars(bytes, highs, lows);
    Ok(bars)
}
