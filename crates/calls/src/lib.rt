// The conditions that refuse a live call, in document 01's order, and the records of a chart that break their add's.

#![tactic(auto)]

ghost use Rattle.std.specs.Prelude.{◌≡◌, length};
ghost use mathlib.Core.List.{get_last?};
ghost use Rattle.std.proofs.Math.Option.{none};
ghost use Rattle.chart.specs.Table.{option_of};
ghost use Rattle.chart.specs.Numbers.{number_in};
ghost use Rattle.rules.specs.Lists.{is_empty};
ghost use Rattle.rules.specs.Records.{levels_of};
ghost use Rattle.rules.specs.Refusals.{refuse, held};
ghost use Rattle.rules.specs.Refusals.{bad_stroke, unmet, unjoined, bad_triple, broken_strokes, broken_triples, broken_levels};
ghost use Rattle.rules.specs.Refusals.{stroke_refusal, triple_refusal, lengthen_refusal, withdraw_refusal, derive_refusal};

use chart::{Chart, Refusal, Stroke, Triple};

// ---- one record, given the one before it in its level

// 4 of a stroke: start bar ≥ end bar, or up without end > start, or down without end < start.
#[tactic(auto, unfolding(rules::specs::Refusals::bad_stroke))]
fn bad_stroke(s: Stroke) -> bool
    ensures { result ≡ bad_stroke s }
{
    if s.end_bar <= s.start_bar {
        return true;
    }
    if s.direction == 1 {
        !(s.start_price < s.end_price)
    } else {
        !(s.end_price < s.start_price)
    }
}

// Whether the start price of a stroke breaks its 14 behind p: it is not the previous end price, and the stroke is not rolled.
#[tactic(auto, unfolding(rules::specs::Refusals::unmet))]
fn unmet(p: Stroke, s: Stroke) -> bool
    ensures { result ≡ unmet p s }
{
    s.start_price != p.end_price && s.roll != 1
}

// 14 of a stroke: start bar or start price differs from the previous end, or same direction. The first of all has none.
#[tactic(auto, unfolding(rules::specs::Refusals::unjoined))]
fn unjoined(previous: Option<Stroke>, s: Stroke) -> bool
    ensures { result ≡ unjoined (option_of previous) s }
{
    match previous {
        Some(p) => s.start_bar != p.end_bar || unmet(p, s) || s.direction == p.direction,
        None => false,
    }
}

// 4 of a segment, big or superior: first > last, or first ≤ the previous record's last.
#[tactic(auto, unfolding(rules::specs::Refusals::bad_triple))]
fn bad_triple(previous: Option<Triple>, t: Triple) -> bool
    ensures { result ≡ bad_triple (option_of previous) t }
{
    match previous {
        Some(p) => t.last < t.first || t.first <= p.last,
        None => t.last < t.first,
    }
}

// ---- 21: records that break their add's 4, 5 or 14

// Among the strokes.
#[tactic(auto, unfolding(rules::specs::Refusals::broken_strokes))]
fn broken_strokes(strokes: &[Stroke]) -> bool
    ensures { result ≡ broken_strokes none strokes.now }
{
    let mut previous = None;
    for s in strokes {
        if bad_stroke(*s) || unjoined(previous, *s) {
            return true;
        }
        previous = Some(*s);
    }
    false
}

// Among the records of a level over one of `below` records.
#[tactic(auto, unfolding(rules::specs::Refusals::broken_triples))]
fn broken_triples(level: &[Triple], below: usize) -> bool
    ensures { result ≡ broken_triples below none level.now }
{
    let mut previous = None;
    for t in level {
        if bad_triple(previous, *t) || below <= t.last as usize {
            return true;
        }
        previous = Some(*t);
    }
    false
}

// Among all levels.
#[tactic(auto, unfolding(rules::specs::Refusals::broken_levels, rules::specs::Records::levels_of))]
pub fn broken_levels(chart: &Chart) -> bool
    ensures { result ≡ broken_levels (levels_of chart.now) }
{
    broken_strokes(chart.strokes())
        || broken_triples(chart.segments(), chart.strokes().len())
        || broken_triples(chart.bigs(), chart.segments().len())
        || broken_triples(chart.superiors(), chart.bigs().len())
}

// ---- the calls' own numbers

// The last record of a level.
fn last_of<T: Copy>(level: &[T]) -> Option<T>
    ensures { option_of result ≡ get_last? level.now }
{
    level.last().copied()
}

// Add stroke: 3 full; 2; 1; 4; 14.
#[tactic(auto, unfolding(rules::specs::Refusals::stroke_refusal, rules::specs::Refusals::refuse, rules::specs::Refusals::bad_prices))]
pub fn stroke_refusal(strokes: &[Stroke], s: Stroke) -> Result<(), Refusal>
    ensures { number_in result ≡ stroke_refusal strokes.now s }
{
    if 512 <= strokes.len() {
        return Err(Refusal::Full);
    }
    if levels::wrong_bytes(s) {
        return Err(Refusal::Above);
    }
    if price::wrong_prices(s.start_price, s.end_price) {
        return Err(Refusal::Price);
    }
    if bad_stroke(s) {
        return Err(Refusal::Order);
    }
    if unjoined(last_of(strokes), s) {
        return Err(Refusal::Apart);
    }
    Ok(())
}

// Add segment, big or superior to a level over one of `below` records: 3 full; 2; 4; 5.
#[tactic(auto, unfolding(rules::specs::Refusals::triple_refusal, rules::specs::Refusals::refuse))]
pub fn triple_refusal(level: &[Triple], below: usize, t: Triple) -> Result<(), Refusal>
    ensures { number_in result ≡ triple_refusal level.now below t }
{
    if 256 <= level.len() {
        return Err(Refusal::Full);
    }
    if 1 < t.direction {
        return Err(Refusal::Above);
    }
    if bad_triple(last_of(level), t) {
        return Err(Refusal::Order);
    }
    if below <= t.last as usize {
        return Err(Refusal::Below);
    }
    Ok(())
}

// Lengthen the last superior, over `bigs` bigs: 7 no superior; 4 new last ≤ present; 5 not a big.
#[tactic(auto, unfolding(rules::specs::Refusals::lengthen_refusal, rules::specs::Refusals::refuse))]
pub fn lengthen_refusal(superiors: &[Triple], bigs: usize, last: u16) -> Result<(), Refusal>
    ensures { number_in result ≡ lengthen_refusal (get_last? superiors.now) bigs last }
{
    let present = last_of(superiors).ok_or(Refusal::Empty)?.last;
    if last <= present {
        return Err(Refusal::Order);
    }
    if bigs <= last as usize {
        return Err(Refusal::Below);
    }
    Ok(())
}

// 7 of an empty level.
#[tactic(auto, unfolding(rules::specs::Refusals::refuse))]
fn not_empty<T>(level: &[T]) -> Result<(), Refusal>
    ensures { number_in result ≡ refuse (is_empty level.now) 7 0 }
{
    if level.is_empty() {
        return Err(Refusal::Empty);
    }
    Ok(())
}

// Withdraw from a level under another: 7 level empty; 6 the record is the last of the level above's last record.
#[tactic(auto, unfolding(rules::specs::Refusals::refuse, rules::specs::Refusals::held))]
fn under_refusal<T>(level: &[T], above: &[Triple]) -> Result<(), Refusal>
    ensures { number_in result ≡ refuse (is_empty level.now) 7 (refuse (held (get_last? above.now) (length level.now)) 6 0) }
{
    not_empty(level)?;
    match last_of(above) {
        Some(t) if t.last as usize + 1 == level.len() => Err(Refusal::Held),
        _ => Ok(()),
    }
}

// Withdraw: 2 level above 3; 7 level empty; 6 the record is the last of the level above's last record. No level is above the superiors.
#[tactic(auto, unfolding(rules::specs::Refusals::withdraw_refusal, rules::specs::Records::levels_of))]
pub fn withdraw_refusal(chart: &Chart, level: u8) -> Result<(), Refusal>
    ensures { number_in result ≡ withdraw_refusal (levels_of chart.now) level }
{
    match level {
        0 => under_refusal(chart.strokes(), chart.segments()),
        1 => under_refusal(chart.segments(), chart.bigs()),
        2 => under_refusal(chart.bigs(), chart.superiors()),
        3 => not_empty(chart.superiors()),
        _ => Err(Refusal::Above),
    }
}

// Derive into a level: 2 case-3 byte above 1; 6 level not empty.
#[tactic(auto, unfolding(rules::specs::Refusals::derive_refusal, rules::specs::Refusals::refuse))]
pub fn derive_refusal(level: &[Triple], byte: u8) -> Result<(), Refusal>
    ensures { number_in result ≡ derive_refusal level.now byte }
{
    if 1 < byte {
        return Err(Refusal::Above);
    }
    if !level.is_empty() {
        return Err(Refusal::Held);
    }
    Ok(())
}
