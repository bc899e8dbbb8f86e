// What every call on a chart begins with, refusal 21 and the ranges of all bigs; and the calls for one big, its range and its end point.

#![tactic(auto)]

ghost use Rattle.std.specs.Prelude.{◌≡◌, true, false, cond};
ghost use Rattle.std.proofs.Math.Option.{some};
ghost use Rattle.std.proofs.Math.ListN.{get_elem?};
ghost use Rattle.rules.specs.Lists.{any};
ghost use Rattle.rules.specs.Records.{levels_of};
ghost use Rattle.rules.specs.Ranges.{spanned, first_stroke, last_stroke, range_of, end_point_of};
ghost use Rattle.rules.specs.Answer.{plain_answer};
ghost use Rattle.rules.specs.Calls.{range_call, end_point_call};
ghost use Rattle.rules.specs.Refusals.{wrong_bytes, wrong_stroke, wrong_triple, overfull, bad_chart};
ghost use Rattle.chart.specs.Table.{option_of, point_of};

use chart::{Chart, EndPoint, Range, Refusal, Span, Stroke, Triple};

// ---- refusal 21

// Whether a stroke has a direction or a roll byte above 1.
#[tactic(auto, unfolding(rules::specs::Refusals::wrong_bytes))]
pub fn wrong_bytes(s: Stroke) -> bool
    ensures { result ≡ wrong_bytes s }
{
    (1 < s.direction) | (1 < s.roll)
}

// Whether it has such a byte or a price that isn't one.
#[tactic(auto, unfolding(rules::specs::Refusals::wrong_stroke, rules::specs::Refusals::bad_prices))]
fn wrong_stroke(s: Stroke) -> bool
    ensures { result ≡ wrong_stroke s }
{
    wrong_bytes(s) || price::wrong_prices(s.start_price, s.end_price)
}

// Whether its bytes and the product of its prices show that a stroke is right. It has no branch, so that a loop tests several strokes at a time.
#[tactic(auto, unfolding(rules::specs::Refusals::wrong_stroke, rules::specs::Refusals::bad_prices))]
fn plain_stroke(s: Stroke) -> bool
    ensures { result ≡ true → wrong_stroke s ≡ false }
{
    !wrong_bytes(s) & price::plain_product(s.start_price, s.end_price)
}

// Whether every stroke is plain.
fn all_plain(strokes: &[Stroke]) -> bool
    ensures { result ≡ true → any wrong_stroke strokes.now ≡ false }
{
    let mut plain = true;
    for s in strokes {
        plain = plain & plain_stroke(*s);
    }
    plain
}

// Whether one of some strokes is wrong. They are tested one after the other only where the quick test does not show that none is.
fn wrong_strokes(strokes: &[Stroke]) -> bool
    ensures { result ≡ any wrong_stroke strokes.now }
{
    !all_plain(strokes) && strokes.iter().any(|s| wrong_stroke(*s))
}

// Whether one of some triples has a direction above 1.
pub fn wrong_triples(triples: &[Triple]) -> bool
    ensures { result ≡ any wrong_triple triples.now }
{
    triples.iter().any(|t| 1 < t.direction)
}

// Whether a level's count is above its size.
#[tactic(auto, unfolding(rules::specs::Refusals::overfull))]
pub fn overfull(chart: &Chart) -> bool
    ensures { result ≡ overfull chart.now }
{
    512 < chart.stroke_count
        || 256 < chart.segment_count
        || 256 < chart.big_count
        || 256 < chart.superior_count
}

// Refusal 21 of a loaded chart.
#[tactic(auto, unfolding(rules::specs::Refusals::bad_chart, rules::specs::Refusals::bad_levels, rules::specs::Records::levels_of))]
pub fn bad_chart(chart: &Chart) -> bool
    ensures { result ≡ bad_chart chart.now }
{
    overfull(chart)
        || wrong_strokes(chart.strokes())
        || wrong_triples(chart.segments())
        || wrong_triples(chart.bigs())
        || wrong_triples(chart.superiors())
}

// ---- ranges

// From the start of one stroke to the end of another.
#[tactic(auto, unfolding(rules::specs::Ranges::spanned))]
pub fn span_of(s: Stroke, e: Stroke) -> Range
    ensures { result ≡ spanned (some s) (some e) }
{
    Range::Found(Span {
        low: price::lower(s.start_price, e.end_price),
        high: price::higher(s.start_price, e.end_price),
        start_bar: s.start_bar,
        end_bar: e.end_bar,
        low_bar: bar_of(e.end_price < s.start_price, e.end_bar, s.start_bar),
        high_bar: bar_of(s.start_price < e.end_price, e.end_bar, s.start_bar),
    })
}

// The end bar where its price is beyond the start's, and else the start bar.
pub fn bar_of(beyond: bool, end_bar: u16, start_bar: u16) -> u16
    ensures { result ≡ cond beyond end_bar start_bar }
{
    if beyond { end_bar } else { start_bar }
}

// The record at an index, if it is there.
pub fn record_at<T: Copy>(records: &[T], index: u16) -> Option<T>
    ensures { option_of result ≡ get_elem? records.now index }
{
    records.get(index as usize).copied()
}

// The first stroke of a big's first segment, where both are there.
#[tactic(auto, unfolding(rules::specs::Ranges::first_stroke, rules::specs::Records::levels_of))]
fn first_stroke(chart: &Chart, big: Triple) -> Option<Stroke>
    ensures { option_of result ≡ first_stroke (levels_of chart.now) big }
{
    let segment = record_at(chart.segments(), big.first)?;
    record_at(chart.strokes(), segment.first)
}

// The last stroke of its last segment.
#[tactic(auto, unfolding(rules::specs::Ranges::last_stroke, rules::specs::Records::levels_of))]
fn last_stroke(chart: &Chart, big: Triple) -> Option<Stroke>
    ensures { option_of result ≡ last_stroke (levels_of chart.now) big }
{
    let segment = record_at(chart.segments(), big.last)?;
    record_at(chart.strokes(), segment.last)
}

// The range of a big, without 21.
#[tactic(auto, unfolding(rules::specs::Ranges::range_of, rules::specs::Ranges::spanned))]
pub fn range_of(chart: &Chart, big: Triple) -> Range
    ensures { result ≡ range_of (levels_of chart.now) big }
{
    if big.last < big.first {
        return Range::Missing;
    }
    match (first_stroke(chart, big), last_stroke(chart, big)) {
        (Some(s), Some(e)) => span_of(s, e),
        _ => Range::Missing,
    }
}

// The range of a big: refused with 21 only.
#[tactic(auto, unfolding(rules::specs::Calls::range_call, rules::specs::Calls::on_chart))]
pub fn resolve_bigseg_range(chart: &Chart, big: Triple) -> Result<Range, Refusal>
    ensures { plain_answer result ≡ range_call chart.now big }
{
    if bad_chart(chart) {
        return Err(Refusal::Chart);
    }
    Ok(range_of(chart, big))
}

// ---- end points

// The end point of a big, whether its range is missing or not, without 21.
pub fn end_of(chart: &Chart, big: Triple) -> Option<EndPoint>
    ensures { result ≡ point_of (last_stroke (levels_of chart.now) big) }
{
    let s = last_stroke(chart, big)?;
    Some(EndPoint {
        bar: s.end_bar,
        price: s.end_price,
    })
}

// That of the big with an index, if it is there.
#[tactic(auto, unfolding(rules::specs::Ranges::end_point_of, rules::specs::Records::levels_of))]
fn end_point_of(chart: &Chart, big: u16) -> Option<EndPoint>
    ensures { result ≡ point_of (end_point_of (levels_of chart.now) big) }
{
    let big = record_at(chart.bigs(), big)?;
    end_of(chart, big)
}

// The end point of the big with an index: refused with 21 only.
#[tactic(auto, unfolding(rules::specs::Calls::end_point_call, rules::specs::Calls::on_chart))]
pub fn resolve_sup_end_point(chart: &Chart, big: u16) -> Result<Option<EndPoint>, Refusal>
    ensures { plain_answer result ≡ end_point_call chart.now big }
{
    if bad_chart(chart) {
        return Err(Refusal::Chart);
    }
    Ok(end_point_of(chart, big))
}
