// Zones one level lower: those of the bigs over their segments, by the overlap rule that serves every level.

#![tactic(auto)]

ghost use Rattle.std.specs.Prelude.{◌≡◌, false, map};
ghost use Rattle.rows.specs.Rows.{rows_in};
ghost use Rattle.rules.specs.Answer.{answered, rows_answer};
ghost use Rattle.rules.specs.Records.{levels_of};
ghost use Rattle.rules.specs.Ranges.{segment_range};
ghost use Rattle.rules.specs.Zones.{lower_zones_of};
ghost use Rattle.rules.specs.Refusals.{bad_chart, lower_refusal};
ghost use Rattle.rules.specs.Calls.{lower_call};
ghost use Rattle.lower_zones.specs.Segments.{segment_of, segments_of};

use chart::{Chart, NO_ZONE, Range, Refusal, Triple, Zone};
use rows::Rows;
use tables::{Big, NO_BIG};

// The range of a segment, from the start of its first stroke to the end of its last, where both are there.
#[tactic(auto, unfolding(rules::specs::Ranges::segment_range, rules::specs::Ranges::spanned, rules::specs::Records::levels_of))]
fn segment_range(chart: &Chart, t: Triple) -> Range
    ensures { result ≡ segment_range (levels_of chart.now) t }
{
    if t.last < t.first {
        return Range::Missing;
    }
    let first = levels::record_at(chart.strokes(), t.first);
    let last = levels::record_at(chart.strokes(), t.last);
    match (first, last) {
        (Some(s), Some(e)) => levels::span_of(s, e),
        _ => Range::Missing,
    }
}

// A segment as a record under the rule.
fn segment_of(chart: &Chart, t: Triple) -> Big
    ensures { result ≡ segment_of (levels_of chart.now) t }
{
    Big {
        direction: t.direction,
        range: segment_range(chart, t),
        end: None,
    }
}

// The segments of a chart that is not refused with 21.
#[tactic(auto, unfolding(rules::specs::Records::levels_of))]
fn segments_of(chart: &Chart) -> Rows<Big, 256>
    requires { bad_chart chart.now ≡ false }
    ensures { rows_in result ≡ segments_of (levels_of chart.now) }
{
    let mut segments = Rows::new(NO_BIG);
    for t in chart.segments() {
        segments.push(segment_of(chart, *t));
    }
    segments
}

// The lower zones of a chart that is not refused with 21: 11 where there are more than 256.
pub fn lower_rows(chart: &Chart) -> Result<Rows<Zone, 256>, Refusal>
    requires { bad_chart chart.now ≡ false }
    ensures { rows_answer result ≡ answered (lower_refusal (levels_of chart.now)) (lower_zones_of (levels_of chart.now)) }
{
    let segments = segments_of(chart);
    let mut zones = Rows::new(NO_ZONE);
    zones::overlap(chart.bigs(), segments.listed(), &mut zones)?;
    Ok(zones)
}

// The lower zones of a chart: 21, then 11 where there are more than 256.
#[tactic(auto, unfolding(rules::specs::Calls::lower_call, rules::specs::Calls::on_chart))]
pub fn detect_segment_zhongshus_by_overlap(chart: &Chart) -> Result<Rows<Zone, 256>, Refusal>
    ensures { rows_answer result ≡ lower_call chart.now }
{
    if levels::bad_chart(chart) {
        return Err(Refusal::Chart);
    }
    lower_rows(chart)
}
