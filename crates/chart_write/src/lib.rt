// Writing a chart file.

#![tactic(auto)]

ghost use Rattle.std.specs.Prelude.{◌≡◌, false, map, ◌≤◌, length};
ghost use Rattle.chart.specs.Numbers.{number_in};
ghost use Rattle.rules.specs.Answer.{plain_answer};
ghost use Rattle.rules.specs.Lists.{any, each};
ghost use Rattle.rules.specs.Records.{levels_of};
ghost use Rattle.rules.specs.Refusals.{bad_prices, wrong_stroke, bad_chart};
ghost use Rattle.rules.specs.File.{stroke, record_bytes, fill, written, write_refusal, write_call, buffer_after};
ghost use Rattle.chart_write.specs.Marked.{marked};

use chart::{Chart, Refusal, Stroke, Triple};

// ---- one record, at the start of the part of the buffer that is lent

// The record of a segment, a big or a superior, by its mark.
fn put_triple(out: &mut [u8], mark: &[u8; 2], t: Triple)
    requires { 7 ≤ length out.old }
    ensures { out.new ≡ fill (marked mark.now t) out.old }
{
    out[..2].copy_from_slice(mark);
    out[2] = t.direction;
    out[3..5].copy_from_slice(&fields::two_bytes(t.first));
    out[5..7].copy_from_slice(&fields::two_bytes(t.last));
}

// A stroke's record, which begins as a triple's. Its mark tells whether it is rolled.
fn put_stroke(out: &mut [u8], s: Stroke)
    requires in_bounds { 23 ≤ length out.old }
    requires s_value { bad_prices s ≡ false }
    ensures { out.new ≡ fill (record_bytes (stroke s)) out.old }
{
    let mark = if s.roll == 1 { b"SR" } else { b"ST" };
    let begun = Triple {
        direction: s.direction,
        first: s.start_bar,
        last: s.end_bar,
    };
    put_triple(out, mark, begun);
    out[7..15].copy_from_slice(&fields::price_bytes(s.start_price));
    out[15..23].copy_from_slice(&fields::price_bytes(s.end_price));
}

// ---- one level. The part that starts at a record's place is lent for it.

fn put_strokes(out: &mut [u8], strokes: &[Stroke])
    requires strokes_value { any wrong_stroke strokes.now ≡ false }
    requires strokes_in_bounds { length (each record_bytes (map stroke strokes.now)) ≤ length out.old }
    ensures { out.new ≡ fill (each record_bytes (map stroke strokes.now)) out.old }
{
    for (i, s) in strokes.iter().enumerate() {
        put_stroke(&mut out[23 * i..], *s);
    }
}

// Segments, bigs or superiors.
fn put_triples(out: &mut [u8], mark: &[u8; 2], triples: &[Triple])
    requires { length (each (marked mark.now) triples.now) ≤ length out.old }
    ensures { out.new ≡ fill (each (marked mark.now) triples.now) out.old }
{
    for (i, t) in triples.iter().enumerate() {
        put_triple(&mut out[7 * i..], mark, *t);
    }
}

// ---- the four levels of a chart

// How many bytes they take. The chart is not refused with 21.
fn size_of(chart: &Chart) -> usize
    requires { bad_chart chart.now ≡ false }
    ensures { result ≡ length (written (levels_of chart.now)) }
{
    23 * chart.strokes().len()
        + 7 * chart.segments().len()
        + 7 * chart.bigs().len()
        + 7 * chart.superiors().len()
}

// Writes them.
fn put_levels(buffer: &mut [u8], chart: &Chart)
    requires chart_value { bad_chart chart.now ≡ false }
    requires chart_in_bounds { length (written (levels_of chart.now)) ≤ length buffer.old }
    ensures { buffer.new ≡ fill (written (levels_of chart.now)) buffer.old }
{
    let strokes = chart.strokes();
    let segments = chart.segments();
    let bigs = chart.bigs();
    put_strokes(buffer, strokes);
    let mut end = 23 * strokes.len();
    put_triples(&mut buffer[end..], b"SG", segments);
    end += 7 * segments.len();
    put_triples(&mut buffer[end..], b"BG", bigs);
    end += 7 * bigs.len();
    put_triples(&mut buffer[end..], b"SU", chart.superiors());
}

// ---- the call

// A chart that no call takes, or a buffer too short.
pub fn refusal(chart: &Chart, buffer: &[u8]) -> Result<(), Refusal>
    ensures { number_in result ≡ write_refusal chart.now buffer.now }
{
    if levels::bad_chart(chart) {
        return Err(Refusal::Chart);
    }
    if buffer.len() < size_of(chart) {
        return Err(Refusal::Full);
    }
    Ok(())
}

// Writes strokes, segments, bigs, superiors, and gives how many bytes they take. A refused writing leaves the buffer as it was.
pub fn write_chart(chart: &Chart, buffer: &mut [u8]) -> Result<usize, Refusal>
    ensures count_value { plain_answer result ≡ write_call chart.now buffer.old }
    ensures buffer_after { buffer.new ≡ buffer_after chart.now buffer.old }
{
    refusal(chart, buffer)?;
    put_levels(buffer, chart);
    Ok(size_of(chart))
}
