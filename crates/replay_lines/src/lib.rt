// What `replay` prints of a log: an answer for each call, then the chart, and where the log has bars the marks over them. Of printing only
// safety is proved; answers, chart and marks come from the proved replay.

#![tactic(auto)]

use chart::Refusal;
use live::Live;
use printing::{Row, print_rows};
use rows::Rows;
use std::io;
use std::io::Write;

// The count of accepted calls, the records of each level, and the zones.
fn print_live<W: Write>(out: &mut W, b: &Live) -> io::Result<()> {
    writeln!(out, "count {}", b.count)?;
    print_rows(out, b"stroke ", b.chart.strokes())?;
    print_rows(out, b"segment ", b.chart.segments())?;
    print_rows(out, b"big ", b.chart.bigs())?;
    print_rows(out, b"superior ", b.chart.superiors())?;
    let zones = (b.zone_count as usize).min(256);
    print_rows(out, b"zone ", &b.zones[..zones])
}

// The marks of a call behind its word, or its refusal.
fn print_marks<W: Write, T: Row + Copy, const N: usize>(
    out: &mut W,
    word: &[u8],
    found: Result<Rows<T, N>, Refusal>,
) -> io::Result<()> {
    match found {
        Ok(marks) => print_rows(out, word, marks.listed()),
        Err(refusal) => {
            out.write_all(word)?;
            writeln!(out, "refused {refusal}")
        }
    }
}

// All lines, or `bad log at P` alone. A log without a bar has no line of marks.
pub fn print_replay<W: Write>(out: &mut W, log: &[u8]) -> io::Result<()> {
    let all = match sequel::replay_then_marks(log) {
        Ok(all) => all,
        Err(place) => return writeln!(out, "bad log at {place}"),
    };
    for number in all.run.answers.listed() {
        writeln!(out, "{number}")?;
    }
    print_live(out, &all.run.chart)?;
    if all.run.highs.count == 0 {
        return Ok(());
    }
    print_marks(out, b"third ", all.thirds)?;
    print_marks(out, b"threen ", all.marks)
}
