// Replays a stream of stored cases and prints what comes of each. A case is its kind, a byte; its length, a u32 with the lowest byte first; and so
// many bytes. Kinds: 1 a chart file and a bars file, reported; 2 a chart file, read and written again; 3 a log, replayed; 4 two chart files, compared;
// 5 a bars file, read and written again. What must be printed was written by the reference, by packers and by a machine in Python (oracle/README.md).
// Of this program only safety is proved.

#![tactic(auto)]

ghost use Rattle.std.specs.Prelude.{◌≡◌, length};

use chart::{Chart, NO_STROKE, NO_TRIPLE, Refusal};
use printing::Hex;
use std::io;
use std::io::{BufWriter, Write};

// ---- numbers and parts in front of the other bytes

// A u16 with the lowest byte first, and what stands behind it.
fn split_u16(bytes: &[u8]) -> Option<(usize, &[u8])> {
    let [a, b, behind @ ..] = bytes else {
        return None;
    };
    Some((u16::from_le_bytes([*a, *b]) as usize, behind))
}

// A u32.
fn split_u32(bytes: &[u8]) -> Option<(usize, &[u8])> {
    let [a, b, c, d, behind @ ..] = bytes else {
        return None;
    };
    Some((u32::from_le_bytes([*a, *b, *c, *d]) as usize, behind))
}

// As many bytes as a u32 in front of them says.
fn split_part(bytes: &[u8]) -> Option<(&[u8], &[u8])> {
    let (n, behind) = split_u32(bytes)?;
    behind.split_at_checked(n)
}

// The first n places of a buffer, or all.
fn cut<T>(buffer: &mut [T], n: usize) -> &mut [T] {
    let n = n.min(buffer.len());
    &mut buffer[..n]
}

// ---- a chart file and a bars file reported

// The length of the chart file, a u32; then both files.
fn report<W: Write>(out: &mut W, case: &[u8]) -> io::Result<()> {
    match split_part(case) {
        Some((chart, bars)) => sections::print_report(out, chart, bars),
        None => Ok(()),
    }
}

// ---- a chart file read and written again

// Some bytes, behind a line with their number.
fn print_bytes<W: Write>(out: &mut W, bytes: &[u8]) -> io::Result<()> {
    writeln!(out, "BYTES {}", bytes.len())?;
    out.write_all(bytes)
}

// A chart with nothing in it.
fn no_chart() -> Chart {
    Chart {
        strokes: [NO_STROKE; 512],
        stroke_count: 0,
        segments: [NO_TRIPLE; 256],
        segment_count: 0,
        bigs: [NO_TRIPLE; 256],
        big_count: 0,
        superiors: [NO_TRIPLE; 256],
        superior_count: 0,
    }
}

// The chart of a file, and one with nothing in it where the file is refused.
fn chart_in(file: &[u8]) -> Chart {
    match chart_read::read_chart(file) {
        Ok(loaded) => loaded.chart,
        Err(_) => no_chart(),
    }
}

// What is written of the chart; no bytes where that is refused.
fn rewrite<W: Write>(out: &mut W, file: &[u8]) -> io::Result<()> {
    let chart = chart_in(file);
    let mut buffer = [0; 65536];
    let n = chart_write::write_chart(&chart, &mut buffer).unwrap_or(0);
    print_bytes(out, &buffer[..n.min(65536)])
}

// ---- two chart files compared

// Two sizes and the length of the first file, each a u16; then both files.
fn split_compared(case: &[u8]) -> Option<(usize, usize, &[u8], &[u8])> {
    let (first, behind) = split_u16(case)?;
    let (second, behind) = split_u16(behind)?;
    let (len, behind) = split_u16(behind)?;
    let (one, two) = behind.split_at_checked(len)?;
    Some((first, second, one, two))
}

// The answer for two charts, and both buffers.
fn print_same<W: Write>(
    out: &mut W,
    a: &Chart,
    b: &Chart,
    first: &mut [u8],
    second: &mut [u8],
) -> io::Result<()> {
    let same = chart_trip::same_files(a, b, first, second);
    writeln!(out, "NUMBER {}", number_of(same))?;
    writeln!(out, "EQUAL {}", same.unwrap_or(false) as u8)?;
    print_bytes(out, first)?;
    print_bytes(out, second)
}

// The number of a refusal, 0 where there is none.
fn number_of<T: Copy>(answer: Result<T, Refusal>) -> u8 {
    match answer {
        Ok(_) => 0,
        Err(refusal) => refusal.number(),
    }
}

// A buffer that holds 255 before it is written.
fn all_ones() -> [u8; 65536]
    ensures { 65536 ≡ length result }
{
    [255; 65536]
}

// The charts of two files, written into buffers of the two sizes.
fn compare<W: Write>(out: &mut W, case: &[u8]) -> io::Result<()> {
    let Some((first, second, one, two)) = split_compared(case) else {
        return Ok(());
    };
    print_same(
        out,
        &chart_in(one),
        &chart_in(two),
        cut(&mut all_ones(), first),
        cut(&mut all_ones(), second),
    )
}

// ---- a bars file read and written again

// The answer for a bars file and slices, and the bars with the place behind them.
fn print_read<W: Write>(
    out: &mut W,
    file: &[u8],
    highs: &mut [f64],
    lows: &mut [f64],
) -> io::Result<()> {
    let (number, place, bars) = match bars_read::read_bars(file, highs, lows) {
        Ok(bars) => (0, 0, bars),
        Err(refused) => (refused.refusal.number(), refused.place, 0),
    };
    writeln!(out, "NUMBER {number}")?;
    writeln!(out, "PLACE {place}")?;
    writeln!(out, "BARS {bars}")?;
    for (high, low) in highs.iter().zip(lows.iter()).take(bars.saturating_add(1)) {
        writeln!(out, "{} {}", Hex(*high), Hex(*low))?;
    }
    Ok(())
}

// The answer for slices and a buffer, and that buffer whole.
fn print_written<W: Write>(
    out: &mut W,
    highs: &[f64],
    lows: &[f64],
    buffer: &mut [u8],
) -> io::Result<()> {
    let count = bars_write::write_bars(highs, lows, buffer);
    writeln!(out, "NUMBER {}", number_of(count))?;
    writeln!(out, "COUNT {}", count.unwrap_or(0))?;
    print_bytes(out, buffer)
}

// How many highs and lows are read into, how many of each are written, and the size of the buffer; the high and the low that stand in every place
// before.
#[derive(Clone, Copy)]
struct Trip {
    highs_read: usize,
    lows_read: usize,
    highs_written: usize,
    lows_written: usize,
    size: usize,
    high: f64,
    low: f64,
}

// Those, each number a u32, and the file behind them.
fn split_trip(case: &[u8]) -> Option<(Trip, &[u8])> {
    let (highs_read, behind) = split_u32(case)?;
    let (lows_read, behind) = split_u32(behind)?;
    let (highs_written, behind) = split_u32(behind)?;
    let (lows_written, behind) = split_u32(behind)?;
    let (size, behind) = split_u32(behind)?;
    if behind.len() < 16 {
        return None;
    }
    let trip = Trip {
        highs_read,
        lows_read,
        highs_written,
        lows_written,
        size,
        high: fields::price_at(behind, 0),
        low: fields::price_at(behind, 8),
    };
    Some((trip, &behind[16..]))
}

// A file read into slices, and slices written into a buffer, all of them cut to the sizes.
fn print_trip<W: Write>(
    out: &mut W,
    trip: Trip,
    file: &[u8],
    highs: &mut [f64],
    lows: &mut [f64],
    buffer: &mut [u8],
) -> io::Result<()> {
    print_read(
        out,
        file,
        cut(highs, trip.highs_read),
        cut(lows, trip.lows_read),
    )?;
    print_written(
        out,
        cut(highs, trip.highs_written),
        cut(lows, trip.lows_written),
        cut(buffer, trip.size),
    )
}

// As many bytes as 65,537 bars take. A function of its own, since the prover is slow where it sees so long an array.
fn bars_room() -> [u8; 1310740]
    ensures { 1310740 ≡ length result }
{
    [255; 1310740]
}

fn trip_bars<W: Write>(out: &mut W, case: &[u8]) -> io::Result<()> {
    match split_trip(case) {
        Some((trip, file)) => print_trip(
            out,
            trip,
            file,
            &mut [trip.high; 65537],
            &mut [trip.low; 65537],
            &mut bars_room(),
        ),
        None => Ok(()),
    }
}

// ---- cases

// A case, behind a line with its kind and its number in the stream.
fn print_case<W: Write>(out: &mut W, kind: u8, number: u64, case: &[u8]) -> io::Result<()> {
    match kind {
        1 => {
            writeln!(out, "REPORT {number}")?;
            report(out, case)
        }
        2 => {
            writeln!(out, "REWRITE {number}")?;
            rewrite(out, case)
        }
        3 => {
            writeln!(out, "REPLAY {number}")?;
            replay_lines::print_replay(out, case)
        }
        4 => {
            writeln!(out, "SAME {number}")?;
            compare(out, case)
        }
        5 => {
            writeln!(out, "BARS {number}")?;
            trip_bars(out, case)
        }
        _ => writeln!(out, "UNKNOWN {number}"),
    }
}

// Each case of the stream; a line for one that is cut short.
fn print_cases<W: Write>(out: &mut W, input: &[u8]) -> io::Result<()> {
    let mut behind = input;
    // each case says where the next one begins
    for number in 0..u64::MAX {
        let [kind, part @ ..] = behind else {
            return Ok(());
        };
        let Some((case, next)) = split_part(part) else {
            return writeln!(out, "CUT {number}");
        };
        print_case(out, *kind, number, case)?;
        behind = next;
    }
    Ok(())
}

fn room() -> [u8; 2097152]
    ensures { 2097152 ≡ length result }
{
    [0; 2097152]
}

fn main(rt: HostRuntime) -> io::Result<()> {
    let mut input = room();
    let n = files::read_full(&mut rt.reader(), &mut input);
    let mut out = BufWriter::new(rt.alloc(), io::writer(&rt))?;
    print_cases(&mut out, &input[..n])?;
    out.flush()
}
