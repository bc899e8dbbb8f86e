// Makes one call many times on the chart in `chart.dat` over the bars in `bars.dat`, for the script oracle/timing to time, and prints a sum of the answers.
// Arguments: the call (zones, third or threen) and how many times it is made. Of this program only safety is proved.

#![tactic(auto)]

ghost use Rattle.std.specs.Prelude.{◌<◌};

use chart::{Chart, Refusal, RefusedAt};
use rows::Rows;
use std::io;
use std::io::Write;

// The stroke that turn i changes: not the first of a big of a full chart, and in a small one perhaps behind the last.
fn place(i: u32) -> usize
    ensures { result < 512 }
{
    (i % 256 * 2 + 1) as usize
}

// The number of rows of an answer and a bar of its middle row, modulo 65,536, so that the compiler leaves no row out.
fn value_of<T: Copy, const N: usize, F: Fn(&T) -> u16>(
    found: &Result<Rows<T, N>, Refusal>,
    bar: F,
) -> u16
    requires { F.IsAlwaysCallable bar }
{
    let Ok(rows) = found else {
        return 0;
    };
    let listed = rows.listed();
    match listed.get(listed.len() / 2) {
        Some(row) => ((rows.count % 65536) as u16).wrapping_add(bar(row)),
        None => 0,
    }
}

// The sum of so many turns, each of which is handed the chart by value, modulo 65,536. Before each the start price of a stroke is changed, so that no
// turn is taken out of the loop. The first turn stands before the loop: what is called at two places stays a function.
fn sum_of<F: Fn(Chart) -> u16>(start: Chart, turns: u32, turn: F) -> u16
    requires { F.IsAlwaysCallable turn }
{
    if turns == 0 {
        return 0;
    }
    let mut chart = start;
    chart.strokes[place(0)].start_price += 0.25;
    let mut sum = turn(chart);
    for i in 1..turns {
        chart.strokes[place(i)].start_price += 0.25;
        sum = sum.wrapping_add(turn(chart));
    }
    sum
}

// That of the turns of the call of this name.
fn sum_by_name(name: [u8; 8], chart: Chart, highs: &[f64], lows: &[f64], turns: u32) -> u16 {
    match &name {
        b"zones\0\0\0" => sum_of(chart, turns, |c| {
            value_of(&zones::detect_bigseg_zhongshus_by_overlap(&c), |z| {
                z.start_bar
            })
        }),
        b"third\0\0\0" => sum_of(chart, turns, |c| {
            value_of(
                &third::bigseg_third_marks_all_zhongshu(&c, highs, lows),
                |m| m.bar_index,
            )
        }),
        b"threen\0\0" => sum_of(chart, turns, |c| {
            value_of(
                &three_n::bigseg_3n_marks_all_zhongshu(&c, highs, lows),
                |m| m.bar_index,
            )
        }),
        _ => 0,
    }
}

// The sum of the turns on a chart file and a bars file.
fn sum_of_files(chart: &[u8], bars: &[u8], name: [u8; 8], turns: u32) -> Result<u16, RefusedAt> {
    let loaded = chart_read::read_chart(chart)?;
    let mut highs = [0.0; 2048];
    let mut lows = [0.0; 2048];
    let n = bars_read::read_bars(bars, &mut highs, &mut lows)?.min(2048);
    Ok(sum_by_name(name, loaded.chart, &highs[..n], &lows[..n], turns))
}

fn main(rt: HostRuntime) -> io::Result<()> {
    let mut chart = files::chart_room();
    let n = files::read_file(&rt, b"chart.dat", &mut chart);
    let mut bars = files::bars_room();
    let m = files::read_file(&rt, b"bars.dat", &mut bars);
    let name = arguments::word(&rt, 1);
    let turns = arguments::number(arguments::word(&rt, 2));
    let mut out = io::writer(&rt);
    match sum_of_files(&chart[..n], &bars[..m], name, turns) {
        Ok(sum) => {
            out.write_all(b"SUM")?;
            writeln!(out, " {sum}")
        }
        Err(refused) => writeln!(out, "{refused}"),
    }
}
