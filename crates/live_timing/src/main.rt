// Makes one call of a live chart many times, for the script oracle/timing to time, and prints a sum of the answers. Arguments: the call and how many
// times it is made. Calls: build (all records of the chart in `chart.dat`, each by its call), and, on the chart so built, accepted and
// refused. Of this program only safety is proved.

#![tactic(auto)]

use chart::{Chart, NO_TRIPLE};
use live::{Answered, Live};
use std::io;
use std::io::Write;

// The live chart of all records of a chart, each added by its call.
fn built(chart: &Chart) -> Live {
    let mut b = live::new();
    for s in chart.strokes() {
        b = b.add_stroke(*s).chart;
    }
    for t in chart.segments() {
        b = b.add_segment(*t).chart;
    }
    for t in chart.bigs() {
        b = b.add_big(*t).chart;
    }
    for t in chart.superiors() {
        b = b.add_superior(*t).chart;
    }
    b
}

// The number of an answer and the count of accepted calls, modulo 65,536.
fn value_of(number: u8, count: u32) -> u16 {
    u16::from(number).wrapping_add((count % 65536) as u16)
}

fn build_sum(chart: &Chart, turns: u32) -> u16 {
    let mut sum = 0u16;
    for _ in 0..turns {
        sum = sum.wrapping_add(value_of(0, built(chart).count));
    }
    sum
}

// The sum of so many turns on the chart that is built.
fn live_sum<F: Fn(Live, u32) -> Answered>(chart: &Chart, turns: u32, turn: F) -> u16
    requires { F.IsAlwaysCallable turn }
{
    let mut b = built(chart);
    let mut sum = 0u16;
    for i in 0..turns {
        let a = turn(b, i);
        sum = sum.wrapping_add(value_of(a.number, a.chart.count));
        b = a.chart;
    }
    sum
}

// The sum of so many turns of the call of this name. Accepted: the last superior is withdrawn and added again in turns. Refused: a level that there
// is not, with 2, behind 21.
fn sum_of(name: [u8; 8], chart: &Chart, turns: u32) -> u16 {
    let last = chart.superiors().last().copied().unwrap_or(NO_TRIPLE);
    match &name {
        b"build\0\0\0" => build_sum(chart, turns),
        b"accepted" => live_sum(chart, turns, |b, i| {
            if i % 2 == 0 {
                b.withdraw(3)
            } else {
                b.add_superior(last)
            }
        }),
        b"refused\0" => live_sum(chart, turns, |b, _| b.withdraw(4)),
        _ => 0,
    }
}

fn main(rt: HostRuntime) -> io::Result<()> {
    let mut file = files::chart_room();
    let n = files::read_file(&rt, b"chart.dat", &mut file);
    let name = arguments::word(&rt, 1);
    let turns = arguments::number(arguments::word(&rt, 2));
    let mut out = io::writer(&rt);
    match chart_read::read_chart(&file[..n]) {
        Ok(loaded) => {
            let sum = sum_of(name, &loaded.chart, turns);
            out.write_all(b"SUM")?;
            writeln!(out, " {sum}")
        }
        Err(refused) => writeln!(out, "{refused}"),
    }
}
