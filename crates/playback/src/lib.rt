// A log of calls, replayed on a live chart that begins with nothing in it, and the bars of the log.

#![tactic(auto)]

ghost use Rattle.std.specs.Prelude.{◌≡◌};
ghost use Rattle.std.proofs.Math.Option.{none};
ghost use Rattle.call_log.specs.Log.{spelled};
ghost use Rattle.call_log.specs.Entries.{bad_at};
ghost use Rattle.playback.specs.Replays.{Replays};

use call_log::LogEntry;
use live::Live;
use rows::Rows;

// What a replay leaves: an answer for each call, the chart behind them, and the bars of the log.
#[derive(Clone, Copy)]
pub struct Replayed {
    pub answers: Rows<u8, 32768>,
    pub highs: Rows<f64, 2048>,
    pub lows: Rows<f64, 2048>,
    pub chart: Live,
}

// The calls of a log without a bad entry, each later one on the chart that the call before handed back, and its bars. An entry has two bytes at
// least, so there are at most 32,768 calls.
fn run(log: &[u8]) -> Replayed
    requires { none ≡ bad_at (spelled log.now) }
    ensures { Replays log.now (Ok result) }
{
    let mut chart = live::new();
    let mut answers = Rows::new(0);
    let mut highs = Rows::new(0.0);
    let mut lows = Rows::new(0.0);
    let mut at = 0usize;
    // Entries are of different lengths: each says where the next one begins.
    while at < log.len() {
        let Some(n) = call_log::next_entry(log, at, highs.count) else {
            unreachable!();
        };
        at = n.next;
        match n.entry {
            LogEntry::Call(call) => {
                let answer = chart.call(call);
                answers.push(answer.number);
                chart = answer.chart;
            }
            LogEntry::Bar(high, low) => {
                highs.push(high);
                lows.push(low);
            }
        }
    }
    Replayed {
        answers,
        highs,
        lows,
        chart,
    }
}

// A log replayed, or the place of its first bad entry. Where one is bad, no call is run.
pub fn replay(log: &[u8]) -> Result<Replayed, usize>
    ensures { Replays log.now result }
{
    match call_log::bad_place(log) {
        Some(place) => Err(place),
        None => Ok(run(log)),
    }
}
