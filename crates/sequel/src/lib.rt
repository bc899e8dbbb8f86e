// Demand 3 of one run: a log of calls replayed from a chart with nothing in it, then third and 3+N marks of the chart that it leaves, over the
// bars of the log.

#![tactic(auto)]

ghost use Rattle.sequel.specs.After.{After};

use chart::{NMark, Refusal, ThirdMark};
use playback::Replayed;
use rows::Rows;

// A replay, and the answers of both calls for marks behind it.
#[derive(Clone, Copy)]
pub struct Sequel {
    pub run: Replayed,
    pub thirds: Result<Rows<ThirdMark, 512>, Refusal>,
    pub marks: Result<Rows<NMark, 512>, Refusal>,
}

// A log replayed, then both calls, or the place of its first bad entry.
pub fn replay_then_marks(log: &[u8]) -> Result<Sequel, usize>
    ensures { After log.now result }
{
    let run = playback::replay(log)?;
    let chart = &run.chart.chart;
    let highs = run.highs.listed();
    let lows = run.lows.listed();
    let thirds = third::bigseg_third_marks_all_zhongshu(chart, highs, lows);
    let marks = three_n::bigseg_3n_marks_all_zhongshu(chart, highs, lows);
    Ok(Sequel { run, thirds, marks })
}
