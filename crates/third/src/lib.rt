// Third marks of a chart, over lent highs and lows.

#![tactic(auto)]

ghost use Rattle.std.specs.Prelude.{◌≡◌};
ghost use Rattle.rules.specs.Answer.{rows_answer};
ghost use Rattle.rules.specs.Calls.{third_call};

use chart::{Chart, Ground, NO_ZONE, Refusal, ThirdMark};
use mark_hits::Quotes;
use rows::Rows;
use tables::{NO_BIG, NO_SUPERIOR};

// What stands in a row that is not counted.
const NO_MARK: ThirdMark = ThirdMark {
    bar_index: 0,
    is_buy: false,
    price: 0.0,
    ground: Ground::Zone(0.0),
};

// The third marks of a chart's overlap zones and anchors: 21, then 8, 1, and 11 where there are more than 256 zones.
pub fn bigseg_third_marks_all_zhongshu(
    chart: &Chart,
    highs: &[f64],
    lows: &[f64],
) -> Result<Rows<ThirdMark, 512>, Refusal>
    ensures { rows_answer result ≡ third_call chart.now (record { highs = highs.now; lows = lows.now }) }
{
    let quotes = Quotes { highs, lows };
    let mut bigs = Rows::new(NO_BIG);
    let mut superiors = Rows::new(NO_SUPERIOR);
    let mut zones = Rows::new(NO_ZONE);
    zones::fill_tables(
        chart,
        mark_hits::quotes_refusal(&quotes),
        &mut bigs,
        &mut superiors,
        &mut zones,
    )?;
    let bigs = bigs.listed();
    let superiors = superiors.listed();
    let zones = zones.listed();
    let mut scans = Rows::new(mark_scan::NO_SCAN);
    mark_scan::scans_of(bigs, superiors, zones, &mut scans);
    let mut marks = Rows::new(NO_MARK);
    mark_thirds::thirds_of(bigs, superiors, zones, scans.listed(), &quotes, &mut marks);
    Ok(marks)
}
