// 3+N marks of a chart, over lent highs and lows.

#![tactic(auto)]

ghost use Rattle.std.specs.Prelude.{◌≡◌, ◌≤◌, length, leb};
ghost use Rattle.std.specs.List.{list_any};
ghost use mathlib.Core.List.{map};
ghost use Rattle.chart.specs.declared.Stroke.{Stroke};
ghost use Rattle.chart.specs.Numbers.{number_in};
ghost use Rattle.rows.specs.Rows.{rows_in};
ghost use Rattle.rules.specs.Answer.{rows_answer};
ghost use Rattle.rules.specs.Records.{Levels, levels_of};
ghost use Rattle.rules.specs.Marks.{order_zero, n_marks};
ghost use Rattle.rules.specs.Refusals.{refuse, ends_outside};
ghost use Rattle.rules.specs.Calls.{n_call};
ghost use Rattle.mark_scan.specs.Scan.{TablesOf};
ghost use Rattle.mark_hits.specs.Quotes.{quotes_of, quotes_refusal};

use chart::{Chart, Ground, NMark, NO_ZONE, Refusal, Stroke, ThirdMark, Zone};
use mark_hits::Quotes;
use rows::Rows;
use tables::{Big, NO_BIG, NO_SUPERIOR, Superior};

// What stands in a place that is not counted.
const NO_MARK: NMark = NMark {
    bar_index: 0,
    is_buy: false,
    order: 0,
    price: 0.0,
};

const NO_THIRD: ThirdMark = ThirdMark {
    bar_index: 0,
    is_buy: false,
    price: 0.0,
    ground: Ground::Zone(0.0),
};

// ---- refusals

// Whether a stroke ends outside slices of this length.
fn ends_outside(strokes: &[Stroke], len: usize) -> bool
    ensures { result ≡ list_any (λ (s : Stroke). leb len s.end_bar) strokes.now }
{
    strokes.iter().any(|s| len <= s.end_bar as usize)
}

// 8, 1, and 9 where a stroke ends outside the slices.
fn own_refusal(chart: &Chart, quotes: &Quotes) -> Result<(), Refusal>
    ensures { number_in result ≡ quotes_refusal (quotes_of quotes.now) (refuse (ends_outside (levels_of chart.now) (quotes_of quotes.now)) 9 0) }
{
    mark_hits::quotes_refusal(quotes)?;
    if ends_outside(chart.strokes(), quotes.highs.len()) {
        return Err(Refusal::Outside);
    }
    Ok(())
}

// ---- rows

// A third mark has order 0.
#[tactic(auto, unfolding(rules::specs::Marks::order_zero))]
fn order_zero(mark: &ThirdMark) -> NMark
    ensures { result ≡ order_zero mark.now }
{
    NMark {
        bar_index: mark.bar_index,
        is_buy: mark.is_buy,
        order: 0,
        price: mark.price,
    }
}

// The rows of the third marks.
fn zero_rows(thirds: &[ThirdMark], marks: &mut Rows<NMark, 512>)
    requires { length thirds.now ≤ 512 }
    ensures { rows_in marks.new ≡ map order_zero thirds.now }
{
    marks.count = 0;
    for mark in thirds {
        marks.push(order_zero(mark));
    }
}

// The rows of the marks of some levels, by their bigs, superiors and zones: those of the third marks, of order 0, then those of the
// superiors, then those of the anchors.
fn rows_of(
    bigs: &[Big],
    superiors: &[Superior],
    zones: &[Zone],
    quotes: &Quotes,
    marks: &mut Rows<NMark, 512>,
)
    requires few { (length bigs.now ≤ 256) × (length zones.now ≤ 256) }
    requires of_levels { (c : Levels) × TablesOf c bigs.now superiors.now zones.now }
    ensures { (c : Levels) → TablesOf c bigs.now superiors.now zones.now → rows_in marks.new ≡ n_marks c (quotes_of quotes.now) }
{
    let mut scans = Rows::new(mark_scan::NO_SCAN);
    mark_scan::scans_of(bigs, superiors, zones, &mut scans);
    let mut thirds = Rows::new(NO_THIRD);
    mark_thirds::thirds_of(bigs, superiors, zones, scans.listed(), quotes, &mut thirds);
    zero_rows(thirds.listed(), marks);
    mark_superiors::superior_rows(
        bigs,
        superiors,
        scans.listed(),
        thirds.listed(),
        quotes,
        marks,
    );
    let side = mark_hits::side_of(superiors, bigs.len());
    let limit = mark_anchors::anchor_limit(superiors, bigs, side.buy);
    mark_anchors::anchor_rows(bigs, side, limit, quotes, marks);
}

// ---- the call

// The 3+N marks of a chart's overlap zones and anchors: 21, then 8, 1, 9, and 11 where there are more than 256 zones.
pub fn bigseg_3n_marks_all_zhongshu(
    chart: &Chart,
    highs: &[f64],
    lows: &[f64],
) -> Result<Rows<NMark, 512>, Refusal>
    ensures { rows_answer result ≡ n_call chart.now (record { highs = highs.now; lows = lows.now }) }
{
    let quotes = Quotes { highs, lows };
    let mut bigs = Rows::new(NO_BIG);
    let mut superiors = Rows::new(NO_SUPERIOR);
    let mut zones = Rows::new(NO_ZONE);
    zones::fill_tables(
        chart,
        own_refusal(chart, &quotes),
        &mut bigs,
        &mut superiors,
        &mut zones,
    )?;
    let mut marks = Rows::new(NO_MARK);
    rows_of(
        bigs.listed(),
        superiors.listed(),
        zones.listed(),
        &quotes,
        &mut marks,
    );
    Ok(marks)
}
