// What every call on zones and marks looks at: the bigs of a chart with their ranges and end points, and its superiors with their end bars.

#![tactic(auto)]

ghost use Rattle.std.specs.Prelude.{◌≡◌, ◌≤◌, OnOk, cond};
ghost use Rattle.chart.specs.Numbers.{number_in};
ghost use Rattle.rows.specs.Rows.{rows_in};
ghost use Rattle.rules.specs.Records.{levels_of};
ghost use Rattle.rules.specs.Refusals.{bad_chart};
ghost use Rattle.rules.specs.Marks.{superior_end};
ghost use Rattle.tables.specs.Tables.{big_of, bigs_of, bar_of, superior_of, superiors_of};

use chart::{Chart, EndPoint, Range, Refusal, Triple};
use rows::Rows;

// A big: its direction, its range, and its end point if it has one. A record of another level stands here too, with no end point.
#[derive(Clone, Copy)]
pub struct Big {
    pub direction: u8,
    pub range: Range,
    pub end: Option<EndPoint>,
}

// What stands in a place that is not counted.
pub const NO_BIG: Big = Big {
    direction: 0,
    range: Range::Missing,
    end: None,
};

// A superior, and the end bar of the big that its last names, if there is one.
#[derive(Clone, Copy)]
pub struct Superior {
    pub direction: u8,
    pub first: u16,
    pub last: u16,
    pub end_bar: Option<u16>,
}

pub const NO_SUPERIOR: Superior = Superior {
    direction: 0,
    first: 0,
    last: 0,
    end_bar: None,
};

// A big of a chart.
fn big_of(chart: &Chart, b: Triple) -> Big
    ensures { result ≡ big_of (levels_of chart.now) b }
{
    Big {
        direction: b.direction,
        range: levels::range_of(chart, b),
        end: levels::end_of(chart, b),
    }
}

// Refusal 21 of a loaded chart, and its bigs.
#[tactic(auto, unfolding(rules::specs::Records::levels_of))]
pub fn bigs_of(chart: &Chart, bigs: &mut Rows<Big, 256>) -> Result<(), Refusal>
    ensures number { number_in result ≡ cond (bad_chart chart.now) 21 0 }
    ensures bigs { OnOk result (rows_in bigs.new ≡ bigs_of (levels_of chart.now)) }
{
    if levels::bad_chart(chart) {
        return Err(Refusal::Chart);
    }
    bigs.count = 0;
    for b in chart.bigs() {
        bigs.push(big_of(chart, *b));
    }
    Ok(())
}

// The bar at which a superior ends: that of the end point of its last big, where first ≤ last.
#[tactic(auto, unfolding(rules::specs::Marks::superior_end, rules::specs::Ranges::end_point_of, rules::specs::Records::levels_of))]
fn end_bar_of(chart: &Chart, s: Triple) -> Option<u16>
    ensures { result ≡ bar_of (superior_end (levels_of chart.now) s) }
{
    if s.last < s.first {
        return None;
    }
    let big = levels::record_at(chart.bigs(), s.last)?;
    let end = levels::end_of(chart, big)?;
    Some(end.bar)
}

// A superior of a chart.
fn superior_of(chart: &Chart, s: Triple) -> Superior
    ensures { result ≡ superior_of (levels_of chart.now) s }
{
    Superior {
        direction: s.direction,
        first: s.first,
        last: s.last,
        end_bar: end_bar_of(chart, s),
    }
}

// The superiors of a chart.
#[tactic(auto, unfolding(rules::specs::Records::levels_of))]
pub fn superiors_of(chart: &Chart, superiors: &mut Rows<Superior, 256>)
    requires { chart.now.superior_count ≤ 256 }
    ensures { rows_in superiors.new ≡ superiors_of (levels_of chart.now) }
{
    superiors.count = 0;
    for s in chart.superiors() {
        superiors.push(superior_of(chart, *s));
    }
}
