// 21 of a live call: of the chart, of records that break their add's conditions, and of kept zones other than the overlap rule's.

#![tactic(auto)]

ghost use Rattle.std.specs.Prelude.{◌≡◌, length};
ghost use Rattle.rules.specs.Refusals.{same_price, same_zone, same_zones, bad_live};

use chart::{Chart, Zone};
use std::num::f64_to_bits_with_nan;

// Whether two prices are the same as data, bit for bit. == is another relation: there 0 is -0, and no NaN is itself.
#[tactic(auto, unfolding(rules::specs::Refusals::same_price))]
fn same_price(a: f64, b: f64) -> bool
    ensures { result ≡ same_price a b }
{
    f64_to_bits_with_nan(a) == f64_to_bits_with_nan(b)
}

// Whether two zones are the same in every field. All are compared: zones that were kept are nearly always the same.
#[tactic(auto, unfolding(rules::specs::Refusals::same_zone))]
fn same_zone(a: &Zone, b: &Zone) -> bool
    ensures { result ≡ same_zone a.now b.now }
{
    (a.sup_idx == b.sup_idx)
        & (a.start_bar == b.start_bar)
        & (a.end_bar == b.end_bar)
        & same_price(a.zd, b.zd)
        & same_price(a.zg, b.zg)
        & same_price(a.dd, b.dd)
        & same_price(a.gg, b.gg)
        & (a.first_member == b.first_member)
        & (a.members == b.members)
        & (a.dd_bar == b.dd_bar)
        & (a.gg_bar == b.gg_bar)
}

// Whether some zones are the same as others, in the same order.
#[tactic(auto, unfolding(rules::specs::Refusals::same_zones))]
fn same_zones(a: &[Zone], b: &[Zone]) -> bool
    ensures { result ≡ same_zones a.now b.now }
{
    a.len() == b.len() && a.iter().zip(b).all(|(x, y)| same_zone(x, y))
}

// 21 of a live call on a chart that keeps these zones.
pub fn bad_live(chart: &Chart, kept: &[Zone]) -> bool
    ensures { result ≡ bad_live (record { chart = chart.now; zones = kept.now; zone_count = length kept.now }) }
{
    let Ok(found) = zones::detect_bigseg_zhongshus_by_overlap(chart) else {
        return true;
    };
    let broken = calls::broken_levels(chart);
    broken || !same_zones(kept, found.listed())
}
