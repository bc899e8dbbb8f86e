// The overlap rule, once for every level: the zones of owners over the records of a level; what a call on a chart begins with; and the zone call.

#![tactic(auto)]

ghost use Rattle.std.specs.Prelude.{◌≡◌, ◌≤◌, ◌<◌, ◌+◌, ◌++◌, ◌∷◌, [], List, OnOk, cond, length};
ghost use Rattle.chart.specs.Numbers.{number_in};
ghost use Rattle.chart.specs.Table.{option_of};
ghost use Rattle.rows.specs.Rows.{rows_in};
ghost use Rattle.rules.specs.Answer.{answer_of, rows_answer};
ghost use Rattle.rules.specs.Records.{levels_of};
ghost use Rattle.rules.specs.Zones.{low_bar_of, begin, joins, join};
ghost use Rattle.rules.specs.Calls.{zones_call};
ghost use Rattle.zones.specs.Overlap.{span_of, opposing_in, members_in, zones_in, capped, Takes, Overlaps};
ghost use Rattle.zones.specs.Tables.{call_number, Filled, Tabled};

use chart::{Chart, NO_ZONE, Range, Refusal, Span, Triple, Zone};
use rows::Rows;
use tables::{Big, NO_BIG, NO_SUPERIOR, Superior};

// ---- a run

// A run of one, of owner h.
#[tactic(auto, unfolding(rules::specs::Zones::begin))]
fn begin(h: u16, index: u16, span: Span) -> Zone
    ensures { result ≡ begin h (record { index = index; span = span }) }
{
    Zone {
        sup_idx: h,
        start_bar: span.start_bar,
        end_bar: span.end_bar,
        zd: span.low,
        zg: span.high,
        dd: span.low,
        gg: span.high,
        first_member: index,
        members: 1,
        dd_bar: span.low_bar,
        gg_bar: span.high_bar,
    }
}

// Whether the next one joins the run: two must overlap, and a later one may touch.
#[tactic(auto, unfolding(rules::specs::Zones::joins))]
fn joins(z: Zone, s: Span) -> bool
    ensures { result ≡ joins z s }
{
    if z.members == 1 {
        price::higher(z.zd, s.low) < price::lower(z.zg, s.high)
    } else {
        s.low <= z.zg && z.zd <= s.high
    }
}

// The edge that the second member fixes, and that later ones leave.
fn fixed(second: bool, narrowed: f64, edge: f64) -> f64
    ensures { result ≡ cond second narrowed edge }
{
    if second { narrowed } else { edge }
}

// Of two prices with their bars, the bar of the lower one, and of equal prices the smaller bar. With the prices exchanged, that of the higher.
#[tactic(auto, unfolding(rules::specs::Zones::low_bar_of))]
fn low_bar(p: f64, a: u16, q: f64, b: u16) -> u16
    ensures { result ≡ low_bar_of p a q b }
{
    if p < q {
        a
    } else if q < p {
        b
    } else {
        a.min(b)
    }
}

// The run with one member more.
#[tactic(auto, unfolding(rules::specs::Zones::join, rules::specs::Zones::low_bar_of, rules::specs::Zones::high_bar_of))]
fn join(z: Zone, s: Span) -> Zone
    requires { z.members < 65535 }
    ensures { result ≡ join z s }
{
    let second = z.members == 1;
    Zone {
        sup_idx: z.sup_idx,
        start_bar: z.start_bar,
        end_bar: s.end_bar,
        zd: fixed(second, price::higher(z.zd, s.low), z.zd),
        zg: fixed(second, price::lower(z.zg, s.high), z.zg),
        dd: price::lower(z.dd, s.low),
        gg: price::higher(z.gg, s.high),
        first_member: z.first_member,
        members: z.members + 1,
        dd_bar: low_bar(z.dd, z.dd_bar, s.low, s.low_bar),
        gg_bar: low_bar(s.high, z.gg_bar, z.gg, s.high_bar),
    }
}

// A member taken: the run that is under way now, and the one before it where that is a zone now.
#[derive(Clone, Copy)]
struct Taken {
    run: Zone,
    closed: Option<Zone>,
}

// A member of owner h is taken: it joins the run that is under way, or begins the next.
#[tactic(auto, unfolding(crate::specs::Overlap::runs_from, rules::specs::Zones::runs, rules::specs::Zones::cut))]
fn take_member(run: Option<Zone>, h: u16, index: u16, span: Span) -> Taken
    requires { members_in run < 65535 }
    ensures members { result.run.members ≤ members_in run + 1 }
    ensures takes { Takes h run (record { index = index; span = span }) result }
{
    let Some(run) = run else {
        return Taken {
            run: begin(h, index, span),
            closed: None,
        };
    };
    if joins(run, span) {
        return Taken {
            run: join(run, span),
            closed: None,
        };
    }
    Taken {
        run: begin(run.sup_idx, index, span),
        closed: Some(run),
    }
}

// ---- owners

// The range of a record that opposes an owner of this direction.
#[tactic(auto, unfolding(crate::specs::Overlap::span_of))]
fn opposing(member: &Big, direction: u8) -> Option<Span>
    ensures { option_of result ≡ span_of direction member.now }
{
    let Range::Found(span) = member.range else {
        return None;
    };
    if member.direction != direction {
        Some(span)
    } else {
        None
    }
}

// One zone more, where there is room.
#[tactic(auto, unfolding(crate::specs::Overlap::capped, rules::specs::Answer::answered, rules::specs::Refusals::refuse))]
fn put(zone: Zone, zones: &mut Rows<Zone, 256>) -> Result<(), Refusal>
    ensures { answer_of (λ u. rows_in zones.new) result ≡ capped (rows_in zones.old ++ zone ∷ []) }
{
    if zones.count == 256 {
        return Err(Refusal::Zones);
    }
    zones.push(zone);
    Ok(())
}

// The zones of owner h behind those that are there. An owner whose last record is not there is skipped.
fn owner_zones(
    h: u16,
    owner: Triple,
    members: &[Big],
    zones: &mut Rows<Zone, 256>,
) -> Result<(), Refusal>
    requires { length members.now ≤ 256 }
    ensures { answer_of (λ u. rows_in zones.new) result ≡ capped (rows_in zones.old ++ zones_in members.now h owner) }
{
    let Some(own) = members.get(owner.first as usize..owner.last as usize + 1) else {
        return Ok(());
    };
    let mut run = None;
    for (i, member) in own.iter().enumerate() {
        let Some(span) = opposing(member, owner.direction) else {
            continue;
        };
        let taken = take_member(run, h, owner.first + i as u16, span);
        if let Some(zone) = taken.closed {
            put(zone, zones)?;
        }
        run = Some(taken.run);
    }
    match run {
        Some(zone) => put(zone, zones),
        None => Ok(()),
    }
}

// The zones of these owners over the records of a level.
pub fn overlap(
    owners: &[Triple],
    members: &[Big],
    zones: &mut Rows<Zone, 256>,
) -> Result<(), Refusal>
    requires { (length owners.now ≤ 256) × (length members.now ≤ 256) }
    ensures { Overlaps owners.now members.now (answer_of (λ u. rows_in zones.new) result) }
{
    zones.count = 0;
    for (h, owner) in owners.iter().enumerate() {
        owner_zones(h as u16, *owner, members, zones)?;
    }
    Ok(())
}

// ---- what a call on a chart begins with

// The bigs, the superiors and the overlap zones of a chart.
#[derive(Clone, Copy)]
pub struct Tables {
    pub bigs: Rows<Big, 256>,
    pub superiors: Rows<Superior, 256>,
    pub zones: Rows<Zone, 256>,
}

impl Tables {
    // Those of no chart yet.
    pub fn new() -> Tables
        ensures { (rows_in result.bigs ≡ []) × (rows_in result.superiors ≡ []) × (rows_in result.zones ≡ []) }
    {
        Tables {
            bigs: Rows::new(NO_BIG),
            superiors: Rows::new(NO_SUPERIOR),
            zones: Rows::new(NO_ZONE),
        }
    }
}

// 21, then the call's own refusal, then 11; and the tables of the chart, each lent by itself: a call that keeps them in a whole Tables fills and
// copies all of it once more.
pub fn fill_tables(
    chart: &Chart,
    own: Result<(), Refusal>,
    bigs: &mut Rows<Big, 256>,
    superiors: &mut Rows<Superior, 256>,
    zones: &mut Rows<Zone, 256>,
) -> Result<(), Refusal>
    ensures number { number_in result ≡ call_number chart.now (number_in own) }
    ensures tables { OnOk result (Filled (levels_of chart.now) (rows_in bigs.new) (rows_in superiors.new) (rows_in zones.new)) }
{
    tables::bigs_of(chart, bigs)?;
    own?;
    tables::superiors_of(chart, superiors);
    overlap(chart.superiors(), bigs.listed(), zones)
}

// The same with the three tables in one place.
pub fn tables_of(
    chart: &Chart,
    own: Result<(), Refusal>,
    tables: &mut Tables,
) -> Result<(), Refusal>
    ensures number { number_in result ≡ call_number chart.now (number_in own) }
    ensures tables { OnOk result (Tabled (levels_of chart.now) tables.new) }
{
    fill_tables(
        chart,
        own,
        &mut tables.bigs,
        &mut tables.superiors,
        &mut tables.zones,
    )
}

// The same by a call's own number, which may be any: the number that refuses the call, and 0 where the tables are those of the chart.
#[tactic(auto, unfolding(crate::specs::Tables::call_number))]
pub fn tables_by_number(chart: &Chart, own: u8, tables: &mut Tables) -> u8
    ensures number { result ≡ call_number chart.now own }
    ensures tables { result ≡ 0 → Tabled (levels_of chart.now) tables.new }
{
    if own != 0 {
        return if levels::bad_chart(chart) { 21 } else { own };
    }
    match tables_of(chart, Ok(()), tables) {
        Ok(()) => 0,
        Err(refusal) => refusal.number(),
    }
}

// ---- the zone call

// The overlap zones of a chart: 21, then 11 where there are more than 256.
pub fn detect_bigseg_zhongshus_by_overlap(chart: &Chart) -> Result<Rows<Zone, 256>, Refusal>
    ensures { rows_answer result ≡ zones_call chart.now }
{
    let mut bigs = Rows::new(NO_BIG);
    tables::bigs_of(chart, &mut bigs)?;
    let mut zones = Rows::new(NO_ZONE);
    overlap(chart.superiors(), bigs.listed(), &mut zones)?;
    Ok(zones)
}
