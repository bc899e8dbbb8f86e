// The live chart: built call by call, it keeps its overlap zones and counts the accepted calls.

#![tactic(auto)]

ghost use Rattle.std.specs.Prelude.{◌≡◌, ◌≤◌, map, length};
ghost use Rattle.chart.specs.Numbers.{number_in};
ghost use Rattle.rows.specs.Rows.{rows_in};
ghost use Rattle.rules.specs.Records.{levels_of};
ghost use Rattle.rules.specs.Refusals.{refuse, bad_live};
ghost use Rattle.rules.specs.Machine.{add_stroke, add_segment, add_big, add_superior, lengthen, withdraw};
ghost use Rattle.rules.specs.Machine.{derive_bigs, derive_superiors, call_of, as_triple, refusal};
ghost use Rattle.live.specs.Did.{data_of, Nothing, Did};
ghost use Rattle.live.specs.Steps.{Good, Accepts, Steps, NextLive};

use chart::{Call, Chart, Class, NO_STROKE, NO_TRIPLE, NO_ZONE, Refusal, Stroke, Triple, Zone};
use rows::Rows;

// A chart that calls build. It keeps the first `zone_count` zones, and counts accepted calls; what lies behind a count is not part of it.
#[derive(Clone, Copy)]
pub struct Live {
    pub chart: Chart,
    pub zones: [Zone; 256],
    pub zone_count: u16,
    pub count: u32,
}

// A chart with nothing in it.
pub fn new() -> Live
    ensures { Nothing result }
{
    let chart = Chart {
        strokes: [NO_STROKE; 512],
        stroke_count: 0,
        segments: [NO_TRIPLE; 256],
        segment_count: 0,
        bigs: [NO_TRIPLE; 256],
        big_count: 0,
        superiors: [NO_TRIPLE; 256],
        superior_count: 0,
    };
    Live {
        chart,
        zones: [NO_ZONE; 256],
        zone_count: 0,
        count: 0,
    }
}

// ---- a call's own refusal

// Why a call is refused on a chart that 21 passes, if it is.
#[tactic(auto, unfolding(rules::specs::Machine::refusal, rules::specs::Records::levels_of))]
fn refusal_of(chart: &Chart, call: Call) -> Result<(), Refusal>
    requires { Good chart.now }
    ensures { number_in result ≡ refusal (levels_of chart.now) (call_of call) }
{
    match call {
        Call::Stroke(s) => calls::stroke_refusal(chart.strokes(), s),
        Call::Segment(t) => calls::triple_refusal(chart.segments(), chart.strokes().len(), t),
        Call::Big(t) => calls::triple_refusal(chart.bigs(), chart.segments().len(), t),
        Call::Superior(t) => calls::triple_refusal(chart.superiors(), chart.bigs().len(), t),
        Call::Lengthen(last) => {
            calls::lengthen_refusal(chart.superiors(), chart.bigs().len(), last)
        }
        Call::Withdraw(level) => calls::withdraw_refusal(chart, level),
        Call::DeriveBigs(byte) => calls::derive_refusal(chart.bigs(), byte),
        Call::DeriveSuperiors(byte) => calls::derive_refusal(chart.superiors(), byte),
    }
}

// ---- the chart that each call makes of one that accepts it

// One record more: a stroke, a segment, a big, a superior.
fn with_stroke(mut chart: Chart, s: Stroke) -> Chart
    requires { Accepts chart (add_stroke s) }
    ensures { Steps chart (add_stroke s) result }
{
    chart.strokes[chart.stroke_count as usize] = s;
    chart.stroke_count += 1;
    chart
}

fn with_segment(mut chart: Chart, t: Triple) -> Chart
    requires { Accepts chart (add_segment t) }
    ensures { Steps chart (add_segment t) result }
{
    chart.segments[chart.segment_count as usize] = t;
    chart.segment_count += 1;
    chart
}

fn with_big(mut chart: Chart, t: Triple) -> Chart
    requires { Accepts chart (add_big t) }
    ensures { Steps chart (add_big t) result }
{
    chart.bigs[chart.big_count as usize] = t;
    chart.big_count += 1;
    chart
}

fn with_superior(mut chart: Chart, t: Triple) -> Chart
    requires { Accepts chart (add_superior t) }
    ensures { Steps chart (add_superior t) result }
{
    chart.superiors[chart.superior_count as usize] = t;
    chart.superior_count += 1;
    chart
}

// The last superior with another last.
fn lengthened(mut chart: Chart, last: u16) -> Chart
    requires { Accepts chart (lengthen last) }
    ensures { Steps chart (lengthen last) result }
{
    chart.superiors[chart.superior_count as usize - 1].last = last;
    chart
}

// The last record of a level dropped.
fn withdrawn(mut chart: Chart, level: u8) -> Chart
    requires { Accepts chart (withdraw level) }
    ensures { Steps chart (withdraw level) result }
{
    match level {
        0 => chart.stroke_count -= 1,
        1 => chart.segment_count -= 1,
        2 => chart.big_count -= 1,
        _ => chart.superior_count -= 1,
    }
    chart
}

// A class as a record of the level that is derived.
#[tactic(auto, unfolding(rules::specs::Machine::as_triple))]
fn triple_of(class: &Class) -> Triple
    ensures { result ≡ as_triple class.now }
{
    Triple {
        direction: class.direction,
        first: class.first,
        last: class.last,
    }
}

// Classes as records of a level.
fn triples_of(classes: &[Class]) -> Rows<Triple, 256>
    requires { length classes.now ≤ 256 }
    ensures { rows_in result ≡ map as_triple classes.now }
{
    let mut triples = Rows::new(NO_TRIPLE);
    for class in classes {
        triples.push(triple_of(class));
    }
    triples
}

// The classes of the segments as bigs.
fn with_derived_bigs(mut chart: Chart, byte: u8) -> Chart
    requires { Accepts chart (derive_bigs byte) }
    ensures { Steps chart (derive_bigs byte) result }
{
    let Ok(found) = classes::classify_big_segments(&chart, byte) else {
        unreachable!()
    };
    let triples = triples_of(found.listed());
    let rows = triples.rows;
    chart.bigs = rows;
    chart.big_count = triples.count as u16;
    chart
}

// The classes of the bigs as superiors.
fn with_derived_superiors(mut chart: Chart, byte: u8) -> Chart
    requires { Accepts chart (derive_superiors byte) }
    ensures { Steps chart (derive_superiors byte) result }
{
    let Ok(found) = classes::classify_sup_segments(&chart, byte) else {
        unreachable!()
    };
    let triples = triples_of(found.listed());
    let rows = triples.rows;
    chart.superiors = rows;
    chart.superior_count = triples.count as u16;
    chart
}

// Of any call.
fn next_chart(chart: Chart, call: Call) -> Chart
    requires { Accepts chart (call_of call) }
    ensures { Steps chart (call_of call) result }
{
    match call {
        Call::Stroke(s) => with_stroke(chart, s),
        Call::Segment(t) => with_segment(chart, t),
        Call::Big(t) => with_big(chart, t),
        Call::Superior(t) => with_superior(chart, t),
        Call::Lengthen(last) => lengthened(chart, last),
        Call::Withdraw(level) => withdrawn(chart, level),
        Call::DeriveBigs(byte) => with_derived_bigs(chart, byte),
        Call::DeriveSuperiors(byte) => with_derived_superiors(chart, byte),
    }
}

// ---- the calls

// What a call hands back: the chart, and the number of its answer, 0 where it is accepted.
#[derive(Clone, Copy)]
pub struct Answered {
    pub chart: Live,
    pub number: u8,
}

impl Live {
    // 21, which comes before every number of a call's own.
    fn checked(&self) -> Result<(), Refusal>
        ensures { number_in result ≡ refuse (bad_live (data_of self.now)) 21 0 }
    {
        let Some(zones) = self.zones.get(..self.zone_count as usize) else {
            return Err(Refusal::Chart);
        };
        if kept::bad_live(&self.chart, zones) {
            return Err(Refusal::Chart);
        }
        Ok(())
    }

    // Any call, made in place: the new records, their zones afresh, one more in the count. A refused one leaves the very chart. Behind 21 no
    // zones are refused.
    fn step(&mut self, call: Call) -> Result<(), Refusal>
        ensures { NextLive self.old (call_of call) result self.new }
    {
        self.checked()?;
        refusal_of(&self.chart, call)?;
        let chart = next_chart(self.chart, call);
        let found = zones::detect_bigseg_zhongshus_by_overlap(&chart)?;
        let zones = found.rows;
        self.chart = chart;
        self.zones = zones;
        self.zone_count = found.count as u16;
        self.count = self.count.saturating_add(1);
        Ok(())
    }

    // The number of the answer to a call that is made in place.
    fn made(&mut self, call: Call) -> u8
        ensures { Did self.old (call_of call) result self.new }
    {
        match self.step(call) {
            Ok(()) => 0,
            Err(refusal) => refusal.number(),
        }
    }

    // Any call.
    pub fn call(mut self, call: Call) -> Answered
        ensures { Did self (call_of call) result.number result.chart }
    {
        let number = self.made(call);
        Answered {
            chart: self,
            number,
        }
    }

    // Adds a stroke: 21, then 3, 2, 1, 4, 14.
    pub fn add_stroke(mut self, s: Stroke) -> Answered
        ensures { Did self (add_stroke s) result.number result.chart }
    {
        let number = self.made(Call::Stroke(s));
        Answered {
            chart: self,
            number,
        }
    }

    // Adds a segment: 21, then 3, 2, 4, 5.
    pub fn add_segment(mut self, t: Triple) -> Answered
        ensures { Did self (add_segment t) result.number result.chart }
    {
        let number = self.made(Call::Segment(t));
        Answered {
            chart: self,
            number,
        }
    }

    // Adds a big segment: 21, then 3, 2, 4, 5.
    pub fn add_big(mut self, t: Triple) -> Answered
        ensures { Did self (add_big t) result.number result.chart }
    {
        let number = self.made(Call::Big(t));
        Answered {
            chart: self,
            number,
        }
    }

    // Adds a superior: 21, then 3, 2, 4, 5.
    pub fn add_superior(mut self, t: Triple) -> Answered
        ensures { Did self (add_superior t) result.number result.chart }
    {
        let number = self.made(Call::Superior(t));
        Answered {
            chart: self,
            number,
        }
    }

    // Sets the last superior's last: 21, then 7, 4, 5.
    pub fn lengthen(mut self, last: u16) -> Answered
        ensures { Did self (lengthen last) result.number result.chart }
    {
        let number = self.made(Call::Lengthen(last));
        Answered {
            chart: self,
            number,
        }
    }

    // Drops the last record of a level, 0 strokes to 3 superiors: 21, then 2, 7, 6.
    pub fn withdraw(mut self, level: u8) -> Answered
        ensures { Did self (withdraw level) result.number result.chart }
    {
        let number = self.made(Call::Withdraw(level));
        Answered {
            chart: self,
            number,
        }
    }

    // Appends the classes of the segments to the bigs, while there is none: 21, then 2, 6.
    pub fn derive_bigs(mut self, byte: u8) -> Answered
        ensures { Did self (derive_bigs byte) result.number result.chart }
    {
        let number = self.made(Call::DeriveBigs(byte));
        Answered {
            chart: self,
            number,
        }
    }

    // Appends the classes of the bigs to the superiors, while there is none: 21, then 2, 6.
    pub fn derive_superiors(mut self, byte: u8) -> Answered
        ensures { Did self (derive_superiors byte) result.number result.chart }
    {
        let number = self.made(Call::DeriveSuperiors(byte));
        Answered {
            chart: self,
            number,
        }
    }
}
