// Labels of zones and their names, as bytes of UTF-8.

#![tactic(auto)]

ghost use Rattle.std.specs.Prelude.{◌≡◌, ◌+◌, ◌≤◌, ◌<◌, ◌∷◌, ◌++◌, List, [], map, length, cond, eqb, count_by};
ghost use Rattle.std.proofs.Math.Option.{none};
ghost use Rattle.chart.specs.Table.{option_of};
ghost use Rattle.rows.specs.Rows.{rows_in};
ghost use Rattle.rules.specs.Lists.{collect};
ghost use Rattle.rules.specs.Records.{Levels};
ghost use Rattle.rules.specs.Answer.{answer_of};
ghost use Rattle.rules.specs.Calls.{labels_call};
ghost use Rattle.rules.specs.Labels.{letter, col_name, name_of, labels_from};
ghost use Rattle.tables.specs.Tables.{bigs_of};
ghost use Rattle.labels.specs.Bytes.{label_bytes, Extends};
ghost use Rattle.labels.specs.Touching.{bars_in, touch};
ghost use Rattle.labels.specs.Steps.{named_in, next_name, mark, name_bytes};

use chart::{Chart, Label, NO_ZONE, Range, Refusal, Zone};
use rows::Rows;
use tables::{Big, NO_BIG, NO_SUPERIOR};

const NO_LABEL: Label = Label {
    bytes: [0; 16],
    len: 0,
};

// A label with more bytes behind its own.
fn with_bytes(label: Label, more: &[u8]) -> Label
    requires { label.len + length more.now ≤ 16 }
    ensures { Extends label more.now result }
{
    let at = label.len as usize;
    let mut next = label;
    next.bytes[at..at + more.len()].copy_from_slice(more);
    next.len += more.len() as u8;
    next
}

// ---- names

// Letter n mod 26.
fn letter_of(n: u64) -> u8
    ensures { result ≡ letter n }
{
    65 + (n % 26) as u8
}

// A label with name n behind it: at most 14 letters.
fn with_name(label: Label, n: u64) -> Label
    requires { label.len ≤ 2 }
    ensures { Extends label (col_name n) result }
{
    let front = if n < 26 {
        label
    } else {
        with_name(label, n / 26 - 1)
    };
    with_bytes(front, &[letter_of(n)])
}

// Name n: A to Z, AA, AB and so on. (col_name)
pub fn col_name(n: u64) -> Label
    ensures { label_bytes result ≡ col_name n }
{
    with_name(NO_LABEL, n)
}

// The zone that was named last, and the next name of its superior.
#[derive(Clone, Copy)]
struct Named {
    zone: Zone,
    next: u16,
}

// The name of a zone, if it gets one: the first of a superior does, and one that lies wholly above or below the last named one.
#[tactic(auto, unfolding(rules::specs::Labels::name_of))]
fn name_of(named: Option<Named>, zone: Zone) -> Option<u16>
    ensures { option_of result ≡ name_of (named_in named) zone }
{
    let Some(last) = named else {
        return Some(0);
    };
    if last.zone.sup_idx != zone.sup_idx {
        return Some(0);
    }
    if zone.dd > last.zone.gg || zone.gg < last.zone.dd {
        return Some(last.next);
    }
    None
}

// ---- zones that one big touches

// The bars of a range.
#[derive(Clone, Copy)]
struct Bars {
    start: u16,
    end: u16,
}

const NO_BARS: Bars = Bars { start: 0, end: 0 };

// The bars of a range, where it is not missing.
fn bars_in(range: Range) -> Option<Bars>
    ensures { option_of result ≡ bars_in range }
{
    let Range::Found(s) = range else {
        return None;
    };
    Some(Bars {
        start: s.start_bar,
        end: s.end_bar,
    })
}

// The bars of the ranges that are there. They stand close together, since each zone looks at all.
fn bars_of(bigs: &[Big]) -> Rows<Bars, 256>
    requires { length bigs.now ≤ 256 }
    ensures { rows_in result ≡ collect (λ b. bars_in b.range) bigs.now }
{
    let mut all = Rows::new(NO_BARS);
    for big in bigs {
        let Some(bars) = bars_in(big.range) else {
            continue;
        };
        all.push(bars);
    }
    all
}

// 1 where a range's bars touch the zone's, else 0. Without a branch, so that several are taken at a time.
fn touches(bars: Bars, zone: Zone) -> u16
    ensures { result ≡ cond (touch zone bars) 1 0 }
{
    ((bars.start <= zone.end_bar) & (zone.start_bar <= bars.end)) as u16
}

// Whether exactly one of these touches the zone.
fn lone(all: &[Bars], zone: Zone) -> bool
    requires { length all.now ≤ 256 }
    ensures { result ≡ eqb (count_by (touch zone) all.now) 1 }
{
    let touching: u16 = all.iter().map(|bars| touches(*bars, zone)).sum();
    touching == 1
}

// ---- labels

// 扩 in UTF-8.
const EXTENSION: [u8; 3] = [0xE6, 0x89, 0xA9];

// The label of a zone: L where exactly one big touches it; and its name, or that it is an extension. (detect_bigseg_trend_zhongshus)
fn label_of(alone: bool, name: Option<u16>) -> Label
    ensures { label_bytes result ≡ mark alone ++ name_bytes (option_of name) }
{
    let mark = if alone {
        with_bytes(NO_LABEL, b"L")
    } else {
        NO_LABEL
    };
    match name {
        Some(n) => with_name(mark, n as u64),
        None => with_bytes(mark, &EXTENSION),
    }
}

// The labels of zones, in order, over the bars of the bigs' ranges.
fn labels_of(zones: &[Zone], bars: &[Bars]) -> Rows<Label, 256>
    requires zones { length zones.now ≤ 256 }
    requires bars { length bars.now ≤ 256 }
    ensures { (c : Levels) → bars.now ≡ collect (λ b. bars_in b.range) (bigs_of c)
        → map label_bytes (rows_in result) ≡ labels_from c none zones.now }
{
    let mut labels = Rows::new(NO_LABEL);
    let mut named = None;
    for zone in zones {
        let name = name_of(named, *zone);
        labels.push(label_of(lone(bars, *zone), name));
        if let Some(n) = name {
            named = Some(Named {
                zone: *zone,
                next: n + 1,
            });
        }
    }
    labels
}

// The labels of a chart's overlap zones: 21, then 11 where there are more than 256 zones.
#[tactic(auto, using(crate::proofs::Call::labels_refused))]
pub fn detect_bigseg_trend_zhongshus(chart: &Chart) -> Result<Rows<Label, 256>, Refusal>
    ensures { answer_of (λ r. map label_bytes (rows_in r)) result ≡ labels_call chart.now }
{
    let mut bigs = Rows::new(NO_BIG);
    let mut superiors = Rows::new(NO_SUPERIOR);
    let mut zones = Rows::new(NO_ZONE);
    zones::fill_tables(chart, Ok(()), &mut bigs, &mut superiors, &mut zones)?;
    let bars = bars_of(bigs.listed());
    Ok(labels_of(zones.listed(), bars.listed()))
}
