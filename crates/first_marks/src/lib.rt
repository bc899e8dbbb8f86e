// First marks: those of neighbouring classes of bigs, at the end of the second, sorted by bar.

#![tactic(auto)]

ghost use Rattle.std.specs.Prelude.{◌<◌, ◌≤◌, ◌≡◌, true, false, length, leb};
ghost use Rattle.std.proofs.Math.ListN.{get_elem?};
ghost use mathlib.Core.List.{[], foldl};
ghost use Rattle.std.specs.List.{position};
ghost use Rattle.chart.specs.Table.{option_of};
ghost use Rattle.rows.specs.Rows.{rows_in};
ghost use Rattle.rules.specs.Lists.{and_then};
ghost use Rattle.rules.specs.Answer.{rows_answer};
ghost use Rattle.rules.specs.Records.{levels_of};
ghost use Rattle.rules.specs.Ranges.{first_stroke};
ghost use Rattle.rules.specs.FirstMarks.{fitting, first_of, firsts_of, insert_first};
ghost use Rattle.rules.specs.Calls.{first_marks_call};

use chart::{Chart, Class, FirstMark, Refusal, Stroke};
use rows::Rows;

const NO_MARK: FirstMark = FirstMark {
    bar_index: 0,
    price: 0.0,
    is_buy: false,
};

// ---- neighbouring classes

// Whether neighbouring classes q and n fit: for a buy, q is up, by case 3, adjacent and not extended, and n is down and by case 2; for a
// sell, q is down and n up.
#[tactic(auto, unfolding(rules::specs::FirstMarks::fitting))]
fn fitting(buy: bool, q: Class, n: Class) -> bool
    ensures { result ≡ fitting buy q n }
{
    ((q.direction == 1) == buy)
        & q.by_case3
        & q.base_adjacent
        & !q.extended
        & !((n.direction == 1) == buy)
        & !n.by_case3
}

// The first stroke of the big with an index, where it is there.
#[tactic(auto, unfolding(rules::specs::Ranges::first_stroke, rules::specs::Records::levels_of))]
fn first_stroke(chart: &Chart, big: u16) -> Option<Stroke>
    ensures { option_of result ≡ and_then (get_elem? (levels_of chart.now).bigs big) (first_stroke (levels_of chart.now)) }
{
    let b = levels::record_at(chart.bigs(), big)?;
    let a = levels::record_at(chart.segments(), b.first)?;
    levels::record_at(chart.strokes(), a.first)
}

// The mark of neighbouring classes q and n of a side, where they fit and n ends beyond the start of q.
fn mark_of(chart: &Chart, buy: bool, q: Class, n: Class) -> Option<FirstMark>
    ensures { option_of result ≡ first_of (levels_of chart.now) buy q n }
{
    if !fitting(buy, q, n) {
        return None;
    }
    let start = first_stroke(chart, q.first)?;
    let last = levels::record_at(chart.bigs(), n.last)?;
    let end = levels::end_of(chart, last)?;
    if !classes::beyond(q.direction, end.price, start.start_price) {
        return None;
    }
    Some(FirstMark {
        bar_index: end.bar,
        price: end.price,
        is_buy: buy,
    })
}

// ---- marks by bar

// The place of the first mark that does not lie before a bar.
fn place_of(marks: &[FirstMark], bar: u16) -> Option<usize>
    ensures { result ≡ position (λ m. leb bar m.bar_index) marks.now }
{
    marks.iter().position(|m| bar <= m.bar_index)
}

// A mark put in by its bar; the first mark of a bar is kept.
fn insert(marks: &mut Rows<FirstMark, 256>, mark: FirstMark)
    requires room { marks.old.count < 256 }
    ensures { rows_in marks.new ≡ insert_first (rows_in marks.old) mark }
{
    let Some(at) = place_of(marks.listed(), mark.bar_index) else {
        marks.push(mark);
        return;
    };
    if marks.listed()[at].bar_index != mark.bar_index {
        marks.insert(at, mark);
    }
}

// The marks of a side over classes of bigs.
fn marks_of(chart: &Chart, classes: &[Class], buy: bool) -> Rows<FirstMark, 256>
    requires few { length classes.now ≤ 256 }
    ensures { rows_in result ≡ foldl insert_first [] (firsts_of (levels_of chart.now) buy classes.now) }
{
    let mut marks = Rows::new(NO_MARK);
    for pair in classes.windows(2) {
        let Some(mark) = mark_of(chart, buy, pair[0], pair[1]) else {
            continue;
        };
        insert(&mut marks, mark);
    }
    marks
}

// ---- the calls

// The first marks of a side, with the case-3 byte: refused as the classes of bigs are, with 21, 2 or 10.
fn first_markers(chart: &Chart, case3: u8, buy: bool) -> Result<Rows<FirstMark, 256>, Refusal>
    ensures { rows_answer result ≡ first_marks_call buy chart.now case3 }
{
    let classes = classes::classify_sup_segments(chart, case3)?;
    Ok(marks_of(chart, classes.listed(), buy))
}

// The first buys.
pub fn detect_bigseg_first_buy_markers(
    chart: &Chart,
    case3: u8,
) -> Result<Rows<FirstMark, 256>, Refusal>
    ensures { rows_answer result ≡ first_marks_call true chart.now case3 }
{
    first_markers(chart, case3, true)
}

// The first sells.
pub fn detect_bigseg_first_sell_markers(
    chart: &Chart,
    case3: u8,
) -> Result<Rows<FirstMark, 256>, Refusal>
    ensures { rows_answer result ≡ first_marks_call false chart.now case3 }
{
    first_markers(chart, case3, false)
}
