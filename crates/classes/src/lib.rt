// Classes of segments and of bigs: one rule over items, for two levels.

#![tactic(auto)]

ghost use Rattle.std.specs.Prelude.{◌≡◌, cond, ◌&&◌, ◌||◌, ◌<◌, ◌≤◌, not, length, eqb, leb, List};
ghost use Rattle.std.proofs.Math.Option.{Option, none};
ghost use Rattle.chart.specs.Table.{option_of};
ghost use Rattle.rows.specs.Rows.{rows_in};
ghost use Rattle.rules.specs.Answer.{answer_of, rows_answer, answered};
ghost use Rattle.rules.specs.Lists.{any, is_none, collect};
ghost use Rattle.rules.specs.Refusals.{refuse, above_one, lacks};
ghost use Rattle.rules.specs.Calls.{segment_classes_call, big_classes_call};
ghost use Rattle.rules.specs.Records.{is_up, levels_of};
ghost use Rattle.rules.specs.Classes.{segment_item, big_item, beyond, at_or_beyond, at_or_short, case2, case3, ends_before, wanted, tried};
ghost use Rattle.rules.specs.Classes.{walk, extend, extend_all, classes};
ghost use Rattle.rules.specs.Classes as rule;
ghost use Rattle.classes.specs.Items.{item_of, items_in, item_read, class_in, next_in, Kept};

use chart::{Chart, Class, Refusal, Triple};
use rows::Rows;

// A segment or a big, by its direction and the prices of its first and last stroke.
#[derive(Clone, Copy)]
pub struct Item {
    pub direction: u8,
    pub start: f64,
    pub end: f64,
}

// ---- items of a level

const NO_ITEM: Item = Item {
    direction: 0,
    start: 0.0,
    end: 0.0,
};

// The item of a segment, where its strokes are there.
#[tactic(auto, unfolding(rules::specs::Classes::segment_item, rules::specs::Classes::item, rules::specs::Records::levels_of))]
fn segment_item(chart: &Chart, t: Triple) -> Option<Item>
    ensures { item_read result ≡ segment_item (levels_of chart.now) t }
{
    let s = levels::record_at(chart.strokes(), t.first)?;
    let e = levels::record_at(chart.strokes(), t.last)?;
    Some(Item {
        direction: t.direction,
        start: s.start_price,
        end: e.end_price,
    })
}

// The item of a big: that from the first stroke of its first segment to the last stroke of its last.
fn big_item(chart: &Chart, t: Triple) -> Option<Item>
    ensures { item_read result ≡ big_item (levels_of chart.now) t }
{
    let a = levels::record_at(chart.segments(), t.first)?;
    let z = levels::record_at(chart.segments(), t.last)?;
    let over_strokes = Triple {
        direction: t.direction,
        first: a.first,
        last: z.last,
    };
    segment_item(chart, over_strokes)
}

// The items of records, unless one of them has none.
fn items_of<F: Fn(Triple) -> Option<Item>>(
    records: &[Triple],
    item: F,
) -> Result<Rows<Item, 256>, Refusal>
    requires few { length records.now ≤ 256 }
    requires callable { F.IsAlwaysCallable item }
    ensures { (f : Triple → Option rule.Item) → ((t : Triple) (x : _) → F.post item t x → item_read x ≡ f t)
        → answer_of (λ r. items_in (rows_in r)) result ≡ answered (refuse (any (λ t. is_none (f t)) records.now) 10 0) (collect f records.now) }
{
    let mut items = Rows::new(NO_ITEM);
    for t in records {
        items.push(item(*t).ok_or(Refusal::Lacking)?);
    }
    Ok(items)
}

// ---- comparisons in a direction: up as they stand, down mirrored

// One price for up, another for down: so a comparison is one for both directions. With two and a branch, a scan made both for each item.
fn by_direction(d: u8, up: f64, down: f64) -> f64
    ensures { result ≡ cond (is_up d) up down }
{
    if d == 1 { up } else { down }
}

// a > b
#[tactic(auto, unfolding(rules::specs::Classes::beyond))]
pub fn beyond(d: u8, a: f64, b: f64) -> bool
    ensures { result ≡ beyond d a b }
{
    by_direction(d, b, a) < by_direction(d, a, b)
}

// a ≥ b
#[tactic(auto, unfolding(rules::specs::Classes::at_or_beyond))]
fn at_or_beyond(d: u8, a: f64, b: f64) -> bool
    ensures { result ≡ at_or_beyond d a b }
{
    by_direction(d, b, a) <= by_direction(d, a, b)
}

// a ≤ b
#[tactic(auto, unfolding(rules::specs::Classes::at_or_beyond, rules::specs::Classes::at_or_short))]
fn at_or_short(d: u8, a: f64, b: f64) -> bool
    ensures { result ≡ at_or_short d a b }
{
    at_or_beyond(d, b, a)
}

// ---- cases 2 and 3

// Case 2 of item i takes the later items of its direction in order, `top` being the end of the one before: one that starts at or short of
// its start fails it, one that ends beyond `top` is the end of the class.
fn case2(items: &[Item], i: usize) -> Option<u16>
    requires here { i < length items.now }
    requires few { length items.now ≤ 256 }
    ensures { option_of result ≡ case2 (items_in items.now) i }
{
    let x = items[i];
    let mut top = x.end;
    for (j, y) in items[i + 1..].iter().enumerate() {
        if y.direction != x.direction {
            continue;
        }
        if at_or_short(x.direction, y.start, x.start) {
            return None;
        }
        if beyond(x.direction, y.end, top) {
            return Some((i + 1 + j) as u16);
        }
        top = y.end;
    }
    None
}

// The last class of the walk, and of its first item the start price and the end by case 2.
#[derive(Clone, Copy)]
struct Held {
    class: Class,
    start: f64,
    second: Option<u16>,
}

// Whether case 3 holds of item x, its byte on or off.
fn case3(last: Option<Held>, x: Item) -> bool
    ensures { (items : List rule.Item) → Kept items last → result ≡ case3 items (class_in last) (item_of x) }
{
    last.is_some_and(|k| {
        k.class.direction != x.direction && beyond(x.direction, x.end, k.start)
    })
}

// Whether the first item of the last class has a case 2 that ends at i - 1.
fn ends_before(last: Option<Held>, i: u16) -> bool
    ensures { (items : List rule.Item) → Kept items last → result ≡ ends_before items (class_in last) i }
{
    last.and_then(|k| k.second)
        .is_some_and(|e| e as u32 + 1 == i as u32)
}

// ---- the walk

// Whether the walk tries item i, which is x: it lies behind the last class, and has the other direction.
fn wanted(last: Option<Held>, i: usize, x: Item) -> bool
    ensures { result ≡ (leb (next_in last) i && wanted (class_in last) (item_of x)) }
{
    last.is_none_or(|k| (k.class.last as usize) < i && k.class.direction != x.direction)
}

// The class that item i, which is x, begins after the last class: case 3, when on, ends it at i; else case 2, which gave `second`. It is
// adjacent when case 3 holds, byte on or off, and the last class's first item has a case 2 that ends at i - 1.
fn tried(on: bool, last: Option<Held>, i: u16, x: Item, second: Option<u16>) -> Option<Class>
    ensures { (items : List rule.Item) → Kept items last → option_of second ≡ case2 items i
        → option_of result ≡ tried on items (class_in last) i (item_of x) }
{
    let third = case3(last, x);
    let before = ends_before(last, i);
    let adjacent = third & before;
    let by_case3 = on & third;
    let end = if by_case3 { i } else { second? };
    Some(Class {
        first: i,
        last: end,
        direction: x.direction,
        by_case3,
        extended: false,
        base_adjacent: adjacent,
    })
}

const NO_CLASS: Class = Class {
    first: 0,
    last: 0,
    direction: 0,
    by_case3: false,
    extended: false,
    base_adjacent: false,
};

// The walk over the items, with case 3 on or off.
fn walk(items: &[Item], on: bool) -> Rows<Class, 256>
    requires few { length items.now ≤ 256 }
    ensures { rows_in result ≡ walk on (items_in items.now) none 0 0 (items_in items.now) }
{
    let mut classes = Rows::new(NO_CLASS);
    let mut last: Option<Held> = None;
    for (i, x) in items.iter().enumerate() {
        if !wanted(last, i, *x) {
            continue;
        }
        let second = case2(items, i);
        let Some(class) = tried(on, last, i as u16, *x, second) else {
            continue;
        };
        classes.push(class);
        last = Some(Held {
            class,
            start: x.start,
            second,
        });
    }
    classes
}

// ---- extension

// A class extended over the items behind its end and before item `stop`: each of its direction that ends at or beyond the present end
// becomes the end. Its last item is always there, and `stop` among the items; both are tested here, so that no class has to be known.
fn extend(items: &[Item], stop: usize, k: Class) -> Class
    requires few { length items.now ≤ 256 }
    ensures { result ≡ extend (items_in items.now) stop k }
{
    let last = k.last as usize;
    let Some(later) = items.get(last + 1..stop.min(items.len())) else {
        return k;
    };
    let mut longer = k;
    let mut price = items[last].end;
    for (j, y) in later.iter().enumerate() {
        if y.direction == longer.direction && at_or_beyond(longer.direction, y.end, price) {
            longer = Class {
                last: (last + 1 + j) as u16,
                extended: true,
                ..longer
            };
            price = y.end;
        }
    }
    longer
}

// Each class extended up to the next one's start, the last over all that follow.
fn extend_all(items: &[Item], found: &[Class]) -> Rows<Class, 256>
    requires few { length items.now ≤ 256 }
    requires fit { length found.now ≤ 256 }
    ensures { rows_in result ≡ extend_all (items_in items.now) found.now }
{
    let mut all = Rows::new(NO_CLASS);
    for (c, k) in found.iter().enumerate() {
        let stop = found.get(c + 1).map_or(items.len(), |n| n.first as usize);
        all.push(extend(items, stop, *k));
    }
    all
}

// ---- one rule, two levels

// The classes of records, `item` giving the item of one: 2; 10 from two records on; under two there are no classes.
fn classes_of<F: Fn(Triple) -> Option<Item>>(
    records: &[Triple],
    case3: u8,
    item: F,
) -> Result<Rows<Class, 256>, Refusal>
    requires few { length records.now ≤ 256 }
    requires callable { F.IsAlwaysCallable item }
    ensures { (f : Triple → Option rule.Item) → ((t : Triple) (x : _) → F.post item t x → item_read x ≡ f t)
        → rows_answer result ≡ answered (refuse (above_one case3) 2 (refuse (lacks f records.now) 10 0)) (classes (eqb case3 1) (collect f records.now)) }
{
    if 1 < case3 {
        return Err(Refusal::Above);
    }
    if records.len() < 2 {
        return Ok(Rows::new(NO_CLASS));
    }
    let rows = items_of(records, item)?;
    let items = rows.listed();
    let found = walk(items, case3 == 1);
    Ok(extend_all(items, found.listed()))
}

// The classes of segments, with the case-3 byte: 21, 2, 10.
#[tactic(auto, unfolding(rules::specs::Calls::segment_classes_call, rules::specs::Calls::on_chart))]
pub fn classify_big_segments(chart: &Chart, case3: u8) -> Result<Rows<Class, 256>, Refusal>
    ensures { rows_answer result ≡ segment_classes_call chart.now case3 }
{
    if levels::bad_chart(chart) {
        return Err(Refusal::Chart);
    }
    classes_of(chart.segments(), case3, |t| segment_item(chart, t))
}

// The classes of bigs.
#[tactic(auto, unfolding(rules::specs::Calls::big_classes_call, rules::specs::Calls::on_chart))]
pub fn classify_sup_segments(chart: &Chart, case3: u8) -> Result<Rows<Class, 256>, Refusal>
    ensures { rows_answer result ≡ big_classes_call chart.now case3 }
{
    if levels::bad_chart(chart) {
        return Err(Refusal::Chart);
    }
    classes_of(chart.bigs(), case3, |t| big_item(chart, t))
}
