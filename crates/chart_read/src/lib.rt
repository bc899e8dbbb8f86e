// Reading a chart file: every byte string gets an answer.

#![tactic(auto)]

ghost use Rattle.std.specs.Prelude.{◌≡◌, ◌≤◌, ℕ, List, length, drop, false, Ok};
ghost use Rattle.chart.specs.Numbers.{number_in};
ghost use Rattle.rules.specs.Answer.{answer_of, answer_at};
ghost use Rattle.rules.specs.Refusals.{refuse, above_one, overfull};
ghost use Rattle.rules.specs.File.{kind_of, width, record_in, field_refusal, read_record, read_file};
ghost use Rattle.chart_read.specs.declared.Loaded.{Loaded};
ghost use Rattle.chart_read.specs.Heads.{kind_by, marked_by, record_by, full_by, content_of};

use chart::{Chart, Refusal, RefusedAt, Stroke, Triple};

// The chart of a file, and how many BR records were passed over.
#[derive(Clone, Copy)]
pub struct Loaded {
    pub chart: Chart,
    pub passed: usize,
}

// The marks ST, SR, SG, BG, SU and BR.
#[derive(Clone, Copy)]
enum Mark {
    Stroke,
    Rolled,
    Segment,
    Big,
    Superior,
    Bar,
}

// A record. A bar's bytes are not looked at.
#[derive(Clone, Copy)]
enum Record {
    Stroke(Stroke),
    Segment(Triple),
    Big(Triple),
    Superior(Triple),
    Bar,
}

impl Mark {
    // The mark that two bytes are.
    #[tactic(auto, unfolding(rules::specs::File::kind_of, rules::specs::File::is_mark, rules::specs::File::mark_of, rules::specs::Text::ascii))]
    fn of(a: u8, b: u8) -> Option<Mark>
        ensures { marked_by result ≡ kind_of a b }
    {
        match (a, b) {
            (b'S', b'T') => Some(Mark::Stroke),
            (b'S', b'R') => Some(Mark::Rolled),
            (b'S', b'G') => Some(Mark::Segment),
            (b'B', b'G') => Some(Mark::Big),
            (b'S', b'U') => Some(Mark::Superior),
            (b'B', b'R') => Some(Mark::Bar),
            _ => None,
        }
    }

    // How many bytes a record has behind its mark.
    #[tactic(auto, unfolding(rules::specs::File::width))]
    fn width(self) -> usize
        ensures { result ≡ width (kind_by self) }
    {
        match self {
            Mark::Stroke | Mark::Rolled => 21,
            Mark::Segment | Mark::Big | Mark::Superior => 5,
            Mark::Bar => 16,
        }
    }

    // Whether a chart has no place for one more: strokes have theirs together, rolled or not, and a bar takes none.
    #[tactic(auto, unfolding(crate::specs::Heads::full_by))]
    fn is_full(self, chart: &Chart) -> bool
        ensures { result ≡ full_by chart.now (kind_by self) }
    {
        match self {
            Mark::Stroke | Mark::Rolled => 512 <= chart.stroke_count,
            Mark::Segment => 256 <= chart.segment_count,
            Mark::Big => 256 <= chart.big_count,
            Mark::Superior => 256 <= chart.superior_count,
            Mark::Bar => false,
        }
    }

    // The record in the bytes behind the mark.
    #[tactic(auto, unfolding(rules::specs::File::width, rules::specs::File::record_in))]
    fn record_in(self, s: &[u8]) -> Record
        requires { width (kind_by self) ≤ length s.now }
        ensures { record_by s.now result ≡ record_in (kind_by self) s.now }
    {
        match self {
            Mark::Stroke => Record::Stroke(fields::stroke_in(s, 0)),
            Mark::Rolled => Record::Stroke(fields::stroke_in(s, 1)),
            Mark::Segment => Record::Segment(fields::triple_in(s)),
            Mark::Big => Record::Big(fields::triple_in(s)),
            Mark::Superior => Record::Superior(fields::triple_in(s)),
            Mark::Bar => Record::Bar,
        }
    }
}

// A direction above 1.
#[tactic(auto, unfolding(rules::specs::Refusals::above_one, rules::specs::Refusals::refuse))]
fn test_direction(direction: u8) -> Result<(), Refusal>
    ensures { number_in result ≡ refuse (above_one direction) 2 0 }
{
    if 1 < direction {
        return Err(Refusal::Above);
    }
    Ok(())
}

impl Record {
    // A direction above 1, or a price that isn't one.
    #[tactic(auto, unfolding(rules::specs::File::field_refusal, rules::specs::File::record_in, rules::specs::Refusals::bad_prices, rules::specs::Refusals::refuse))]
    fn test(self) -> Result<(), Refusal>
        ensures { (s : List ℕ) → number_in result ≡ field_refusal (record_by s self) }
    {
        match self {
            Record::Stroke(s) => {
                test_direction(s.direction)?;
                if price::wrong_prices(s.start_price, s.end_price) {
                    return Err(Refusal::Price);
                }
                Ok(())
            }
            Record::Segment(t) | Record::Big(t) | Record::Superior(t) => test_direction(
                t.direction,
            ),
            Record::Bar => Ok(()),
        }
    }
}

// A chart with no record.
fn no_chart() -> Chart
    ensures { (result.stroke_count ≡ 0) × (result.segment_count ≡ 0) × (result.big_count ≡ 0) × (result.superior_count ≡ 0) }
{
    Chart {
        strokes: [chart::NO_STROKE; 512],
        stroke_count: 0,
        segments: [chart::NO_TRIPLE; 256],
        segment_count: 0,
        bigs: [chart::NO_TRIPLE; 256],
        big_count: 0,
        superiors: [chart::NO_TRIPLE; 256],
        superior_count: 0,
    }
}

// The record at the head of some bytes, which a chart has a place for.
fn record_at(s: &[u8], chart: &Chart) -> Result<Record, Refusal>
    ensures { answer_of (record_by (drop 2 s.now)) result ≡ read_record (full_by chart.now) s.now }
{
    let [a, b, behind @ ..] = s else {
        return Err(Refusal::Cut);
    };
    let mark = Mark::of(*a, *b).ok_or(Refusal::Mark)?;
    if behind.len() < mark.width() {
        return Err(Refusal::Cut);
    }
    if mark.is_full(chart) {
        return Err(Refusal::Full);
    }
    let record = mark.record_in(behind);
    record.test()?;
    Ok(record)
}

// The chart of a file. Its BR records are passed over, their bytes unexamined, and counted.
pub fn read_chart(bytes: &[u8]) -> Result<Loaded, RefusedAt>
    ensures chart_value { answer_at content_of result ≡ read_file bytes.now }
    ensures chart_fits { (l : Loaded) → result ≡ Ok l → overfull l.chart ≡ false }
{
    let mut chart = no_chart();
    let mut passed = 0usize;
    let mut at = 0usize;
    // Records are of different lengths: each says where the next one begins.
    while at < bytes.len() {
        let record = match record_at(&bytes[at..], &chart) {
            Ok(record) => record,
            Err(refusal) => return Err(RefusedAt { refusal, place: at }),
        };
        match record {
            Record::Stroke(s) => {
                chart.strokes[chart.stroke_count as usize] = s;
                chart.stroke_count += 1;
                at += 23;
            }
            Record::Segment(t) => {
                chart.segments[chart.segment_count as usize] = t;
                chart.segment_count += 1;
                at += 7;
            }
            Record::Big(t) => {
                chart.bigs[chart.big_count as usize] = t;
                chart.big_count += 1;
                at += 7;
            }
            Record::Superior(t) => {
                chart.superiors[chart.superior_count as usize] = t;
                chart.superior_count += 1;
                at += 7;
            }
            Record::Bar => {
                passed += 1;
                at += 18;
            }
        }
    }
    Ok(Loaded { chart, passed })
}
