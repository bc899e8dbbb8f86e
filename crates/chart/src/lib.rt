// The records of a chart, of its zones, classes, labels and marks. Where the reference has a record, a comment gives its name;
// fields that it has keep theirs.

#![tactic(auto)]

ghost use Rattle.std.specs.Prelude.{◌≡◌, take};
ghost use Rattle.chart.specs.Numbers.{number_of};

use std::fmt;

// Direction: 1 up, 0 down. Roll byte: with 1 the start price need not be the end price of the stroke before. (Added; the reference has none.)
// A price is a finite f64 that is not -0.
#[derive(Clone, Copy)]
pub struct Stroke {
    pub direction: u8,
    pub roll: u8,
    pub start_bar: u16,
    pub end_bar: u16,
    pub start_price: f64,
    pub end_price: f64,
}

// What stands in a place that is not counted.
pub const NO_STROKE: Stroke = Stroke {
    direction: 0,
    roll: 0,
    start_bar: 0,
    end_bar: 0,
    start_price: 0.0,
    end_price: 0.0,
};

// A segment, a big segment ("big") or a superior: first and last index the level below.
#[derive(Clone, Copy)]
pub struct Triple {
    pub direction: u8,
    pub first: u16,
    pub last: u16,
}

pub const NO_TRIPLE: Triple = Triple {
    direction: 0,
    first: 0,
    last: 0,
};

// What a big covers: the smaller and the larger of its two prices, and its bars. Added: which of these bars gave the low, and which the high.
// (BigSegRange)
#[derive(Clone, Copy)]
pub struct Span {
    pub low: f64,
    pub high: f64,
    pub start_bar: u16,
    pub end_bar: u16,
    pub low_bar: u16,
    pub high_bar: u16,
}

// The range of a big. A missing one is an answer that each caller takes apart first. (Option<BigSegRange>)
#[derive(Clone, Copy)]
pub enum Range {
    Found(Span),
    Missing,
}

// The end point of a big: the end bar and end price of the last stroke of its last segment. (Option<(usize, f64)>)
#[derive(Clone, Copy)]
pub struct EndPoint {
    pub bar: u16,
    pub price: f64,
}

// An overlap zone: the index of its superior, its bars and its four prices. Added: the index among the bigs of its first member,
// how many opposing bigs of the superior, in order from that one, are its members, and the bars of dd and gg. (BigSegmentZhongShu)
#[derive(Clone, Copy)]
pub struct Zone {
    pub sup_idx: u16,
    pub start_bar: u16,
    pub end_bar: u16,
    pub zd: f64,
    pub zg: f64,
    pub dd: f64,
    pub gg: f64,
    pub first_member: u16,
    pub members: u16,
    pub dd_bar: u16,
    pub gg_bar: u16,
}

pub const NO_ZONE: Zone = Zone {
    sup_idx: 0,
    start_bar: 0,
    end_bar: 0,
    zd: 0.0,
    zg: 0.0,
    dd: 0.0,
    gg: 0.0,
    first_member: 0,
    members: 0,
    dd_bar: 0,
    gg_bar: 0,
};

// What a third mark beat: the edge of a zone, zg for a buy and zd for a sell, or the price C of an anchor.
#[derive(Clone, Copy)]
pub enum Ground {
    Zone(f64),
    Anchor(f64),
}

// The marks. Their fields stand in an order that leaves little room between them, so that rows are small.

// A third mark. is_buy is its side: an up leave is a buy, and its price is the lent low; a sell's is the lent high. (BigSegThirdMarker)
#[derive(Clone, Copy)]
pub struct ThirdMark {
    pub bar_index: u16,
    pub is_buy: bool,
    pub price: f64,
    pub ground: Ground,
}

// A 3+N mark. A third mark has order 0. (BigSeg3NMarker)
#[derive(Clone, Copy)]
pub struct NMark {
    pub bar_index: u16,
    pub is_buy: bool,
    pub order: u32,
    pub price: f64,
}

// A first mark of a side, at the end bar and the end price of a class. (BigSegFirstMarker)
#[derive(Clone, Copy)]
pub struct FirstMark {
    pub bar_index: u16,
    pub is_buy: bool,
    pub price: f64,
}

// A class of segments or of bigs: the indices of its first and last item, its direction, whether it is by case 3 (or else by case 2),
// whether its end was extended, and whether it is adjacent to the class before. (BigSegInfo, SupSegmentInfo)
#[derive(Clone, Copy)]
pub struct Class {
    pub first: u16,
    pub last: u16,
    pub direction: u8,
    pub by_case3: bool,
    pub extended: bool,
    pub base_adjacent: bool,
}

// A label in UTF-8: the first len bytes. The name of any u64 has at most 14 letters. (TrendZhongShuLabel)
#[derive(Clone, Copy)]
pub struct Label {
    pub bytes: [u8; 16],
    pub len: u8,
}

// A loaded chart: four levels, each in the first places of its array. A count may be above its array's size; then every call is
// refused. What lies behind a count is not part of the chart.
#[derive(Clone, Copy)]
pub struct Chart {
    pub strokes: [Stroke; 512],
    pub stroke_count: u16,
    pub segments: [Triple; 256],
    pub segment_count: u16,
    pub bigs: [Triple; 256],
    pub big_count: u16,
    pub superiors: [Triple; 256],
    pub superior_count: u16,
}

impl Chart {
    // The records of each level: those that are counted, and no more than there is room for.

    pub fn strokes(&self) -> &[Stroke]
        ensures { result.now ≡ take self.now.stroke_count self.now.strokes }
    {
        &self.strokes[..(self.stroke_count as usize).min(512)]
    }

    pub fn segments(&self) -> &[Triple]
        ensures { result.now ≡ take self.now.segment_count self.now.segments }
    {
        &self.segments[..(self.segment_count as usize).min(256)]
    }

    pub fn bigs(&self) -> &[Triple]
        ensures { result.now ≡ take self.now.big_count self.now.bigs }
    {
        &self.bigs[..(self.big_count as usize).min(256)]
    }

    pub fn superiors(&self) -> &[Triple]
        ensures { result.now ≡ take self.now.superior_count self.now.superiors }
    {
        &self.superiors[..(self.superior_count as usize).min(256)]
    }
}

// A call on a live chart, with its arguments but without the chart: an add to a level, lengthen with the new last, withdraw with a level, derive
// with its case-3 byte.
#[derive(Clone, Copy)]
pub enum Call {
    Stroke(Stroke),
    Segment(Triple),
    Big(Triple),
    Superior(Triple),
    Lengthen(u16),
    Withdraw(u8),
    DeriveBigs(u8),
    DeriveSuperiors(u8),
}

// Why a call is refused.
#[derive(Clone, Copy, Debug, PartialEq, Eq)]
pub enum Refusal {
    // a price that isn't one, in a record or in a lent slice
    Price,
    // a direction, a roll or a case-3 byte above 1, a level above 3
    Above,
    // no place left, or a buffer too short
    Full,
    // bars, prices or indices that are not in order
    Order,
    // a last index that the level below does not have
    Below,
    // a record that the level above needs, or a level that is not empty
    Held,
    // an empty level
    Empty,
    // lent slices of unequal length, or too long
    Slices,
    // an end bar outside the lent slices
    Outside,
    // an item that lacks a stroke or a segment
    Lacking,
    // more than 256 zones
    Zones,
    // an unknown mark
    Mark,
    // a record that is cut short
    Cut,
    // a stroke that does not join the one before
    Apart,
    // a bar that is not in its place
    Bar,
    // a chart that no call takes
    Chart,
}

impl Refusal {
    // The number that stands for it in print.
    pub fn number(self) -> u8
        ensures { result ≡ number_of self }
    {
        match self {
            Refusal::Price => 1,
            Refusal::Above => 2,
            Refusal::Full => 3,
            Refusal::Order => 4,
            Refusal::Below => 5,
            Refusal::Held => 6,
            Refusal::Empty => 7,
            Refusal::Slices => 8,
            Refusal::Outside => 9,
            Refusal::Lacking => 10,
            Refusal::Zones => 11,
            Refusal::Mark => 12,
            Refusal::Cut => 13,
            Refusal::Apart => 14,
            Refusal::Bar => 20,
            Refusal::Chart => 21,
        }
    }
}

impl fmt::Display for Refusal {
    fn fmt<W: fmt::Write>(&self, f: &mut fmt::Formatter<W>) -> fmt::Result {
        write!(f, "{}", self.number())
    }
}

// A record of a file that is refused: why, and the place of its mark.
#[derive(Clone, Copy, Debug, PartialEq, Eq)]
pub struct RefusedAt {
    pub refusal: Refusal,
    pub place: usize,
}

impl fmt::Display for RefusedAt {
    fn fmt<W: fmt::Write>(&self, f: &mut fmt::Formatter<W>) -> fmt::Result {
        write!(f, "refused {} at {}", self.refusal, self.place)
    }
}
