// The scan of a zone's pairs, for third and 3+N marks: where it starts, what stops it, and the next pair.

#![tactic(auto)]

ghost use Rattle.std.specs.Prelude.{◌≡◌, ℕ, true, false, not, cond, ◌&&◌, ◌||◌, ◌==◌, [], suc, ◌-◌, ◌<◌, ◌≤◌, length, drop, get_or, eqb, leb, ltb};
ghost use Rattle.std.specs.Prelude.{filter, filter_map, find, map, Some};
ghost use Rattle.std.specs.List.Sorted.{IsNonDecreasingBy};
ghost use Rattle.chart.specs.declared.Zone.{Zone};
ghost use Rattle.rows.specs.Rows.{rows_in};
ghost use Rattle.rules.specs.Lists.{any};
ghost use Rattle.laws.specs.Lists.{All};
ghost use Rattle.rules.specs.Records.{Levels};
ghost use Rattle.rules.specs.Marks.{superior_of, leaving, reaches_zone};
ghost use Rattle.tables.specs.declared.Superior.{Superior};
ghost use Rattle.tables.specs.Tables.{bigs_of};
ghost use Rattle.mark_scan.specs.Scan.{TablesOf, reached_at, begin_of, stops_at, pairs_from, pairs_by, Later, LeavesFrom, Started};
ghost use Rattle.mark_scan.specs.Scan.{ZoneScan, Scanned, SmallScan, Owned};

use chart::{Range, Zone};
use rows::Rows;
use tables::{Big, Superior};

// The scan of a zone: its superior and that one's direction, the place of the big where it starts, and the bar that stops it, if one does.
#[derive(Clone, Copy)]
pub struct Scan {
    pub superior: u32,
    pub direction: u32,
    pub from: usize,
    pub limit: Option<u32>,
}

// What stands in a place that is not counted.
pub const NO_SCAN: Scan = Scan {
    superior: 0,
    direction: 0,
    from: 0,
    limit: None,
};

// ---- where it starts

// The place of the first big from `begin` to `last` that starts at bar e or later, and one past the last where there is none. A big whose
// range is missing is passed over.
fn start_of(bigs: &[Big], begin: usize, last: u16, e: u16) -> usize
    ensures { (c : Levels) → bigs.now ≡ bigs_of c → leaving c e (suc last - begin) (drop begin c.bigs) ≡ drop result c.bigs }
{
    let end = last as usize + 1;
    for k in begin..end.min(bigs.len()) {
        let Range::Found(span) = bigs[k].range else {
            continue;
        };
        if e <= span.start_bar {
            return k;
        }
    }
    begin.max(end)
}

// Where the scan of a zone started, with the zone's superior and its end bar.
#[derive(Clone, Copy)]
pub struct Start {
    pub superior: u16,
    pub end_bar: u16,
    pub from: usize,
}

// Where the search for the start of zone z's scan begins: at its superior's first big, or where the scan of the zone before started, if that
// is of the same superior and ends no later.
fn search_from(first: usize, z: &Zone, before: Option<Start>) -> usize
    ensures { (c : Levels) → Started c before → (superior_of c z.now).first ≡ first → LeavesFrom c z.now result }
{
    match before {
        Some(start) if start.superior == z.sup_idx && start.end_bar <= z.end_bar => {
            start.from.max(first)
        }
        _ => first,
    }
}

// ---- what stops it

// Whether a bar reaches a limit.
pub fn reached(limit: Option<u32>, bar: u16) -> bool
    ensures { result ≡ reached_at limit bar }
{
    limit.is_some_and(|stop| stop <= u32::from(bar))
}

// The first end bar behind e among the superiors from place `from` on that are not of direction d.
fn reversal(superiors: &[Superior], from: usize, d: u8, e: u16) -> Option<u16>
    ensures { result ≡ find (λ bar. ltb e bar) (filter_map (λ (s : Superior). s.end_bar)
        (filter (λ (s : Superior). not (s.direction == d)) (drop from superiors.now))) }
{
    superiors
        .iter()
        .skip(from)
        .filter(|s| s.direction != d)
        .filter_map(|s| s.end_bar)
        .find(|bar| e < *bar)
}

// The nearer of two limits.
fn nearer(limit: Option<u16>, next: Option<u16>) -> Option<u16>
    ensures { (bar : ℕ) → reached_at result bar ≡ (reached_at limit bar || reached_at next bar) }
{
    let Some(stop) = limit else {
        return next;
    };
    Some(next.map_or(stop, |bar| bar.min(stop)))
}

// Whether zone y is of another superior than zone z and starts behind its end.
fn is_next(y: &Zone, z: &Zone) -> bool
    ensures { result ≡ (not (eqb y.now.sup_idx z.now.sup_idx) && ltb z.now.end_bar y.now.start_bar) }
{
    y.sup_idx != z.sup_idx && z.end_bar < y.start_bar
}

// Whether the start bars of zones never fall.
fn starts_rise(zones: &[Zone]) -> bool
    ensures { result ≡ true → IsNonDecreasingBy (λ (z : Zone). z.start_bar) zones.now }
{
    zones.is_sorted_by(|y, z| y.start_bar <= z.start_bar)
}

// The start bar of the first zone from place `from` on that is of another superior than z and starts behind z's end. Where start bars never
// fall, it is the nearest.
fn first_next(zones: &[Zone], from: usize, z: &Zone) -> Option<u16>
    requires { IsNonDecreasingBy (λ (y : Zone). y.start_bar) zones.now }
    ensures { (bar : ℕ) → reached_at result bar ≡ reaches_zone (drop from zones.now) z.now bar }
{
    for k in from..zones.len() {
        if is_next(&zones[k], z) {
            return Some(zones[k].start_bar);
        }
    }
    None
}

// What the nearest zone is found by: a zone's superior, and the bar where it starts.
#[derive(Clone, Copy)]
struct Begin {
    superior: u16,
    start: u16,
}

const NO_BEGIN: Begin = Begin {
    superior: 0,
    start: 0,
};

// The begins of zones. They stand close together, since each zone looks at all, but where start bars never fall: there none is looked at.
fn begins_of(zones: &[Zone], rise: bool) -> Rows<Begin, 256>
    requires { length zones.now ≤ 256 }
    ensures { rise ≡ false → rows_in result ≡ map begin_of zones.now }
{
    let mut begins = Rows::new(NO_BEGIN);
    if rise {
        return begins;
    }
    for z in zones {
        begins.push(Begin {
            superior: z.sup_idx,
            start: z.start_bar,
        });
    }
    begins
}

// How many bars a zone starts behind bar end + 1, where it is of another superior and starts behind `end`; elsewhere so many that they lead
// behind all bars.
fn bars_behind(y: Begin, superior: u16, end: u16) -> u16
    ensures value { result ≡ cond (not (eqb y.superior superior) && ltb end y.start) (y.start - end - 1) 65535 }
    ensures fits { y.start < 65536 }
{
    if y.superior != superior && end < y.start {
        y.start - end - 1
    } else {
        65535
    }
}

// The least start bar of a zone that is of another superior and starts behind `end`. Every zone is looked at, with no test that ends the
// loop, so that several are taken at a time.
fn nearest(begins: &[Begin], superior: u16, end: u16) -> Option<u16>
    ensures { (bar : ℕ) → reached_at result bar ≡ any (stops_at superior end bar) begins.now }
{
    let mut least = 65535;
    for y in begins {
        least = least.min(bars_behind(*y, superior, end));
    }
    if least < 65535 - end {
        Some(least + end + 1)
    } else {
        None
    }
}

// The bar that stops zone z's scan: `turn`, the end bar of its reversal, or the least start bar among the zones from place `from` on that are
// of another superior and start behind z's end.
fn limit_of(
    zones: &[Zone],
    begins: &[Begin],
    from: usize,
    rise: bool,
    z: &Zone,
    turn: Option<u16>,
) -> Option<u16>
    requires rise { rise ≡ true → IsNonDecreasingBy (λ (y : Zone). y.start_bar) zones.now }
    requires begins { rise ≡ false → begins.now ≡ map begin_of zones.now }
    requires from { rise ≡ false → from ≡ 0 }
    ensures { (bar : ℕ) → reached_at result bar ≡ (reaches_zone (drop from zones.now) z.now bar || reached_at turn bar) }
{
    let next = if rise {
        first_next(zones, from, z)
    } else {
        nearest(begins, z.sup_idx, z.end_bar)
    };
    nearer(next, turn)
}

// ---- the scans of all zones

// A limit, as a scan holds it.
fn wide(limit: Option<u16>) -> Option<u32>
    ensures same { result ≡ limit }
    ensures small { (bar : ℕ) → result ≡ Some bar → bar < 0x1_0000 }
{
    limit.map(u32::from)
}

// The scan of the zone at place i; `rise` where start bars never fall, and `before` is the start of the scan of the zone before.
fn scan_of(
    bigs: &[Big],
    superiors: &[Superior],
    zones: &[Zone],
    begins: &[Begin],
    i: usize,
    rise: bool,
    before: Option<Start>,
) -> Scan
    requires here { (i < length zones.now) × Owned zones.now (length superiors.now) }
    requires rise { rise ≡ true → IsNonDecreasingBy (λ (y : Zone). y.start_bar) zones.now }
    requires begins { rise ≡ false → begins.now ≡ map begin_of zones.now }
    ensures scanned { (c : Levels) (d : Zone) → TablesOf c bigs.now superiors.now zones.now → Started c before
        → ZoneScan c (get_or zones.now i d) result }
    ensures small { SmallScan result }
{
    let z = &zones[i];
    let h = superiors[z.sup_idx as usize];
    let begin = search_from(h.first as usize, z, before);
    let turn = reversal(superiors, z.sup_idx as usize + 1, h.direction, z.end_bar);
    // no zone before this one starts behind its end, where it does not itself
    let next = if rise && z.start_bar <= z.end_bar {
        i
    } else {
        0
    };
    let limit = limit_of(zones, begins, next, rise, z, turn);
    Scan {
        superior: u32::from(z.sup_idx),
        direction: u32::from(h.direction),
        from: start_of(bigs, begin, h.last, z.end_bar),
        limit: wide(limit),
    }
}

// The scans of the overlap zones of some levels.
pub fn scans_of(bigs: &[Big], superiors: &[Superior], zones: &[Zone], scans: &mut Rows<Scan, 256>)
    requires room { length zones.now ≤ 256 }
    requires owned { Owned zones.now (length superiors.now) }
    ensures scanned { (c : Levels) → TablesOf c bigs.now superiors.now zones.now → Scanned c (rows_in scans.new) }
    ensures small { All SmallScan (rows_in scans.new) }
{
    scans.count = 0;
    let rise = starts_rise(zones);
    let begins = begins_of(zones, rise);
    let mut before = None;
    for (i, z) in zones.iter().enumerate() {
        let scan = scan_of(bigs, superiors, zones, begins.listed(), i, rise, before);
        scans.push(scan);
        before = Some(Start {
            superior: z.sup_idx,
            end_bar: z.end_bar,
            from: scan.from,
        });
    }
}

// ---- pairs

// The next pair of a scan: the place of its second big, and that one's end bar.
#[derive(Clone, Copy)]
pub struct Pair {
    pub next: usize,
    pub bar: u16,
}

// From big `from` on: stop when there is no big k + 1, its range is missing or its end bar reaches the limit; skip k when its direction
// isn't the scan's.
pub fn next_pair(bigs: &[Big], scan: &Scan, from: usize) -> Option<Pair>
    ensures later { Later from (length bigs.now) result }
    ensures pairs { (c : Levels) → bigs.now ≡ bigs_of c → pairs_from c scan.now from ≡ pairs_by c scan.now result }
{
    for k in from..bigs.len().saturating_sub(1) {
        let Range::Found(span) = bigs[k + 1].range else {
            return None;
        };
        if reached(scan.limit, span.end_bar) {
            return None;
        }
        if u32::from(bigs[k].direction) == scan.direction {
            return Some(Pair {
                next: k + 1,
                bar: span.end_bar,
            });
        }
    }
    None
}

#[cfg(test)]
mod tests {
    use super::*;
    use chart::{NO_ZONE, Span};

    // A big of these bars.
    fn big(direction: u8, start_bar: u16, end_bar: u16) -> Big {
        let span = Span {
            low: 10.0,
            high: 20.0,
            start_bar,
            end_bar,
            low_bar: start_bar,
            high_bar: end_bar,
        };
        Big {
            direction,
            range: Range::Found(span),
            end: None,
        }
    }

    // A scan's numbers in no more bits than they need: superior, direction, limit.
    fn narrow(scan: Scan) -> (u16, u8, Option<u16>)
        requires { SmallScan scan }
    {
        let limit = match scan.limit {
            Some(bar) => Some(bar as u16),
            None => None,
        };
        (scan.superior as u16, scan.direction as u8, limit)
    }

    // Bigs turn at bars 0, 5, 9, 14, 18 and 25. Superior 1 is of bigs 1 to 3, upward; superior 2 turns down and ends at bar 25. The zone is big 2,
    // which ends at bar 14: its scan starts at big 3, which starts there, and bar 25 stops it. With no zones the scans of before are gone.
    #[test]
    fn one_scan(rt: HostRuntime) {
        let bigs = [
            big(0, 0, 5),
            big(1, 5, 9),
            big(0, 9, 14),
            big(1, 14, 18),
            big(0, 18, 25),
        ];
        let superiors = [
            Superior {
                direction: 0,
                first: 0,
                last: 0,
                end_bar: Some(5),
            },
            Superior {
                direction: 1,
                first: 1,
                last: 3,
                end_bar: Some(18),
            },
            Superior {
                direction: 0,
                first: 4,
                last: 4,
                end_bar: Some(25),
            },
        ];
        let zones = [Zone {
            sup_idx: 1,
            start_bar: 9,
            end_bar: 14,
            ..NO_ZONE
        }];
        let mut scans = Rows::new(NO_SCAN);
        scans_of(&bigs, &superiors, &zones, &mut scans);
        assert_eq!(rt; scans.count, 1);
        let scan = scans.rows[0];
        assert_eq!(rt; scan.from, 3);
        assert_eq!(rt; narrow(scan), (1, 1, Some(25)));
        scans_of(&bigs, &superiors, &[], &mut scans);
        assert_eq!(rt; scans.count, 0);
    }
}
