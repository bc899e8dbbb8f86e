// Reading a log of calls on a live chart and of bars: each entry, and whether every entry of a log is good.

#![tactic(auto)]

ghost use Rattle.std.specs.Prelude.{◌≡◌, ◌≤◌, ◌<◌, length};
ghost use Rattle.std.proofs.Math.Option.{some};
ghost use Rattle.chart.specs.Table.{option_of};
ghost use Rattle.call_log.specs.Log.{form_of, spelled, counted};
ghost use Rattle.call_log.specs.Entries.{entry_of, bad_at, width_by, entry_by, Long, Told};

use chart::Call;

// An entry that a log spells: a call, or a bar with its high, then its low.
#[derive(Clone, Copy)]
pub enum LogEntry {
    Call(Call),
    Bar(f64, f64),
}

// An entry, the place behind it, and how many bars there are up to there.
#[derive(Clone, Copy)]
pub struct Next {
    pub entry: LogEntry,
    pub next: usize,
    pub bars: usize,
}

// How many bytes of fields stand behind a letter.
fn width_of(letter: u8) -> Option<usize>
    ensures { option_of result ≡ width_by (form_of letter) }
{
    match letter {
        b'S' => Some(22),
        b'G' | b'B' | b'U' => Some(5),
        b'L' => Some(2),
        b'W' | b'D' | b'E' => Some(1),
        b'Q' => Some(16),
        _ => None,
    }
}

// The entry of a letter with these fields.
fn entry_in(letter: u8, s: &[u8]) -> LogEntry
    requires { Long (form_of letter) s.now }
    ensures { some (entry_of result) ≡ entry_by (form_of letter) s.now }
{
    match letter {
        b'S' => LogEntry::Call(Call::Stroke(fields::stroke_in(s, s[21]))),
        b'G' => LogEntry::Call(Call::Segment(fields::triple_in(s))),
        b'B' => LogEntry::Call(Call::Big(fields::triple_in(s))),
        b'U' => LogEntry::Call(Call::Superior(fields::triple_in(s))),
        b'L' => LogEntry::Call(Call::Lengthen(fields::two_at(s, 0))),
        b'W' => LogEntry::Call(Call::Withdraw(s[0])),
        b'D' => LogEntry::Call(Call::DeriveBigs(s[0])),
        b'E' => LogEntry::Call(Call::DeriveSuperiors(s[0])),
        b'Q' => LogEntry::Bar(fields::price_at(s, 0), fields::price_at(s, 8)),
        _ => unreachable!(),
    }
}

// How many bars there are up to an entry and with it.
#[tactic(auto, unfolding(crate::specs::Log::counted))]
fn counted(bars: usize, entry: LogEntry) -> usize
    requires { bars ≤ 2048 }
    ensures { result ≡ counted bars (entry_of entry) }
{
    match entry {
        LogEntry::Call(_) => bars,
        LogEntry::Bar(_, _) => bars + 1,
    }
}

// The entry whose letter stands at a place, behind so many bars, if it is good.
pub fn next_entry(log: &[u8], at: usize, bars: usize) -> Option<Next>
    requires { (at < length log.now) × (bars ≤ 2048) }
    ensures { Told log.now at bars result }
{
    let letter = log[at];
    let fields = &log[at + 1..];
    let width = width_of(letter)?;
    if fields.len() < width {
        return None;
    }
    let next = at + 1 + width;
    if 65536 < next {
        return None;
    }
    let entry = entry_in(letter, fields);
    let bars = counted(bars, entry);
    if 2048 < bars {
        return None;
    }
    Some(Next { entry, next, bars })
}

// The place of the first bad entry of a log.
pub fn bad_place(log: &[u8]) -> Option<usize>
    ensures { option_of result ≡ bad_at (spelled log.now) }
{
    let mut at = 0usize;
    let mut bars = 0usize;
    // Entries are of different lengths: each says where the next one begins.
    while at < log.len() {
        let Some(n) = next_entry(log, at, bars) else {
            return Some(at);
        };
        at = n.next;
        bars = n.bars;
    }
    None
}
