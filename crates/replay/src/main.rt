// Prints what the calls of the log on standard input are answered with, the chart that they leave and its marks over the bars of the log, or
// `bad log at P` alone.

#![tactic(auto)]

ghost use Rattle.std.specs.Prelude.{◌≤◌, length};

use std::io;
use std::io::{BufWriter, Write};

// As many bytes as decide every log: one with more than 65,536 is bad, and its first bad entry is found in these.
const ROOM: usize = 65537;

fn room() -> [u8; ROOM]
    ensures { 65537 ≤ length result }
{
    [0; ROOM]
}

fn main(rt: HostRuntime) -> io::Result<()> {
    let mut log = room();
    // where a read fails, the log is what came before
    let n = files::read_full(&mut rt.reader(), &mut log);
    let mut out = BufWriter::new(rt.alloc(), io::writer(&rt))?;
    replay_lines::print_replay(&mut out, &log[..n])?;
    out.flush()
}
