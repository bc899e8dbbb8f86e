// The bytes of a file by its name: "A file that can't be opened or read counts as empty." Of reading only safety is proved: no contract can
// say what a file holds.

#![tactic(auto)]

ghost use Rattle.std.specs.Prelude.{◌≡◌, ◌≤◌, length, MatchResult};

use std::env::{Env, FillError};
use std::fs;
use std::io::Read;
use std::rt::Files;

// As many bytes as decide what is read of a bars file: more than 2,048 bars take.
pub const BARS_ROOM: usize = 65536;

pub fn bars_room() -> [u8; BARS_ROOM]
    ensures { 65536 ≡ length result }
{
    [0; BARS_ROOM]
}

// One byte more than a chart file may have, so that a longer one is seen to be too long.
pub const CHART_ROOM: usize = 65537;

pub fn chart_room() -> [u8; CHART_ROOM]
    ensures { 65537 ≡ length result }
{
    [0; CHART_ROOM]
}

// Reads until the buffer is full or the reader ends, and gives how many bytes came; where a read fails, as an error how many came before it.
fn read_all<R: Read>(reader: &mut R, buffer: &mut [u8]) -> Result<usize, usize>
    ensures { MatchResult result (λ n. n ≤ length buffer.new) (λ n. n ≤ length buffer.new) }
{
    let mut done = 0;
    // each read may fill a part, so that no `for` fits
    while done < buffer.len() {
        match reader.read(&mut buffer[done..]) {
            Ok(0) => break,
            Ok(more) => done += more,
            Err(_) => return Err(done),
        }
    }
    Ok(done)
}

// Reads until the buffer is full, the reader ends or a read fails, and gives how many bytes came.
pub fn read_full<R: Read>(reader: &mut R, buffer: &mut [u8]) -> usize
    ensures { result ≤ length buffer.new }
{
    let (Ok(n) | Err(n)) = read_all(reader, buffer);
    n
}

// Puts the first bytes of the file with a name into the buffer, as many as it holds, and gives their number. std opens files by names that are text
// alone, so a name that is not UTF-8 is that of a file that can't be opened.
pub fn read_file<R: Files>(rt: &R, name: &[u8], buffer: &mut [u8]) -> usize
    ensures { result ≤ length buffer.new }
{
    let Ok(text) = str::from_utf8(name) else {
        return 0;
    };
    match fs::open(rt, text) {
        Ok(mut file) => read_all(&mut file, buffer).unwrap_or(0),
        Err(_) => 0,
    }
}

// Whether the program has an argument i.
fn has_argument<R: Env>(rt: &R, i: usize) -> bool {
    !matches!(rt.arg(i, &mut [0; 1]), Err(FillError::NotPresent))
}

// The same of the file that argument i names, in a program with two arguments; without them, of the file with this name.
pub fn read_argument<R: Files + Env>(rt: &R, i: usize, name: &[u8], buffer: &mut [u8]) -> usize
    ensures { result ≤ length buffer.new }
{
    if !has_argument(rt, 2) || has_argument(rt, 3) {
        return read_file(rt, name, buffer);
    }
    let mut path = [0; 4096];
    match rt.arg(i, &mut path) {
        Ok(n) => read_file(rt, &path[..n], buffer),
        Err(_) => 0,
    }
}
