// The arguments of a program that is timed: a word, and a number.

#![tactic(auto)]

ghost use Rattle.std.specs.Prelude.{◌≤◌};

use std::env::Env;

// The first eight bytes of an argument, with zeros behind one that is shorter; all zeros where there is none.
pub fn word<R: Env>(rt: &R, i: usize) -> [u8; 8] {
    let mut bytes = [0; 8];
    let _ = rt.arg(i, &mut bytes);
    bytes
}

// A decimal digit's value; 0 of any other byte.
fn value(byte: u8) -> u32
    ensures { result ≤ 9 }
{
    match byte {
        b'0'..=b'9' => (byte - b'0') as u32,
        _ => 0,
    }
}

// The number of the digits before the first zero byte; another byte counts as a digit 0.
pub fn number(digits: [u8; 8]) -> u32 {
    let mut n = 0u32;
    for byte in digits {
        if byte == 0 {
            break;
        }
        n = n % 10_000_000 * 10 + value(byte);
    }
    n
}
