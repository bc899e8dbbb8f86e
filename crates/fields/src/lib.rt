// The fields of a stored record: numbers, prices, triples and strokes from bytes and to bytes, the lowest byte first.

#![tactic(auto)]

ghost use Rattle.std.specs.Prelude.{◌≡◌, ◌+◌, ◌≤◌, length};
ghost use Rattle.std.specs.Float.{binary64};
ghost use Rattle.std.specs.Float.Ieee.{of_bits};
ghost use Rattle.price.specs.Price.{Price};
ghost use Rattle.price.specs.Bytes.{bytes_of, price_bytes};
ghost use Rattle.rules.specs.File.{number, price, stroke_in, triple_in};

use chart::{Stroke, Triple};

// ---- numbers of two bytes

pub fn two_at(s: &[u8], at: usize) -> u16
    requires { at + 2 ≤ length s.now }
    ensures { result ≡ number at 2 s.now }
{
    u16::from_le_bytes(s[at..at + 2].try_into().unwrap())
}

pub fn two_bytes(n: u16) -> [u8; 2]
    ensures { result ≡ bytes_of 2 n }
{
    n.to_le_bytes()
}

// ---- prices

// The value with these bits, of which `from_bits` makes no NaN.
fn value_of(n: u64) -> f64
    ensures { result ≡ of_bits binary64 n }
{
    if 0x7FF0_0000_0000_0000 < n % 0x8000_0000_0000_0000 {
        return f64::NAN;
    }
    f64::from_bits(n)
}

// The value in the eight bytes from a place on, whatever they are: a reader asks whether it is a price.
pub fn price_at(s: &[u8], at: usize) -> f64
    requires { at + 8 ≤ length s.now }
    ensures { result ≡ price at s.now }
{
    value_of(u64::from_le_bytes(s[at..at + 8].try_into().unwrap()))
}

pub fn price_bytes(x: f64) -> [u8; 8]
    requires { Price x }
    ensures { result ≡ price_bytes x }
{
    x.to_le_bytes()
}

// ---- records

// The triple in the first bytes: its direction, first and last. A stroke begins so too, with its bars.
pub fn triple_in(s: &[u8]) -> Triple
    requires { 5 ≤ length s.now }
    ensures { result ≡ triple_in s.now }
{
    Triple {
        direction: s[0],
        first: two_at(s, 1),
        last: two_at(s, 3),
    }
}

// The stroke in the first bytes, whatever its prices are, with a roll byte.
pub fn stroke_in(s: &[u8], roll: u8) -> Stroke
    requires { 21 ≤ length s.now }
    ensures { result ≡ stroke_in roll s.now }
{
    let begun = triple_in(s);
    Stroke {
        direction: begun.direction,
        roll,
        start_bar: begun.first,
        end_bar: begun.last,
        start_price: price_at(s, 5),
        end_price: price_at(s, 13),
    }
}
