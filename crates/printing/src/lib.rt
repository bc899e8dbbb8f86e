// The rows of `report`, some of them lines of `replay` too, written to a writer. Of printing only safety is proved, and a price's digits. A
// write that fails ends the printing, and its error is handed on.

#![tactic(auto)]

ghost use Rattle.std.specs.Prelude.{◌≡◌, cond, replicate, Some};
ghost use Rattle.std.specs.Float.Ieee.{is_nan, to_bits};
ghost use Rattle.std.specs.Float.{binary64};
ghost use Rattle.rules.specs.Text.{hex};

use chart::{
    Class, EndPoint, FirstMark, Ground, Label, NMark, Range, Refusal, Stroke, ThirdMark, Triple,
    Zone,
};
use rows::Rows;
use std::io::Write;
use std::{fmt, io};

// A price's bits; 0 of a NaN, whose bits are not defined.
fn bits_of(x: f64) -> u64
    ensures { result ≡ cond (is_nan x) 0 (to_bits binary64 x) }
{
    if x.is_nan() { 0 } else { x.to_bits() }
}

// A price, whose bits are printed as 16 hexadecimal digits; of a NaN, whose bits are not defined, 16 zeros.
#[derive(Clone, Copy)]
pub struct Hex(pub f64);

impl fmt::Display for Hex {
    ghost output = { λ x. Some (cond (is_nan x.0) (replicate 16 0x30) (hex 16 (to_bits binary64 x.0))) };

    fn fmt<W: fmt::Write>(&self, f: &mut fmt::Formatter<W>) -> fmt::Result {
        write!(f, "{:016X}", bits_of(self.0))
    }
}

// The side of a mark.
fn side(is_buy: bool) -> &'static str {
    if is_buy { "buy" } else { "sell" }
}

// What is printed on a line.
pub trait Row {
    fn print<W: Write>(&self, out: &mut W) -> io::Result<()>;
}

impl Row for Stroke {
    fn print<W: Write>(&self, out: &mut W) -> io::Result<()> {
        write!(
            out,
            "{} {} {} ",
            self.direction, self.start_bar, self.end_bar
        )?;
        writeln!(
            out,
            "{} {} {}",
            Hex(self.start_price),
            Hex(self.end_price),
            self.roll
        )
    }
}

impl Row for Triple {
    fn print<W: Write>(&self, out: &mut W) -> io::Result<()> {
        writeln!(out, "{} {} {}", self.direction, self.first, self.last)
    }
}

impl Row for Zone {
    fn print<W: Write>(&self, out: &mut W) -> io::Result<()> {
        write!(out, "{} {} {} ", self.sup_idx, self.start_bar, self.end_bar)?;
        write!(
            out,
            "{} {} {} {} ",
            Hex(self.zd),
            Hex(self.zg),
            Hex(self.dd),
            Hex(self.gg)
        )?;
        writeln!(
            out,
            "{} {} {} {}",
            self.first_member, self.members, self.dd_bar, self.gg_bar
        )
    }
}

impl Row for ThirdMark {
    fn print<W: Write>(&self, out: &mut W) -> io::Result<()> {
        write!(
            out,
            "{} {} {} ",
            side(self.is_buy),
            self.bar_index,
            Hex(self.price)
        )?;
        match self.ground {
            Ground::Zone(edge) => writeln!(out, "zone {}", Hex(edge)),
            Ground::Anchor(price) => writeln!(out, "anchor {}", Hex(price)),
        }
    }
}

impl Row for NMark {
    fn print<W: Write>(&self, out: &mut W) -> io::Result<()> {
        writeln!(
            out,
            "{} {} {} {}",
            side(self.is_buy),
            self.order,
            self.bar_index,
            Hex(self.price)
        )
    }
}

impl Row for Label {
    fn print<W: Write>(&self, out: &mut W) -> io::Result<()> {
        let len = (self.len as usize).min(self.bytes.len());
        out.write_all(&self.bytes[..len])?;
        writeln!(out)
    }
}

impl Row for Class {
    fn print<W: Write>(&self, out: &mut W) -> io::Result<()> {
        write!(out, "{} {} {} ", self.first, self.last, self.direction)?;
        let case = if self.by_case3 { 3 } else { 2 };
        writeln!(
            out,
            "{case} {} {}",
            self.extended as u8, self.base_adjacent as u8
        )
    }
}

impl Row for FirstMark {
    fn print<W: Write>(&self, out: &mut W) -> io::Result<()> {
        writeln!(out, "{} {}", self.bar_index, Hex(self.price))
    }
}

// The range of a big, and its end point.
#[derive(Clone, Copy)]
pub struct Extent {
    pub range: Range,
    pub end_point: Option<EndPoint>,
}

impl Row for Extent {
    fn print<W: Write>(&self, out: &mut W) -> io::Result<()> {
        match self.range {
            Range::Found(span) => {
                write!(out, "{} {} ", span.start_bar, span.end_bar)?;
                write!(out, "{} {} ", Hex(span.low), Hex(span.high))?;
                write!(out, "{} {} ", span.low_bar, span.high_bar)?;
            }
            Range::Missing => write!(out, "missing ")?,
        }
        match self.end_point {
            Some(end) => writeln!(out, "{} {}", end.bar, Hex(end.price)),
            None => writeln!(out, "none"),
        }
    }
}

// A line for each row, behind a word: none in `report`, what the line is in `replay`.
pub fn print_rows<W: Write, T: Row>(out: &mut W, word: &[u8], rows: &[T]) -> io::Result<()> {
    for row in rows {
        out.write_all(word)?;
        row.print(out)?;
    }
    Ok(())
}

// A section: its head, with how many rows follow or with the refusal of the call, and the rows.
pub fn print_section<W: Write, D: fmt::Display + Drop, T: Row + Copy, const N: usize>(
    out: &mut W,
    head: D,
    found: Result<Rows<T, N>, Refusal>,
) -> io::Result<()> {
    match found {
        Ok(rows) => {
            writeln!(out, "{head} {}", rows.count)?;
            print_rows(out, b"", rows.listed())
        }
        Err(refusal) => writeln!(out, "{head} refused {refusal}"),
    }
}
