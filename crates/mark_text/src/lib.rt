// The text that the program `marks` prints.

#![tactic(auto)]

ghost use Rattle.std.specs.Prelude.{◌≡◌, false, not, ◌++◌, ◌+◌, ◌≤◌, length};
ghost use Rattle.chart.specs.declared.NMark.{NMark};
ghost use Rattle.price.specs.Price.{is_price, Price};
ghost use Rattle.rows.specs.Rows.{rows_in};
ghost use Rattle.rules.specs.Lists.{any};
ghost use Rattle.rules.specs.Text.{mark_line, marks_text, refused_line};

use chart::NMark;
use text::{Text, put_decimal, put_hex, put_word};

// A mark's line, which has at most 39 bytes.
#[tactic(auto, using(crate::proofs::Lines::digits_of_u16, crate::proofs::Lines::digits_of_u32))]
fn put_line(text: &mut Text, m: NMark)
    requires price { Price m.price }
    requires room { length (rows_in text.old) + 39 ≤ 24576 }
    ensures puts { rows_in text.new ≡ rows_in text.old ++ mark_line m }
    ensures upper_bound { length (rows_in text.new) ≤ length (rows_in text.old) + 39 }
{
    let side: &[u8] = if m.is_buy { b"buy " } else { b"sell " };
    put_word(text, side);
    put_decimal(text, u64::from(m.order));
    put_word(text, b" ");
    put_decimal(text, u64::from(m.bar_index));
    put_word(text, b" ");
    put_hex(text, 16, price::bits_of_price(m.price));
    put_word(text, b"\n");
}

// ---- what is printed

// A header, then a line for each mark.
pub fn marks_text(rows: &[NMark]) -> Text
    requires few { length rows.now ≤ 512 }
    requires rows_value { any (λ (m : NMark). not (is_price m.price)) rows.now ≡ false }
    ensures { rows_in result ≡ marks_text rows.now }
{
    let mut text = Text::new(0);
    put_word(&mut text, b"side order bar price\n");
    for m in rows {
        put_line(&mut text, *m);
    }
    text
}

// The line of a refusal: its number, and the place of the record that is refused.
#[tactic(auto, using(crate::proofs::Lines::digits_of_u8, crate::proofs::Lines::digits_of_u64))]
pub fn refused_line(number: u8, place: usize) -> Text
    ensures { rows_in result ≡ refused_line number place }
{
    let mut text = Text::new(0);
    put_word(&mut text, b"refused ");
    put_decimal(&mut text, u64::from(number));
    put_word(&mut text, b" at ");
    put_decimal(&mut text, place as u64);
    put_word(&mut text, b"\n");
    text
}
