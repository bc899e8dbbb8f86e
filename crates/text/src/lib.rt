// Text in memory of a fixed size, and what is put behind it: words, and numbers by their digits. The size is any.

#![tactic(auto)]

ghost use Rattle.std.specs.Prelude.{◌≡◌, ◌++◌, ◌+◌, ◌≤◌, ◌<◌, length};
ghost use Rattle.rows.specs.Rows.{rows_in};
ghost use Rattle.rules.specs.Text.{decimal, hex_digit, hex};

use rows::Rows;

// Room for more bytes than a line for each of 512 marks takes.
pub type Text = Rows<u8, 24576>;

// Some bytes behind those that are there.
pub fn put_word<const N: usize>(text: &mut Rows<u8, N>, word: &[u8])
    requires { length (rows_in text.old) + length word.now ≤ N }
    ensures bytes { rows_in text.new ≡ rows_in text.old ++ word.now }
    ensures long { length (rows_in text.new) ≡ length (rows_in text.old) + length word.now }
{
    let start = text.count;
    let end = start + word.len();
    let rows = &mut text.rows[..];
    rows[start..end].copy_from_slice(word);
    text.count = end;
}

// A number in decimal, as a text of its own.
fn decimal_digits(n: u64) -> Rows<u8, 20>
    ensures { rows_in result ≡ decimal n }
{
    let mut digits = Rows::new(0);
    if 10 <= n {
        digits = decimal_digits(n / 10);
    }
    digits.push(b'0' + (n % 10) as u8);
    digits
}

// A number in decimal.
pub fn put_decimal<const N: usize>(text: &mut Rows<u8, N>, n: u64)
    requires { length (rows_in text.old) + length (decimal n) ≤ N }
    ensures bytes { rows_in text.new ≡ rows_in text.old ++ decimal n }
    ensures long { length (rows_in text.new) ≡ length (rows_in text.old) + length (decimal n) }
{
    put_word(text, decimal_digits(n).listed());
}

// A digit, a letter in upper case from ten on.
fn digit(d: u64) -> u8
    requires { d < 16 }
    ensures { result ≡ hex_digit d }
{
    if d < 10 {
        b'0' + d as u8
    } else {
        b'A' + (d - 10) as u8
    }
}

// The k last hexadecimal digits of a number.
pub fn put_hex<const N: usize>(text: &mut Rows<u8, N>, k: usize, n: u64)
    requires { length (rows_in text.old) + k ≤ N }
    ensures bytes { rows_in text.new ≡ rows_in text.old ++ hex k n }
    ensures long { length (rows_in text.new) ≡ length (rows_in text.old) + k }
{
    if 0 < k {
        put_hex(text, k - 1, n / 16);
        put_word(text, &[digit(n % 16)]);
    }
}
