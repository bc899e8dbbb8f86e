// Writing a bars file.

#![tactic(auto)]

ghost use Rattle.std.specs.Prelude.{◌≡◌, true, ◌≤◌, length};
ghost use Rattle.price.specs.Price.{Price, all_prices};
ghost use Rattle.chart.specs.Numbers.{number_in};
ghost use Rattle.rules.specs.Answer.{plain_answer};
ghost use Rattle.rules.specs.File.{fill};
ghost use Rattle.rules.specs.BarsFile.{bar_bytes, bars_written, write_bars_refusal, write_bars_call, bars_buffer_after};

use chart::Refusal;

// How many bytes a bar has.
const BAR: usize = 20;

// Writes one record, its mark, its number, the high, then the low, at the start of the part of the buffer that it is lent.
fn put_bar(out: &mut [u8], number: u16, high: f64, low: f64)
    requires in_bounds { 20 ≤ length out.old }
    requires price { Price high × Price low }
    ensures { out.new ≡ fill (bar_bytes (record { number = number; high = high; low = low })) out.old }
{
    out[..2].copy_from_slice(b"HL");
    out[2..4].copy_from_slice(&fields::two_bytes(number));
    out[4..12].copy_from_slice(&fields::price_bytes(high));
    out[12..20].copy_from_slice(&fields::price_bytes(low));
}

// Writes the bars from the buffer's start on. The part that starts at a record's place is lent for it.
fn put_bars(highs: &[f64], lows: &[f64], buffer: &mut [u8])
    requires highs_len { length highs.now ≡ length lows.now }
    requires highs_len_bound { length highs.now ≤ 65536 }
    requires highs_value { (all_prices highs.now ≡ true) × (all_prices lows.now ≡ true) }
    requires lows_in_bounds { length (bars_written (record { highs = highs.now; lows = lows.now })) ≤ length buffer.old }
    ensures { buffer.new ≡ fill (bars_written (record { highs = highs.now; lows = lows.now })) buffer.old }
{
    for (i, high) in highs.iter().enumerate() {
        put_bar(&mut buffer[BAR * i..], i as u16, *high, lows[i]);
    }
}

// Slices of unequal length or above 65,536; a price that isn't one in either; a buffer too short.
fn test(highs: &[f64], lows: &[f64], buffer: &[u8]) -> Result<(), Refusal>
    ensures { number_in result ≡ write_bars_refusal (record { highs = highs.now; lows = lows.now }) buffer.now }
{
    if highs.len() != lows.len() || 65536 < highs.len() {
        return Err(Refusal::Slices);
    }
    if !price::both_prices(highs, lows) {
        return Err(Refusal::Price);
    }
    if buffer.len() < BAR * highs.len() {
        return Err(Refusal::Full);
    }
    Ok(())
}

// Writes the bars, and gives how many bytes they take. A refused writing leaves the buffer as it was.
pub fn write_bars(highs: &[f64], lows: &[f64], buffer: &mut [u8]) -> Result<usize, Refusal>
    ensures count_value { plain_answer result ≡ write_bars_call (record { highs = highs.now; lows = lows.now }) buffer.old }
    ensures buffer_after { buffer.new ≡ bars_buffer_after (record { highs = highs.now; lows = lows.now }) buffer.old }
{
    test(highs, lows, buffer)?;
    put_bars(highs, lows, buffer);
    Ok(BAR * highs.len())
}
