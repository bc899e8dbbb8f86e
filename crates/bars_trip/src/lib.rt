// What the contracts of the calls on a bars file come to: bars written and read again.

#![tactic(auto)]

ghost use Rattle.std.specs.Prelude.{ℕ};
ghost use Rattle.rules.specs.Answer.{answer_at};
ghost use Rattle.rules.specs.Records.{Quotes};
ghost use Rattle.bars_trip.specs.Trip.{Tripped};

use chart::RefusedAt;

// Writes bars into the buffer and reads the bytes written into other slices. A refused writing gives its refusal, with place 0, and leaves the
// other slices as they were. Where nothing is refused and there is a place for every bar, the bars come back.
pub fn write_and_read_bars(
    highs: &[f64],
    lows: &[f64],
    buffer: &mut [u8],
    new_highs: &mut [f64],
    new_lows: &mut [f64],
) -> Result<usize, RefusedAt>
    ensures { let bars : Quotes = record { highs = highs.now; lows = lows.now } in
        let old : Quotes = record { highs = new_highs.old; lows = new_lows.old } in
        let new : Quotes = record { highs = new_highs.new; lows = new_lows.new } in
        Tripped bars buffer.old old (answer_at (λ (n : ℕ). n) result) new buffer.new }
{
    let count = match bars_write::write_bars(highs, lows, buffer) {
        Ok(count) => count,
        Err(refusal) => return Err(RefusedAt { refusal, place: 0 }),
    };
    bars_read::read_bars(&buffer[..count], new_highs, new_lows)
}
