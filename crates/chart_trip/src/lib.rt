// What the contracts of the file calls come to: a chart written and read again, and two charts compared by their files.

#![tactic(auto)]

ghost use Rattle.std.specs.Prelude.{◌≡◌, false, Ok};
ghost use Rattle.rules.specs.Answer.{answer_at};
ghost use Rattle.rules.specs.Refusals.{overfull};
ghost use Rattle.rules.specs.File.{buffer_after};
ghost use Rattle.rules.specs.Records.{levels_of};
ghost use Rattle.laws.specs.Records.{wide, any_level};
ghost use Rattle.chart_read.specs.Heads.{content_of};
ghost use Rattle.chart_trip.specs.Trip.{trip_call, ReadsBack};
ghost use Rattle.chart_trip.specs.Same.{Writing, Compared};

use chart::{Chart, Refusal, RefusedAt};
use chart_read::Loaded;

// What owning a chart tells, and a lent one does not: each bar and each index is below 65,536.
fn narrow(chart: Chart)
    ensures { any_level wide (levels_of chart) ≡ false }
{}

// Writes a chart into the buffer and reads the bytes written. A refused writing gives its refusal, with place 0. Where nothing is refused, the
// chart's records come back.
pub fn write_and_read(chart: &Chart, buffer: &mut [u8]) -> Result<Loaded, RefusedAt>
    ensures trip { let trip = trip_call chart.now buffer.old in
        (answer_at content_of result ≡ trip)
        × (buffer.new ≡ buffer_after chart.now buffer.old)
        × ReadsBack chart.now buffer.old trip }
    ensures chart_fits { (l : Loaded) → result ≡ Ok l → overfull l.chart ≡ false }
{
    narrow(*chart);
    let count = match chart_write::write_chart(chart, buffer) {
        Ok(count) => count,
        Err(refusal) => return Err(RefusedAt { refusal, place: 0 }),
    };
    chart_read::read_chart(&buffer[..count])
}

// Writes two charts, and says whether the files are equal: they are exactly if the charts' levels are. The first writing's refusal, else the
// second's, is decided before either buffer is written, and so leaves both as they were.
pub fn same_files(
    a: &Chart,
    b: &Chart,
    first: &mut [u8],
    second: &mut [u8],
) -> Result<bool, Refusal>
    ensures { let v : Writing = record { chart = a.now; buffer = first.old } in
        let w : Writing = record { chart = b.now; buffer = second.old } in
        Compared v w result first.new second.new }
{
    chart_write::refusal(a, first)?;
    chart_write::refusal(b, second)?;
    let m = chart_write::write_chart(a, first)?;
    let n = chart_write::write_chart(b, second)?;
    narrow(*a);
    narrow(*b);
    Ok(first[..m] == second[..n])
}
