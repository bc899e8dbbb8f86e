// What the program `marks` prints of its two files, as bytes.

#![tactic(auto)]

ghost use Rattle.std.specs.Prelude.{◌≡◌, false, not, Ok, IfOk};
ghost use Rattle.price.specs.Price.{is_price};
ghost use Rattle.chart.specs.declared.NMark.{NMark};
ghost use Rattle.rows.specs.Rows.{rows_in};
ghost use Rattle.rules.specs.Answer.{answer_at, is_refused};
ghost use Rattle.rules.specs.Lists.{any};
ghost use Rattle.rules.specs.Refusals.{overfull};
ghost use Rattle.rules.specs.Program.{chart_read, marks_output};
ghost use Rattle.chart_read.specs.Heads.{content_of};
ghost use Rattle.marks_file.specs.Printed.{text_of};

use chart::{NMark, Refusal, RefusedAt};
use chart_read::Loaded;
use rows::Rows;
use text::Text;

// The chart of a file, as the programs read it: one above 65,536 bytes is refused with 3 at 65536.
pub fn load_chart(file: &[u8]) -> Result<Loaded, RefusedAt>
    ensures chart_value { answer_at content_of result ≡ chart_read file.now }
    ensures chart_fits { IfOk result (λ l. overfull l.chart ≡ false) }
{
    if 65536 < file.len() {
        return Err(RefusedAt {
            refusal: Refusal::Full,
            place: 65536,
        });
    }
    chart_read::read_chart(file)
}

// Whether a chart file is refused: what the bars file holds matters only where it is not (`bars_unread` in proofs/Input.antt).
pub fn chart_refused(file: &[u8]) -> bool
    ensures { result ≡ is_refused (chart_read file.now) }
{
    load_chart(file).is_err()
}

// The 3+N marks of a chart file over a bars file. There are places for 2,048 bars; the next is refused with 3. Where the mark call refuses, the place
// is 0.
fn marks_in(chart: &[u8], bars: &[u8]) -> Result<Rows<NMark, 512>, RefusedAt>
    ensures marks_value { text_of result ≡ marks_output chart.now bars.now }
    ensures priced { IfOk result (λ marks. any (λ (m : NMark). not (is_price m.price)) (rows_in marks) ≡ false) }
{
    let loaded = load_chart(chart)?;
    let mut highs = [0.0; 2048];
    let mut lows = [0.0; 2048];
    let n = bars_read::read_bars(bars, &mut highs, &mut lows)?;
    let found = three_n::bigseg_3n_marks_all_zhongshu(&loaded.chart, &highs[..n], &lows[..n]);
    found.map_err(|refusal| RefusedAt { refusal, place: 0 })
}

// What the program `marks` prints of what its files hold: a line per mark, or the refusal alone. Lent the first 65,537 bytes of the chart file and the
// first 65,536 of the bars file, or all where they are shorter, it gives what is due for the whole files (`first_bytes` in proofs/Input.antt).
pub fn marks_of_files(chart: &[u8], bars: &[u8]) -> Text
    ensures { rows_in result ≡ marks_output chart.now bars.now }
{
    match marks_in(chart, bars) {
        Ok(marks) => mark_text::marks_text(marks.listed()),
        Err(refused) => mark_text::refused_line(refused.refusal.number(), refused.place),
    }
}
