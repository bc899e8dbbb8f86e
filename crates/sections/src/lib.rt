// What `report` prints of a chart file and a bars file: a section for each call that is built. Of printing only safety is proved; each row comes from a
// proved call.

#![tactic(auto)]

use chart::{Chart, Range, Refusal, RefusedAt};
use chart_read::Loaded;
use printing::{Extent, print_section};
use rows::Rows;
use std::io;
use std::io::Write;

// The ranges and end points of all bigs. Both calls are refused with 21 only, which is asked for also where there is no big.
fn extents(chart: &Chart) -> Result<Rows<Extent, 256>, Refusal> {
    levels::resolve_sup_end_point(chart, 0)?;
    let mut rows = Rows::new(Extent {
        range: Range::Missing,
        end_point: None,
    });
    for k in 0..chart.big_count.min(256) {
        rows.push(Extent {
            range: levels::resolve_bigseg_range(chart, chart.bigs[k as usize])?,
            end_point: levels::resolve_sup_end_point(chart, k)?,
        });
    }
    Ok(rows)
}

// All sections of a chart and its bars.
fn print_sections<W: Write>(
    out: &mut W,
    chart: &Chart,
    highs: &[f64],
    lows: &[f64],
) -> io::Result<()> {
    print_section(out, "RANGES", extents(chart))?;
    print_section(
        out,
        "ZONES",
        zones::detect_bigseg_zhongshus_by_overlap(chart),
    )?;
    print_section(
        out,
        "THIRD",
        third::bigseg_third_marks_all_zhongshu(chart, highs, lows),
    )?;
    print_section(
        out,
        "THREEN",
        three_n::bigseg_3n_marks_all_zhongshu(chart, highs, lows),
    )?;
    print_section(out, "LABELS", labels::detect_bigseg_trend_zhongshus(chart))?;
    print_case3_sections(out, chart)
}

// Those with a case-3 byte, 0 and then 1.
fn print_case3_sections<W: Write>(out: &mut W, chart: &Chart) -> io::Result<()> {
    for case3 in 0..2 {
        let found = classes::classify_big_segments(chart, case3);
        print_section(out, format_args!("CLASSES seg case3={case3}"), found)?;
    }
    for case3 in 0..2 {
        let found = classes::classify_sup_segments(chart, case3);
        print_section(out, format_args!("CLASSES big case3={case3}"), found)?;
    }
    for case3 in 0..2 {
        let found = first_marks::detect_bigseg_first_buy_markers(chart, case3);
        print_section(out, format_args!("FIRSTBUY case3={case3}"), found)?;
    }
    for case3 in 0..2 {
        let found = first_marks::detect_bigseg_first_sell_markers(chart, case3);
        print_section(out, format_args!("FIRSTSELL case3={case3}"), found)?;
    }
    Ok(())
}

// The chart of a file, and how many bars of the other are put into the slices.
fn read_both(
    chart: &[u8],
    bars: &[u8],
    highs: &mut [f64],
    lows: &mut [f64],
) -> Result<(Loaded, usize), RefusedAt> {
    let loaded = marks_file::load_chart(chart)?;
    let count = bars_read::read_bars(bars, highs, lows)?;
    Ok((loaded, count))
}

// How many BR records were passed over, and all sections, or `refused N at P` alone, with the limits of the program `marks`.
pub fn print_report<W: Write>(out: &mut W, chart: &[u8], bars: &[u8]) -> io::Result<()> {
    let mut highs = [0.0; 2048];
    let mut lows = [0.0; 2048];
    match read_both(chart, bars, &mut highs, &mut lows) {
        Ok((loaded, count)) => {
            let n = count.min(2048);
            writeln!(out, "PASSED {}", loaded.passed)?;
            print_sections(out, &loaded.chart, &highs[..n], &lows[..n])
        }
        Err(refused) => writeln!(out, "{refused}"),
    }
}
