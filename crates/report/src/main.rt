// Prints every result of the chart in `chart.dat` over the bars in `bars.dat`, or `refused N at P` alone; two arguments name other files. As many
// bytes are read as decide what is printed: one more of the chart file than it may have, and more of the bars file than 2,048 bars take.

#![tactic(auto)]

use std::io;
use std::io::{BufWriter, Write};

fn main(rt: HostRuntime) -> io::Result<()> {
    let mut chart = files::chart_room();
    let n = files::read_argument(&rt, 1, b"chart.dat", &mut chart);
    let mut bars = files::bars_room();
    let m = files::read_argument(&rt, 2, b"bars.dat", &mut bars);
    let mut out = BufWriter::new(rt.alloc(), io::writer(&rt))?;
    sections::print_report(&mut out, &chart[..n], &bars[..m])?;
    out.flush()
}
