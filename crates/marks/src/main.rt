// The program `marks` of 01 and 02: prints the 3+N marks of the chart in `chart.dat` over the bars in `bars.dat`, or `refused N at P` alone. It reads
// at most 65,537 and 65,536 bytes: what follows them changes nothing of what is due, nor does `bars.dat` where the chart is refused (`first_bytes` and
// `bars_unread` in marks_file/proofs/Input.antt). No contract can say what is read and written, so what is printed is proved of `marks_of_files`.

#![tactic(auto)]

use std::io;
use std::io::Write;

fn main(rt: HostRuntime) -> io::Result<()> {
    let mut chart = files::chart_room();
    let n = files::read_file(&rt, b"chart.dat", &mut chart);
    let chart = &chart[..n];
    let mut bars = files::bars_room();
    // `bars.dat` is read unless the chart is refused
    let m = if marks_file::chart_refused(chart) {
        0
    } else {
        files::read_file(&rt, b"bars.dat", &mut bars)
    };
    let text = marks_file::marks_of_files(chart, &bars[..m]);
    io::writer(&rt).write_all(text.listed())
}
