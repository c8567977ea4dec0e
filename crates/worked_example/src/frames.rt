// The seven bridge lines, and frames that are answered by the first that matches.
use super::{list, say};
use bridge::{Bridge, Row};
use kinds::Line;
use std::io;

// Apart from the packets' lines: what is said of a line, and when, differs, and one function for both would take two closures.
fn make_lines(rt: &HostRuntime) -> io::Result<Vec<Line<Row>>> {
    let mut lines = Vec::new(rt.alloc());
    for Line { row, .. } in seven_lines::lines() {
        let number = lines.len();
        let value = row.value.first >> 56;
        let mask = row.mask.first >> 56;
        println!(rt; "Line {number}: value {value:02x}, mask {mask:02x}")?;
        match list::line::<Bridge>(row) {
            Ok(line) => lines.push(line)?,
            Err(fault) => say::refusal(rt, fault)?,
        }
    }
    Ok(lines)
}

pub(crate) fn run(rt: &HostRuntime) -> io::Result<()> {
    println!(rt; "Seven bridge lines, by their first bytes")?;
    let lines = make_lines(rt)?;
    for first in [0xe0u8, 0x50, 0xa0] {
        println!(rt; "Frame beginning {first:02x}")?;
        let answer = list::answer::<Bridge>(&lines, &seven_lines::frame(first));
        say::answer(rt, answer)?;
    }
    Ok(())
}
