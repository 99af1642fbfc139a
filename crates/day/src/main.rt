// The day report: a case text on standard input, its report on standard output.
#![tactic(auto)]

use grid::limits::MOST_BYTES;
use report_day::{DAY_ROOM, program_report};

// One byte more than a case text may have.
const INPUT_ROOM: usize = MOST_BYTES + 1;

fn main() {
    let mut text: [u8; INPUT_ROOM] = [0; INPUT_ROOM];
    let mut out: [u8; DAY_ROOM] = [0; DAY_ROOM];
    let n = io::read_full(0, &mut text);
    let k = program_report(&text[..n], &mut out);
    io::write_all(1, &out[..k]);
}
