// The planning program: a plan line and a case text on standard input, its report on standard output.
#![tactic(auto)]

use grid::limits::MOST_BYTES;
use report_plan::{PLAN_ROOM, program_report};

// One byte more than an input may have.
const INPUT_ROOM: usize = MOST_BYTES + 1;

fn main() {
    let mut input: [u8; INPUT_ROOM] = [0; INPUT_ROOM];
    let mut out: [u8; PLAN_ROOM] = [0; PLAN_ROOM];
    let n = io::read_full(0, &mut input);
    let k = program_report(&input[..n], &mut out);
    io::write_all(1, &out[..k]);
}
