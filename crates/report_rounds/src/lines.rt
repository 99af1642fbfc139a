// The lines of a rounds report.
ghost use Rattle.std.specs.Prelude.{List, ℕ, ◌+◌, ◌*◌, ◌^◌, ◌≤◌, ◌<◌};
ghost use Rattle.busset.specs.Sets.{width};
ghost use Rattle.grid.specs.Limits.{most_buses};
ghost use Rattle.text_put.specs.Put.{Put};
ghost use Rattle.round_list.specs.Rounds.{HoldsBuses, each_bus, HeldRounds};
ghost use Rattle.report_rounds.specs.Rounds.{round_line, round_lines, rounds_text};
ghost use Rattle.report_rounds.specs.Lines.{tabbed, buses_reach, line_reach};

use busset::BusSet;
use text_put::{put_all, put_byte, put_tagged};

// A tab and a number for each bus, rising.
fn put_buses(out: &mut [u8], at: usize, r: BusSet) -> usize
    requires { at < 2 ^ 28 }
    ensures { (result ≤ at + buses_reach) × ((buses : List ℕ) → HoldsBuses r buses
        → Put out.old at (each_bus tabbed buses) out.new result) }
{
    let mut k = at;
    for b in r {
        k = put_tagged(out, k, b"\t", b);
    }
    k
}

// `round`, its number i and its buses.
fn put_round(out: &mut [u8], at: usize, i: usize, r: BusSet) -> usize
    requires { (at < 2 ^ 20) × (i ≤ width) }
    ensures { (result ≤ at + line_reach) × ((buses : List ℕ) → HoldsBuses r buses
        → Put out.old at (round_line i buses) out.new result) }
{
    let a = put_tagged(out, at, b"round\t", i);
    let b = put_buses(out, a, r);
    put_byte(out, b, b'\n')
}

// A line for each round, from the first byte on.
fn put_rounds(out: &mut [u8], sets: &[BusSet]) -> usize
    requires { (rounds : List (List ℕ)) × HeldRounds sets.now rounds }
    ensures { (result ≤ line_reach * most_buses) × ((rounds : List (List ℕ)) → HeldRounds sets.now rounds
        → Put out.old 0 (round_lines 1 rounds) out.new result) }
{
    let mut k = 0;
    for (i, &r) in sets.iter().enumerate() {
        k = put_round(out, k, i + 1, r);
    }
    k
}

// The whole report from the first byte on, and its length.
pub fn put_report(out: &mut [u8], sets: &[BusSet]) -> usize
    requires { (rounds : List (List ℕ)) × HeldRounds sets.now rounds }
    ensures { (rounds : List (List ℕ)) → HeldRounds sets.now rounds
        → Put out.old 0 (rounds_text rounds) out.new result }
{
    let a = put_rounds(out, sets);
    put_all(out, a, b"end\n")
}
