// The rounds report of a case text.
#![tactic(auto)]

ghost use Rattle.grid.specs.Cases.{Valid};
ghost use Rattle.report_lines.specs.Printing.{Printed, PrintedReply};
ghost use Rattle.report_rounds.specs.Rounds.{RoundsReport, RoundsPrinted};

pub mod lines;

use case_read::read_case;
use grid::Case;
use grid::limits::MOST_BUSES;
use lines::put_report;
use refusals::Refusal;
use report_lines::{print, print_refused};

// The report of a case, in the bytes lent.
fn report(case: &Case, out: &mut [u8]) -> Result<usize, Refusal>
    requires { Valid case.now }
    ensures { PrintedReply (RoundsReport case.now) out.old out.new result }
{
    let sets = round_list::rounds(case);
    print(out, |out| put_report(out, &sets))
}

// The report of the case that the text says, or the line of its refusal, in the bytes lent.
pub fn rounds_report(text: &[u8], out: &mut [u8]) -> Result<usize, Refusal>
    ensures { PrintedReply (RoundsPrinted text.now) out.old out.new result }
{
    match read_case(text) {
        Ok(case) => report(&case, out),
        Err(q) => print_refused(out, q),
    }
}

// The most bytes of a report.
pub const ROUNDS_ROOM: usize = 4 + 12 * MOST_BUSES;

// What the program prints, in the bytes that it lends, and its length: no report is longer than they are.
pub fn program_report(text: &[u8], out: &mut [u8; ROUNDS_ROOM]) -> usize
    ensures { Printed (RoundsPrinted text.now) out.old out.new result }
{
    rounds_report(text, out).unwrap_or(0)
}
