// The day report of a case text.
#![tactic(auto)]

ghost use Rattle.grid.specs.Cases.{Valid};
ghost use Rattle.report_lines.specs.Printing.{Printed, PrintedReply};
ghost use Rattle.report_day.specs.Day.{DayReport, DayPrinted};

pub mod lines;

use case_read::read_case;
use grid::Case;
use grid::limits::MOST_BUSES;
use lines::put_day;
use list_derive::derive;
use place_confirm::unconfirmed;
use refusals::Refusal;
use report_lines::{print, print_refused};

// The report of a case, in the bytes lent.
fn report(case: &Case, out: &mut [u8]) -> Result<usize, Refusal>
    requires { Valid case.now }
    ensures { PrintedReply (DayReport case.now) out.old out.new result }
{
    let steps = derive(case);
    let alone = unconfirmed(case).count();
    print(out, |out| put_day(out, case.n, &steps, alone))
}

// The report of the case that the text says, or the line of its refusal, in the bytes lent.
pub fn day_report(text: &[u8], out: &mut [u8]) -> Result<usize, Refusal>
    ensures { PrintedReply (DayPrinted text.now) out.old out.new result }
{
    match read_case(text) {
        Ok(case) => report(&case, out),
        Err(q) => print_refused(out, q),
    }
}

// The most bytes of a report.
pub const DAY_ROOM: usize = 28 + 13 * MOST_BUSES;

// What the program prints, in the bytes that it lends, and its length: no report is longer than they are.
pub fn program_report(text: &[u8], out: &mut [u8; DAY_ROOM]) -> usize
    ensures { Printed (DayPrinted text.now) out.old out.new result }
{
    day_report(text, out).unwrap_or(0)
}
