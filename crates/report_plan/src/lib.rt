// The planning program's reply to an input.
#![tactic(auto)]

ghost use Rattle.grid.specs.Cases.{Valid};
ghost use Rattle.report_lines.specs.Printing.{Printed, PrintedReply};
ghost use Rattle.report_plan.specs.Plan.{PlanReport, PlanPrinted};

mod printing;

use grid::Case;
use grid::limits::{LARGEST_BUDGET, most_budget};
use place_fewest::fewest;
use plan_input::{Asked, read_plan};
use printing::put_plan;
use refusals::Refusal;
use report_lines::{print, print_refused};

// The fewest of a case within the budget, or the line of the refusal.
fn report(case: &Case, budget: usize, out: &mut [u8]) -> Result<usize, Refusal>
    requires { Valid case.now }
    ensures { PrintedReply (PlanReport case.now budget) out.old out.new result }
{
    if most_budget(case.n) < budget {
        return print_refused(out, Refusal::OverBudget(1));
    }
    match fewest(case, budget) {
        Some(sites) => print(out, |out| put_plan(out, case.n, sites)),
        None => print_refused(out, Refusal::NoCover),
    }
}

// The fewest of the case that the input says, or the line of its refusal, in the bytes lent.
pub fn plan_report(input: &[u8], out: &mut [u8]) -> Result<usize, Refusal>
    ensures { PrintedReply (PlanPrinted input.now) out.old out.new result }
{
    match read_plan(input) {
        Ok(Asked { budget, case }) => report(&case, budget, out),
        Err(q) => print_refused(out, q),
    }
}

// The most bytes of a reply.
pub const PLAN_ROOM: usize = 13 + 7 * LARGEST_BUDGET;

// What the program prints, in the bytes that it lends, and its length: no reply is longer than they are.
pub fn program_report(input: &[u8], out: &mut [u8; PLAN_ROOM]) -> usize
    ensures { Printed (PlanPrinted input.now) out.old out.new result }
{
    plan_report(input, out).unwrap_or(0)
}
