// The calls on a case, and on a stated set of observed buses: the observed set, a firing figure, the test of one step.
#![tactic(auto)]

ghost use Rattle.observe_calls.specs.Replies.{ObservedReply, FigureReply, StepReply};

use busset::{BusSet, is_bus};
use grid::Case;
use refusals::Refusal;
use step::Step;

// The observed set of the case.
pub fn observed_set(case: Case) -> Result<BusSet, Refusal>
    ensures { ObservedReply case result }
{
    case.check()?;
    Ok(observe::set::observed(&case, case.units))
}

// The firing figure of bus i towards its neighbour j, where the buses of s are observed.
pub fn firing_figure(case: Case, s: BusSet, i: usize, j: usize) -> Result<i32, Refusal>
    ensures { FigureReply case s i j result }
{
    case.check()?;
    if !is_bus(case.n, i) {
        return Err(Refusal::NoSuchBus(0));
    }
    if !is_bus(case.n, j) {
        return Err(Refusal::NoSuchBus(0));
    }
    if !case.neighbours(i).has(j) {
        return Err(Refusal::NotJoined);
    }
    Ok(observe::figure::figure_of(&case, s.up_to(case.n), i, j))
}

// Whether the step is allowed where the buses of s are observed: it is step 1, and buses above n are ignored.
pub fn test_step(case: Case, s: BusSet, x: Step) -> Result<(), Refusal>
    ensures { StepReply case s x result }
{
    case.check()?;
    observe::test::tested_at(&case, s.up_to(case.n), x, 1)
}
