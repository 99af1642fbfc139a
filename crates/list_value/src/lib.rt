// A list of steps by value: at most one for each bus.
// No list that replay accepts or weaving writes is longer than the grid has buses.
#![tactic(auto)]

ghost use Rattle.std.specs.Prelude.{◌≡◌, []};
ghost use Rattle.list_value.specs.Lists.{list_of, nth_of};

use fixed_list::FixedList;
use grid::limits::MOST_BUSES;
use step::Step;

pub type StepList = FixedList<Step, MOST_BUSES>;

// The list with no step, and blanks alone.
pub fn no_steps() -> StepList
    ensures { result ≡ list_of [] }
{
    FixedList::blank(Step::default())
}

// The step at i, counted from 0; past the last one a blank.
pub fn nth(l: StepList, i: usize) -> Step
    ensures { result ≡ nth_of l i }
{
    l.get(i).copied().unwrap_or_default()
}
