// The derivation.
#![tactic(auto)]

ghost use Rattle.std.specs.Prelude.{◌≤◌};
ghost use Rattle.busset.specs.Sets.{Within, set_of};
ghost use Rattle.grid.specs.Limits.{most_buses};
ghost use Rattle.grid.specs.Rows.{neighbours};
ghost use Rattle.busset.specs.Held.{SetWord};
ghost use Rattle.grid.specs.Cases.{grid_with, Lines};
ghost use Rattle.list_derive.specs.Deriving.{Derives};
ghost use Rattle.list_derive.specs.Replies.{DerivationReply};

pub mod searching;

use busset::BusSet;
use grid::Case;
use list_value::{StepList, no_steps};
use refusals::Refusal;
use searching::next_step;

// The next step, again and again, until no step is allowed. The sites are whatever they are.
pub fn derive(case: &Case) -> StepList
    requires few { case.now.n ≤ most_buses }
    requires lines { Lines case.now.n (neighbours case.now.nbr) }
    requires zeros { Within case.now.n (set_of case.now.zero) }
    requires units { Within case.now.n (set_of case.now.units) }
    ensures { (sites : SetWord)
        → Derives (grid_with case.now.n case.now.nbr case.now.zero sites case.now.units) result }
{
    let mut s = BusSet::none();
    let mut list = no_steps();
    while let Some(x) = next_step(case, s) {
        list.push(x);
        s = s.with(x.bus);
    }
    list
}

// The one fixed finished list of the case.
pub fn derivation(case: Case) -> Result<StepList, Refusal>
    ensures { DerivationReply case result }
{
    case.check()?;
    Ok(derive(&case))
}
