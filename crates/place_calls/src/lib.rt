// The siting group's calls: cross-validation, greedy placement and the fewest units.
#![tactic(auto)]

ghost use Rattle.place_calls.specs.Replies.{VerdictReply, GreedyReply, FewestReply};

use busset::BusSet;
use grid::Case;
use grid::limits::{MOST_GREEDY_BUDGET, most_budget};
use place_confirm::unconfirmed;
use place_fewest::fewest;
use place_greedy::greedy;
use refusals::Refusal;

// The units that no other unit confirms: the verdict is yes where there are none.
pub fn cross_validate(case: Case) -> Result<BusSet, Refusal>
    ensures { VerdictReply case result }
{
    case.check()?;
    Ok(unconfirmed(&case))
}

// The sites that greedy adds within the budget, in the order added, into the room lent.
pub fn place_greedy(case: Case, budget: usize, room: &mut [usize]) -> Result<usize, Refusal>
    ensures { GreedyReply case budget room.old room.new result }
{
    case.check()?;
    if MOST_GREEDY_BUDGET < budget {
        return Err(Refusal::OverBudget(0));
    }
    let sites = greedy(&case, budget);
    let count = sites.len();
    if room.len() < count {
        return Err(Refusal::NoRoom);
    }
    room[..count].copy_from_slice(&sites);
    Ok(count)
}

// The sites of the fewest new units within the budget that make all buses observed.
pub fn place_fewest(case: Case, budget: usize) -> Result<BusSet, Refusal>
    ensures { FewestReply case budget result }
{
    case.check()?;
    if most_budget(case.n) < budget {
        return Err(Refusal::OverBudget(0));
    }
    fewest(&case, budget).ok_or(Refusal::NoCover)
}
