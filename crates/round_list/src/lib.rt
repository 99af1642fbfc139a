// Observation in rounds: the engine that a trainer shows, beside the quick one. It is built on the test of one step.
#![tactic(auto)]

ghost use Rattle.std.specs.Prelude.{◌≤◌};
ghost use Rattle.basics.specs.Deciding.{Decides};
ghost use Rattle.busset.specs.Sets.{Bus, width, set_of};
ghost use Rattle.rules.specs.Grids.{Proper};
ghost use Rattle.rules.specs.Rounds.{Gives};
ghost use Rattle.busset.specs.Held.{SetWord};
ghost use Rattle.grid.specs.Cases.{grid_of, grid_with, Valid};
ghost use Rattle.round_list.specs.Rounds.{SomeReason, RoundSet, HasRounds};

use busset::BusSet;
use fixed_list::FixedList;
use grid::Case;
use grid::limits::MOST_BUSES;
use observe::test::{by_unit, by_zero};

// The rounds that add a bus, in order, each the buses that it adds.
pub type RoundSets = FixedList<BusSet, MOST_BUSES>;

// Whether some reason holds for bus b where s is observed: O, and N and Z by each bus that they may name.
// The sites are whatever they are: no reason reads them.
fn has_reason(case: &Case, s: BusSet, b: usize) -> bool
    requires { (case.now.n ≤ width) × Bus width b }
    ensures { (sites : SetWord) → Proper (grid_with case.now.n case.now.nbr case.now.zero sites case.now.units)
        → Decides
        (SomeReason (grid_with case.now.n case.now.nbr case.now.zero sites case.now.units) (set_of s) b)
        result }
{
    case.units.has(b) || (1..case.n + 1).any(|p| by_unit(case, b, p) || by_zero(case, s, b, p))
}

// Whether the round that begins with s adds bus b.
fn is_given(case: &Case, s: BusSet, b: usize) -> bool
    requires { (case.now.n ≤ width) × Bus width b }
    ensures { (sites : SetWord) → Proper (grid_with case.now.n case.now.nbr case.now.zero sites case.now.units)
        → Decides (Gives (grid_with case.now.n case.now.nbr case.now.zero sites case.now.units) (set_of s) b) result }
{
    !s.has(b) && has_reason(case, s, b)
}

// The buses that the round beginning with s adds: every bus is looked at against s itself.
fn round(case: &Case, s: BusSet) -> BusSet
    requires { case.now.n ≤ width }
    ensures { (sites : SetWord) → Proper (grid_with case.now.n case.now.nbr case.now.zero sites case.now.units)
        → RoundSet (grid_with case.now.n case.now.nbr case.now.zero sites case.now.units) (set_of s) (set_of result) }
{
    let mut new = BusSet::none();
    for b in 1..=case.n {
        if is_given(case, s, b) {
            new = new.with(b);
        }
    }
    new
}

// Round after round, until one adds no bus.
pub fn rounds(case: &Case) -> RoundSets
    requires { Valid case.now }
    ensures { HasRounds (grid_of case.now) result.items }
{
    let mut sets = RoundSets::blank(BusSet::none());
    let mut s = BusSet::none();
    loop {
        let new = round(case, s);
        if new.is_none() {
            return sets;
        }
        sets.push(new);
        s = s.union(new);
    }
}
