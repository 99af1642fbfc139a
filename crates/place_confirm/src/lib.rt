// Cross-validation: the units that no other unit confirms.
#![tactic(auto)]

ghost use Rattle.basics.specs.Deciding.{Decides};
ghost use Rattle.busset.specs.Sets.{Bus, width, set_of};
ghost use Rattle.rules.specs.Confirming.{Unconfirmed, UnconfirmedSet};
ghost use Rattle.grid.specs.Rows.{neighbours};
ghost use Rattle.grid.specs.Cases.{Lines};

use busset::BusSet;
use grid::Case;

// Whether a unit is at p that no other unit confirms: none of them is at a neighbour of p, or at a neighbour of one.
pub fn is_unconfirmed(case: &Case, p: usize) -> bool
    requires { Lines case.now.n (neighbours case.now.nbr) × Bus width p }
    ensures { Decides (Unconfirmed (neighbours case.now.nbr) (set_of case.now.units) p) result }
{
    if !case.units.has(p) {
        return false;
    }
    let near = case.with_neighbours(case.neighbours(p));
    let others = case.units.without(p);
    near.both(others).is_none()
}

// The units that no other unit confirms.
pub fn unconfirmed(case: &Case) -> BusSet
    requires { Lines case.now.n (neighbours case.now.nbr) }
    ensures { UnconfirmedSet (neighbours case.now.nbr) (set_of case.now.units) (set_of result) }
{
    let mut alone = BusSet::none();
    for p in case.units {
        if is_unconfirmed(case, p) {
            alone = alone.with(p);
        }
    }
    alone
}
