// Observed sets made from one another, as units are added.
#![tactic(auto)]

ghost use Rattle.busset.specs.Sets.{Bus, width, set_of};
ghost use Rattle.grid.specs.Rows.{neighbours};
ghost use Rattle.place_light.specs.Lights.{Lit};

use busset::BusSet;
use grid::Case;

// What is observed if s is and a unit is at x.
pub fn lit(case: &Case, s: BusSet, x: usize) -> BusSet
    requires { Bus width x }
    ensures { Lit (neighbours case.now.nbr) (set_of case.now.zero) (set_of s) x (set_of result) }
{
    let here = case.neighbours(x).with(x);
    observe::set::spread(case, s.union(here))
}
