// The observed set: what the units give by O1, spread by O2.
ghost use Rattle.std.specs.Prelude.{◌≡◌, ℕ};
ghost use Rattle.busset.specs.Sets.{lack, size, set_of};
ghost use Rattle.rules.specs.Observation.{ObservedSet};
ghost use Rattle.grid.specs.Rows.{neighbours};
ghost use Rattle.grid.specs.Cases.{grid_with};
ghost use Rattle.observe.specs.Passes.{Fires, Swept, Spread};

use busset::BusSet;
use grid::Case;

// The buses m that are not in s, counted one after another.
pub fn count_unknown(m: BusSet, s: BusSet) -> usize
    ensures { result ≡ size (lack (set_of m) (set_of s)) }
{
    let mut unknown: usize = 0;
    for _b in m.minus(s) {
        unknown += 1;
    }
    unknown
}

// A Z bus of s with the neighbours m fires, where it can.
pub fn fire(m: BusSet, s: BusSet) -> BusSet
    ensures { Fires (set_of m) (set_of s) (set_of result) }
{
    if count_unknown(m, s) == 1 {
        s.union(m)
    } else {
        s
    }
}

// Each Z bus of s fires, where it can.
pub fn sweep(case: &Case, s: BusSet) -> BusSet
    ensures { Swept (neighbours case.now.nbr) (set_of case.now.zero) (set_of s) (set_of result) }
{
    let mut r = s;
    for w in case.zero.both(s) {
        r = fire(case.neighbours(w), r);
    }
    r
}

// The smallest set that holds s and satisfies O2: sweeps, until one changes nothing.
pub fn spread(case: &Case, s: BusSet) -> BusSet
    ensures { Spread (neighbours case.now.nbr) (set_of case.now.zero) (set_of s) (set_of result) }
{
    let mut t = s;
    loop {
        let r = sweep(case, t);
        if r == t {
            return t;
        }
        t = r;
    }
}

// What units on the grid of the case observe, its own or others, whatever n and the sites are: no rule reads them.
pub fn observed(case: &Case, units: BusSet) -> BusSet
    ensures { (n sites : ℕ) → ObservedSet (grid_with n case.now.nbr case.now.zero sites units) (set_of result) }
{
    spread(case, case.with_neighbours(units))
}
