// The fewest units: the search, and its sizes tried one after another.
#![tactic(auto)]

ghost use Rattle.std.specs.Prelude.{◌≤◌};
ghost use Rattle.grid.specs.Limits.{most_budget};
ghost use Rattle.busset.specs.Sets.{width, set_of};
ghost use Rattle.rules.specs.Grids.{Proper};
ghost use Rattle.grid.specs.Rows.{neighbours};
ghost use Rattle.grid.specs.Cases.{grid_of, bare_grid};
ghost use Rattle.place_bound.specs.Branches.{Asks, Keeping};
ghost use Rattle.place_fewest.specs.Answers.{FoundIs, FewestIs};

use busset::BusSet;
use grid::Case;
use observe::set::observed;
use place_bound::hopeless::{is_hopeless, seed};
use place_pool::Pool;

// The first k of the sites, by their rising lists, that make all buses observed beside the units.
pub fn search(
    case: &Case,
    free: BusSet,
    units: BusSet,
    sites: BusSet,
    k: usize,
    pool: &mut Pool,
) -> Option<BusSet>
    requires { Asks case.now.n (neighbours case.now.nbr) (set_of free) (set_of sites) k }
    ensures { Keeping (bare_grid case.now.n case.now.nbr case.now.zero) (set_of free) (set_of units)
        pool.old.items pool.new.items (λ g. FoundIs g (set_of sites) k result) }
{
    if k == 0 {
        if case.is_full(observed(case, units)) {
            return Some(BusSet::none());
        }
        return None;
    }
    if is_hopeless(case, free, units, sites, k, pool) {
        return None;
    }
    let mut above = sites;
    for x in sites {
        above = above.without(x);
        if let Some(m) = search(case, free, units.with(x), above, k - 1, pool) {
            return Some(m.with(x));
        }
    }
    None
}

// The fewest units within the budget: the sizes are tried from 0 on, and each finds the groups of those before it kept.
pub fn fewest(case: &Case, budget: usize) -> Option<BusSet>
    requires { (case.now.n ≤ width) × Proper (grid_of case.now) × (budget ≤ most_budget case.now.n) }
    ensures { FewestIs (grid_of case.now) budget result }
{
    let free = case.site.minus(case.units);
    let mut pool = Pool::blank(BusSet::none());
    seed(case, free, case.units, budget, &mut pool);
    for k in 0..=budget {
        if let Some(m) = search(case, free, case.units, free, k, &mut pool) {
            return Some(m);
        }
    }
    None
}
