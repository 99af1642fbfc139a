// The cut of the search for the fewest: where no more of the sites can help.
ghost use Rattle.std.specs.Prelude.{IfSome};
ghost use Rattle.busset.specs.Sets.{set_of};
ghost use Rattle.grid.specs.Rows.{neighbours};
ghost use Rattle.grid.specs.Cases.{bare_grid};
ghost use Rattle.place_light.specs.Ways.{Cut};
ghost use Rattle.place_bound.specs.Branches.{Asks, Keeping, ToTry, Open};

use crate::groups::beside;
use busset::BusSet;
use grid::Case;
use observe::set::{observed, spread};
use place_pool::{Pool, ask_kept, has_enough, keep};

// Keeps groups of the free sites that the units do not meet. None has a site of another. More than `budget` are enough.
pub fn seed(case: &Case, free: BusSet, units: BusSet, budget: usize, pool: &mut Pool)
    requires { Asks case.now.n (neighbours case.now.nbr) (set_of free) (set_of free) budget }
    ensures { Keeping (bare_grid case.now.n case.now.nbr case.now.zero) (set_of free) (set_of units)
        pool.old.items pool.new.items (λ g. Unit {0}) }
{
    let mut s = observed(case, units);
    for _ in 0..=budget {
        if case.is_full(s) {
            return;
        }
        let group = beside(case, free, s, free);
        keep(pool, group);
        s = spread(case, s.union(case.with_neighbours(group)));
    }
}

// A group that the units do not meet, to try its sites: the smallest that is kept, or a new one, which is then kept.
// A cover by further sites has one of these. None, if the units cover.
pub fn next_branch(
    case: &Case,
    free: BusSet,
    units: BusSet,
    sites: BusSet,
    k: usize,
    pool: &mut Pool,
) -> Option<BusSet>
    requires { Asks case.now.n (neighbours case.now.nbr) (set_of free) (set_of sites) k }
    ensures { IfSome result (λ t. Open (set_of sites) k (set_of t))
        × Keeping (bare_grid case.now.n case.now.nbr case.now.zero) (set_of free) (set_of units)
        pool.old.items pool.new.items
        (λ g. IfSome result (λ t. ToTry g (set_of sites) k (set_of sites) (set_of t))) }
{
    let a = ask_kept(pool, units, sites, k);
    if a.apart > k {
        return Some(BusSet::none());
    }
    if a.apart > 0 {
        return Some(a.tries.both(sites));
    }
    let s = observed(case, units);
    if case.is_full(s) {
        return None;
    }
    if has_enough(pool, k) {
        return Some(BusSet::none());
    }
    let group = beside(case, free, s, sites);
    keep(pool, group);
    if k == 0 {
        return Some(BusSet::none());
    }
    Some(group.both(sites))
}

// Says yes only where no k of the sites, added to the units, make all buses observed.
// Such a cover has a site of the group, and each of these, tried in turn, leaves no cover of k - 1.
pub fn is_hopeless(
    case: &Case,
    free: BusSet,
    units: BusSet,
    sites: BusSet,
    k: usize,
    pool: &mut Pool,
) -> bool
    requires { Asks case.now.n (neighbours case.now.nbr) (set_of free) (set_of sites) k }
    ensures { Keeping (bare_grid case.now.n case.now.nbr case.now.zero) (set_of free) (set_of units)
        pool.old.items pool.new.items (λ g. Cut g (set_of sites) k result) }
{
    let Some(tries) = next_branch(case, free, units, sites, k, pool) else {
        return false;
    };
    let mut left = sites;
    for x in tries {
        left = left.without(x);
        if !is_hopeless(case, free, units.with(x), left, k - 1, pool) {
            return false;
        }
    }
    true
}
