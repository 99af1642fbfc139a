// Groups of sites of which every cover has one: how one is found.
ghost use Rattle.std.specs.Prelude.{◌≤◌};
ghost use Rattle.busset.specs.Sets.{Bus, Within, width, set_of};
ghost use Rattle.grid.specs.Rows.{neighbours};
ghost use Rattle.grid.specs.Cases.{Lines};
ghost use Rattle.place_bound.specs.Shrinking.{Shrunk, Outside, Beside};

use busset::BusSet;
use grid::Case;

// c with a trial unit at x, unless c then has all buses.
pub fn tried(case: &Case, c: BusSet, x: usize) -> BusSet
    requires { (case.now.n ≤ width) × Bus width x }
    ensures { Shrunk case.now.n (neighbours case.now.nbr) (set_of case.now.zero) (set_of c) (set_of result) }
{
    let here = case.neighbours(x).with(x);
    if here.is_subset(c) {
        return c;
    }
    let d = place_light::lit(case, c, x);
    if case.is_full(d) {
        return c;
    }
    d
}

// c with trial units at the sites, the highest first, as many as leave a bus missing: what it misses becomes small.
// The search tries the lowest first, and finds fewer groups if these have low sites.
pub fn shrunk(case: &Case, c: BusSet, sites: BusSet) -> BusSet
    requires { case.now.n ≤ width }
    ensures { Shrunk case.now.n (neighbours case.now.nbr) (set_of case.now.zero) (set_of c) (set_of result) }
{
    let mut r = c;
    for x in sites.into_iter().rev() {
        r = tried(case, r, x);
    }
    r
}

// The sites on or next to a bus that c misses.
pub fn group(case: &Case, sites: BusSet, c: BusSet) -> BusSet
    requires { (case.now.n ≤ width) × Lines case.now.n (neighbours case.now.nbr) × Within case.now.n (set_of sites) }
    ensures { Outside (neighbours case.now.nbr) (set_of sites) (set_of c) (set_of result) }
{
    let dark = BusSet::all(case.n).minus(c);
    sites.both(case.with_neighbours(dark))
}

// A group of the free sites that units which observe s do not meet. Trial units go on the open sites last, so that few
// of these are in it.
pub fn beside(case: &Case, free: BusSet, s: BusSet, sites: BusSet) -> BusSet
    requires { (case.now.n ≤ width) × Lines case.now.n (neighbours case.now.nbr) × Within case.now.n (set_of free) }
    ensures { Beside case.now.n (neighbours case.now.nbr) (set_of case.now.zero) (set_of free) (set_of s)
        (set_of result) }
{
    let c = shrunk(case, s, free.minus(sites));
    let d = shrunk(case, c, sites);
    group(case, free, d)
}
