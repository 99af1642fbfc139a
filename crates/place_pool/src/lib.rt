// The groups that are kept: sets of sites, of which every cover has one. What makes a group is the case alone. So one
// that is found anywhere in the search serves all of it.
#![tactic(auto)]

ghost use Rattle.std.specs.Prelude.{◌≡◌, true, ℕ, ◌≤◌};
ghost use Rattle.busset.specs.Sets.{Sub, empty, meet, size, set_of, width};
ghost use Rattle.place_pool.specs.Pool.{KeptWith};
ghost use Rattle.place_pool.specs.Asking.{MeetsKept, Says, Smaller, SaysBeside, SaysMore, SaysUnmet};

use busset::BusSet;
use fixed_list::FixedList;

// How many groups are kept.
pub const MOST_KEPT: usize = 1000;

// How many are enough for a call that places no more units.
pub const ENOUGH_KEPT: usize = 200;

// The oldest first; an empty one ends them.
pub type Pool = FixedList<BusSet, MOST_KEPT>;

// What the groups that were asked say of a cover by at most k further sites.
#[derive(Clone, Copy)]
pub struct Hints {
    // its sites are some of these
    pub left: BusSet,
    // one of its sites is one of these, once a group was asked
    pub tries: BusSet,
    // how many these are
    pub least: usize,
    // the sites of groups that have none in common
    pub used: BusSet,
    // how many groups these are
    pub apart: usize,
}

// ---- the pool

// Keeps a group, in place of the oldest if there is no room. The oldest goes for an empty one too, which is not put.
pub fn keep(pool: &mut Pool, group: BusSet)
    ensures { KeptWith pool.old.items (set_of group) pool.new.items }
{
    if pool.is_full() {
        pool.drop_first();
    }
    if !group.is_none() {
        pool.push(group);
    }
}

// Whether a call that places k more units looks for no group: it places none, and enough are kept.
pub fn has_enough(pool: &Pool, k: usize) -> bool
    ensures { result ≡ true → k ≡ 0 }
{
    k == 0 && pool.len() > ENOUGH_KEPT
}

// ---- what the groups say

// A group of which a cover has one of `choice`: these are the sites to try, if they are fewer.
pub fn smaller(a: Hints, choice: BusSet) -> Hints
    ensures { Smaller a (set_of choice) result }
{
    let size = choice.count();
    if a.apart > 0 && a.least <= size {
        return a;
    }
    Hints {
        tries: choice,
        least: size,
        ..a
    }
}

// A group that shares a site with those found apart. A single unit must be on one of its sites.
pub fn shared(a: Hints, choice: BusSet, k: usize) -> Hints
    requires { a.apart ≤ k }
    ensures { SaysBeside k a (set_of choice) result }
{
    if k == 1 {
        return Hints { left: choice, ..a };
    }
    a
}

// A group that is apart from those found. If these are k then, the k units must be on their sites.
pub fn apart(a: Hints, choice: BusSet, k: usize) -> Hints
    requires { (k ≤ width) × (a.apart ≤ k) × (meet (set_of choice) (set_of a.used) ≡ empty) }
    ensures { SaysBeside k a (set_of choice) result }
{
    let used = a.used.union(choice);
    let apart = a.apart + 1;
    if apart == k {
        let left = a.left.both(used);
        return Hints {
            left,
            used,
            apart,
            ..a
        };
    }
    Hints { used, apart, ..a }
}

// A group that the units do not meet: a cover has one of its sites that are left. If none is left, it says that more
// than k are apart.
pub fn with_group(a: Hints, group: BusSet, k: usize) -> Hints
    requires { (k ≤ width) × (a.apart ≤ k) }
    ensures { SaysMore k a (set_of group) result }
{
    let choice = group.both(a.left);
    if choice.is_none() {
        return Hints {
            left: choice,
            tries: choice,
            least: 0,
            used: choice,
            apart: k + 1,
        };
    }
    let b = smaller(a, choice);
    if choice.both(b.used).is_none() {
        return apart(b, choice, k);
    }
    shared(b, choice, k)
}

// What is said once this group is asked too: nothing new, if the units meet it.
pub fn ask(a: Hints, group: BusSet, units: BusSet, k: usize) -> Hints
    requires { (k ≤ width) × (a.apart ≤ k) }
    ensures { SaysUnmet k a (set_of group) (set_of units) result }
{
    if group.both(units).is_none() {
        return with_group(a, group, k);
    }
    a
}

// What the kept groups say of a cover by the units and at most k of the sites. It stops where more than k are apart.
pub fn ask_kept(pool: &Pool, units: BusSet, sites: BusSet, k: usize) -> Hints
    requires { k ≤ width }
    ensures { (v : ℕ) → size v ≤ k → Sub v (set_of sites) → MeetsKept pool.now.items (set_of units) v
        → Says result v }
{
    let mut a = Hints {
        left: sites,
        tries: sites,
        least: 0,
        used: BusSet::none(),
        apart: 0,
    };
    for &group in pool.iter() {
        if group.is_none() {
            return a;
        }
        a = ask(a, group, units, k);
        if a.apart > k {
            return a;
        }
    }
    a
}
