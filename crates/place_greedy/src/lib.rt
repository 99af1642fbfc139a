// Greedy placement: the best site, one after another.
#![tactic(auto)]

ghost use Rattle.std.specs.Prelude.{ℕ, ◌≤◌};
ghost use Rattle.grid.specs.Limits.{most_greedy_budget};
ghost use Rattle.busset.specs.Sets.{set_of};
ghost use Rattle.rules.specs.Choosing.{GreedyList};
ghost use Rattle.grid.specs.Cases.{grid_with, bare_grid};
ghost use Rattle.place_greedy.specs.Choices.{Chooses};

use busset::BusSet;
use fixed_list::FixedList;
use grid::Case;
use grid::limits::MOST_GREEDY_BUDGET;

// Sites in the order added.
pub type SiteList = FixedList<usize, MOST_GREEDY_BUDGET>;

// The free site that makes the observed set largest where s is observed, the lowest number on a tie;
// none where none adds a bus.
pub fn best(case: &Case, s: BusSet, free: BusSet) -> Option<usize>
    ensures { (n : ℕ) → Chooses (bare_grid n case.now.nbr case.now.zero) (set_of s) (set_of free) result }
{
    let mut site = None;
    let mut most = s.count();
    for x in free {
        let size = place_light::lit(case, s, x).count();
        if most < size {
            site = Some(x);
            most = size;
        }
    }
    site
}

// The sites that greedy adds within the budget.
pub fn greedy(case: &Case, budget: usize) -> SiteList
    requires { budget ≤ most_greedy_budget }
    ensures { (n : ℕ)
        → GreedyList (grid_with n case.now.nbr case.now.zero case.now.site case.now.units) budget result.items }
{
    let mut sites = FixedList::blank(0);
    let mut placed = case.units;
    let mut s = observe::set::observed(case, placed);
    for _ in 0..budget {
        let Some(x) = best(case, s, case.site.minus(placed)) else {
            return sites;
        };
        sites.push(x);
        placed = placed.with(x);
        s = place_light::lit(case, s, x);
    }
    sites
}
