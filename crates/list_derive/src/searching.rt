// The next step of the derivation: a nested search over buses and their reasons, left at the first allowed step.
ghost use Rattle.std.specs.Prelude.{◌≤◌};
ghost use Rattle.busset.specs.Sets.{Within, set_of};
ghost use Rattle.grid.specs.Limits.{most_buses};
ghost use Rattle.grid.specs.Rows.{neighbours};
ghost use Rattle.busset.specs.Held.{SetWord};
ghost use Rattle.grid.specs.Cases.{grid_with, Lines};
ghost use Rattle.list_derive.specs.Searching.{NextAnswer};

use busset::BusSet;
use grid::Case;
use observe::test::{by_unit, by_zero};
use step::{Reason, Step};

// The next step where s is observed: for the lowest bus that any rule reaches, O before N before Z, lowest p, lowest w.
// The sites are whatever they are: no reason reads them.
pub fn next_step(case: &Case, s: BusSet) -> Option<Step>
    requires few { case.now.n ≤ most_buses }
    requires lines { Lines case.now.n (neighbours case.now.nbr) }
    requires zeros { Within case.now.n (set_of case.now.zero) }
    requires units { Within case.now.n (set_of case.now.units) }
    ensures { (sites : SetWord)
        → NextAnswer (grid_with case.now.n case.now.nbr case.now.zero sites case.now.units) (set_of s) result }
{
    'search: {
        for b in 1..=case.n {
            if !s.has(b) {
                if case.units.has(b) {
                    break 'search Some(Step {
                        bus: b,
                        reason: Reason::OwnUnit,
                    });
                }
                for p in 1..=case.n {
                    if by_unit(case, b, p) {
                        break 'search Some(Step {
                            bus: b,
                            reason: Reason::NeighbourOf(p),
                        });
                    }
                }
                for w in 1..=case.n {
                    if by_zero(case, s, b, w) {
                        break 'search Some(Step {
                            bus: b,
                            reason: Reason::ZeroInjection(w),
                        });
                    }
                }
            }
        }
        None
    }
}
