// The test of one step: the buses that it names, whether its bus is observed, and whether its reason holds.
ghost use Rattle.std.specs.Prelude.{ℕ, ◌≤◌};
ghost use Rattle.basics.specs.Deciding.{Decides};
ghost use Rattle.busset.specs.Sets.{Bus, width, set_of};
ghost use Rattle.refusals.specs.Refusals.{CheckedBy};
ghost use Rattle.rules.specs.Steps.{ByUnit, ByZero, Holds, Names};
ghost use Rattle.grid.specs.Rows.{neighbours};
ghost use Rattle.grid.specs.Cases.{grid_with};
ghost use Rattle.observe.specs.Testing.{step_checks_at};

use busset::{BusSet, is_bus};
use grid::Case;
use refusals::Refusal;
use step::{Reason, Step};

// Whether the step, in its bus and its reason, names buses 1 to n.
pub fn names(n: usize, x: Step) -> bool
    ensures { Decides (Names n x) result }
{
    if !is_bus(n, x.bus) {
        return false;
    }
    match x.reason.named() {
        None => true,
        Some(p) => is_bus(n, p),
    }
}

// Whether a unit stands at p, joined to b.
pub fn by_unit(case: &Case, b: usize, p: usize) -> bool
    requires { Bus width b × Bus width p }
    ensures { Decides (ByUnit (neighbours case.now.nbr) (set_of case.now.units) b p) result }
{
    if !case.units.has(p) {
        return false;
    }
    case.neighbours(p).has(b)
}

// Whether w is Z, observed and joined to b, and every other neighbour of w is observed.
pub fn by_zero(case: &Case, s: BusSet, b: usize, w: usize) -> bool
    requires { Bus width b × Bus width w }
    ensures { Decides (ByZero (neighbours case.now.nbr) (set_of case.now.zero) (set_of s) b w) result }
{
    if !case.zero.has(w) {
        return false;
    }
    if !s.has(w) {
        return false;
    }
    let m = case.neighbours(w);
    if !m.has(b) {
        return false;
    }
    m.is_subset(s.with(b))
}

// Whether the reason of the step holds where s is observed, whatever n and the sites are.
pub fn holds(case: &Case, s: BusSet, x: Step) -> bool
    requires { Names width x }
    ensures { (n sites : ℕ)
        → Decides
        (Holds (grid_with n case.now.nbr case.now.zero sites case.now.units) (set_of s) x.bus x.reason)
        result }
{
    match x.reason {
        Reason::OwnUnit => case.units.has(x.bus),
        Reason::NeighbourOf(p) => by_unit(case, x.bus, p),
        Reason::ZeroInjection(w) => by_zero(case, s, x.bus, w),
    }
}

// Whether the step, which is step k, is allowed where s is observed, whatever the sites are.
pub fn tested_at(case: &Case, s: BusSet, x: Step, k: usize) -> Result<(), Refusal>
    requires { case.now.n ≤ width }
    ensures { (sites : ℕ)
        → CheckedBy
        (step_checks_at (grid_with case.now.n case.now.nbr case.now.zero sites case.now.units) k (set_of s) x)
        result }
{
    if !names(case.n, x) {
        return Err(Refusal::NoSuchBus(k));
    }
    if s.has(x.bus) {
        return Err(Refusal::AlreadyObserved(k));
    }
    if !holds(case, s, x) {
        return Err(Refusal::ReasonFails(k));
    }
    Ok(())
}
