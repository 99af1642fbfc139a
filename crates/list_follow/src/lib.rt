// Following a desk's list step by step: where it begins, where it is after each step, and how it ends.
#![tactic(auto)]

ghost use Rattle.std.specs.Prelude.{◌≡◌, [], ◌∷◌, ℕ, suc, ◌<◌};
ghost use Rattle.grid.specs.Limits.{most_steps};
ghost use Rattle.basics.specs.Deciding.{Decides};
ghost use Rattle.busset.specs.Sets.{set_of};
ghost use Rattle.refusals.specs.Refusals.{CheckedBy};
ghost use Rattle.rules.specs.Steps.{Finished};
ghost use Rattle.grid.specs.Cases.{grid_with, case_of, Sized};
ghost use Rattle.list_follow.specs.Following.{begin_checks, StandsAfter, Follows, after_refusal};
ghost use Rattle.list_follow.specs.Replies.{AnswersReplay, wove_at};

use busset::BusSet;
use grid::Case;
use grid::limits::{MOST_BUSES, MOST_STEPS};
use observe::test::tested_at;
use refusals::Refusal;
use step::Step;

// Replay refuses a step for an observed bus; weaving passes over it.
#[derive(Clone, Copy)]
pub enum Task {
    Replay,
    Weave,
}

// The set reached, how many steps were read, and whether no step was bad, or why the first bad one is refused.
#[derive(Clone, Copy)]
pub struct Following {
    pub task: Task,
    pub set: BusSet,
    pub read: usize,
    pub standing: Result<(), Refusal>,
}

// What replay answers: the set reached and whether the list is finished.
#[derive(Clone, Copy)]
pub struct Replayed {
    pub set: BusSet,
    pub finished: bool,
}

// What weaving answers: the count written and the set reached.
#[derive(Clone, Copy)]
pub struct Wove {
    pub count: usize,
    pub set: BusSet,
}

// The standing of a list of `count` steps before its first.
fn opening(case: &Case, count: usize) -> Result<(), Refusal>
    requires { Sized case.now }
    ensures { CheckedBy (begin_checks case.now count) result }
{
    case.check()?;
    if MOST_STEPS < count {
        return Err(Refusal::TooManySteps(0));
    }
    Ok(())
}

// A list of `count` steps, begun.
pub fn begin(case: &Case, task: Task, count: usize) -> Following
    requires { Sized case.now }
    ensures { StandsAfter case.now task count [] result }
{
    Following {
        task,
        set: BusSet::none(),
        read: 0,
        standing: opening(case, count),
    }
}

// The number of the step after those read: no list has a step after the most.
fn next_number(read: usize) -> usize
    ensures { read < most_steps → result ≡ suc read }
{
    if read < MOST_STEPS { read + 1 } else { read }
}

// The standing after a step that the test refuses with q: weaving passes over an observed bus.
fn after_refusal(task: Task, q: Refusal) -> Result<(), Refusal>
    ensures { result ≡ after_refusal task q }
{
    match (task, q) {
        (Task::Weave, Refusal::AlreadyObserved(_)) => Ok(()),
        _ => Err(q),
    }
}

// The list after one step more, by the single-step test, whatever the sites are. The first bad step stays.
pub fn apply(case: &Case, st: Following, x: Step) -> Following
    ensures { (sites : ℕ)
        → Follows (case_of case.now.n case.now.nbr case.now.zero sites case.now.units) st (x ∷ []) result }
{
    let Ok(()) = st.standing else {
        return st;
    };
    if MOST_BUSES < case.n {
        return st;
    }
    let read = next_number(st.read);
    match tested_at(case, st.set, x, read) {
        Ok(()) => Following {
            set: st.set.with(x.bus),
            read,
            ..st
        },
        Err(q) => Following {
            read,
            standing: after_refusal(st.task, q),
            ..st
        },
    }
}

// Whether no step is allowed where s is observed, whatever n and the sites are.
pub fn is_finished(case: &Case, s: BusSet) -> bool
    ensures { (n sites : ℕ)
        → Decides (Finished (grid_with n case.now.nbr case.now.zero sites case.now.units) (set_of s)) result }
{
    if !case.with_neighbours(case.units).is_subset(s) {
        return false;
    }
    observe::set::sweep(case, s) == s
}

// Replay's answer for the list that ends so, whatever n and the sites are.
pub fn ended(case: &Case, st: Following) -> Result<Replayed, Refusal>
    ensures { (n sites : ℕ)
        → AnswersReplay (case_of n case.now.nbr case.now.zero sites case.now.units) st result }
{
    st.standing?;
    Ok(Replayed {
        set: st.set,
        finished: is_finished(case, st.set),
    })
}

// Weaving's answer, where there is room for `room` records: it writes one step for each bus reached.
pub fn settled(st: Following, room: usize) -> Result<Wove, Refusal>
    ensures { result ≡ wove_at st room st.standing }
{
    st.standing?;
    let count = st.set.count();
    if room < count {
        return Err(Refusal::NoRoom);
    }
    Ok(Wove { count, set: st.set })
}
