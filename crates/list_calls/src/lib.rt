// The calls on lists of steps: the derivation; replay and weaving over lent records.
#![tactic(auto)]

ghost use Rattle.std.specs.Prelude.{◌≡◌, length};
ghost use Rattle.grid.specs.Cases.{Sized};
ghost use Rattle.list_follow.specs.Following.{StandsAfter};
ghost use Rattle.list_follow.specs.Replies.{ReplayReply, WeaveReply, CanPut, put_woven};

use busset::BusSet;
use grid::Case;
use list_follow::{Following, Replayed, Task, Wove, apply, begin, ended, settled};
use refusals::Refusal;
use step::Step;

// passed on from the crate of its subject
pub use list_derive::derivation;

// Follows the steps in their order, from the beginning.
pub fn follow(case: &Case, task: Task, steps: &[Step]) -> Following
    requires { Sized case.now }
    ensures { StandsAfter case.now task (length steps.now) steps.now result }
{
    let mut st = begin(case, task, steps.len());
    for &step in steps {
        st = apply(case, st, step);
    }
    st
}

// Writes the first m of the steps that weaving writes. Each step goes to the record that the number of buses reached
// before it says: a step for a bus that is already reached is written over by the next.
pub fn put(m: usize, steps: &[Step], out: &mut [Step])
    requires { CanPut m steps.now out.old }
    ensures { out.new ≡ put_woven m steps.now out.old }
{
    let mut s = BusSet::none();
    let mut k = 0;
    for &x in steps {
        if k == m {
            return;
        }
        out[k] = x;
        s = s.with(x.bus);
        k = s.count();
    }
}

// The set that a list reaches and whether it is finished, or the first bad step.
pub fn replay(case: Case, steps: &[Step]) -> Result<Replayed, Refusal>
    ensures { ReplayReply case steps.now result }
{
    ended(&case, follow(&case, Task::Replay, steps))
}

// Writes each step of the list whose bus is not yet observed, and answers how many, and the set reached.
pub fn weave(case: Case, steps: &[Step], out: &mut [Step]) -> Result<Wove, Refusal>
    ensures { WeaveReply case steps.now out.old out.new result }
{
    let st = follow(&case, Task::Weave, steps);
    let woven = settled(st, out.len())?;
    put(woven.count, steps, out);
    Ok(woven)
}
