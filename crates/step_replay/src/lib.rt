// A step text replayed straight from the text: no list is stored.
#![tactic(auto)]

ghost use Rattle.std.specs.Prelude.{◌≡◌, length};
ghost use Rattle.grid.specs.Cases.{Sized};
ghost use Rattle.step_text.specs.Steps.{steps_of};
ghost use Rattle.list_follow.specs.Following.{StandsAfter};
ghost use Rattle.list_follow.specs.declared.Task.TheVariants.{Replay};
ghost use Rattle.step_replay.specs.Replying.{TextReplayReply};

use grid::Case;
use list_follow::{Following, Replayed, Task, apply, begin, ended};
use refusals::ReplayError;
use step_text::check_steps;
use step_text::taking::step_at;

// The `count` steps of a text, followed one after another up to the first bad one.
#[tactic(auto, using(crate::proofs::Onward::replaying))]
fn follow_text(case: &Case, text: &[u8], count: usize) -> Following
    requires { Sized case.now × (length (steps_of text.now) ≡ count) }
    ensures { StandsAfter case.now Replay count (steps_of text.now) result }
{
    let mut st = begin(case, Task::Replay, count);
    let mut at = 0;
    while let Some(taken) = step_at(text, at) {
        let Ok(()) = st.standing else {
            return st;
        };
        st = apply(case, st, taken.step);
        at = taken.next;
    }
    st
}

// The set that the text's steps reach and whether their list is finished. The whole text is read before its first step
// is tried.
#[tactic(auto, using(crate::proofs::Onward::replaying))]
pub fn replay_text(case: Case, text: &[u8]) -> Result<Replayed, ReplayError>
    ensures { TextReplayReply case text.now result }
{
    let count = check_steps(text).map_err(ReplayError::Text)?;
    Ok(ended(&case, follow_text(&case, text, count))?)
}
