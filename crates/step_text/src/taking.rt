// The steps of a step text, taken one after another, and whether there is room for them.
ghost use Rattle.std.specs.Prelude.{◌≡◌, ◌≤◌, length};
ghost use Rattle.step_text.specs.Steps.{read_steps};
ghost use Rattle.step_text.specs.Taking.{StepAt, Takes, with_room, count_read};

use crate::check_steps;
use refusals::Refusal;
use step::Step;
use step_line::{StepLine, step_line_of};
use text_field::next_line;

// A step, and where the line after it starts.
#[derive(Clone, Copy)]
pub struct Taken {
    pub step: Step,
    pub next: usize,
}

// The step of the line that starts at `at`, if it is one.
#[tactic(auto, unfolding(crate::specs::Steps::steps_from, crate::specs::Steps::steps_in))]
pub fn step_at(text: &[u8], at: usize) -> Option<Taken>
    requires { at ≤ length text.now }
    ensures { StepAt text.now at result }
{
    let (line, next) = next_line(text, at)?;
    match step_line_of(line) {
        StepLine::Step(step) => Some(Taken { step, next }),
        _ => None,
    }
}

// The first step from `at` on; where there is none, bus 0 and `at` itself.
#[tactic(auto, using(crate::proofs::TakingLaws::past))]
pub fn take(text: &[u8], at: usize) -> Taken
    ensures { Takes text.now at result }
{
    let none = Taken {
        step: Step::default(),
        next: at,
    };
    if text.len() < at {
        return none;
    }
    step_at(text, at).unwrap_or(none)
}

// How many steps a text has, where there is room for so many records.
pub fn check_room(text: &[u8], room: usize) -> Result<usize, Refusal>
    ensures { result ≡ with_room room (read_steps text.now) }
{
    let count = check_steps(text)?;
    if room < count {
        return Err(Refusal::NoRoom);
    }
    Ok(count)
}

// How many records are written.
pub fn count_of(r: Result<usize, Refusal>) -> usize
    ensures { result ≡ count_read r }
{
    r.unwrap_or(0)
}
