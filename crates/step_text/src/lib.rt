// The step text, checked line after line.
#![tactic(auto)]

ghost use Rattle.std.specs.Prelude.{◌≡◌};
ghost use Rattle.step_text.specs.Steps.{reason_in_range, step_in_range, read_steps};

pub mod taking;

use busset::is_bus;
use grid::limits::{MOST_BUSES, MOST_STEP_BYTES, MOST_STEPS};
use refusals::Refusal;
use step::{Reason, Step};
use step_line::{StepLine, step_line_of};
use text_field::next_line;

#[tactic(auto, unfolding(case_judge::specs::Judging::is_bus))]
fn reason_in_range(r: Reason) -> bool
    ensures { result ≡ reason_in_range r }
{
    r.named().is_none_or(|b| is_bus(MOST_BUSES, b))
}

#[tactic(auto, unfolding(crate::specs::Steps::step_in_range, case_judge::specs::Judging::is_bus))]
fn step_in_range(x: Step) -> bool
    ensures { result ≡ step_in_range x }
{
    is_bus(MOST_BUSES, x.bus) && reason_in_range(x.reason)
}

// How many steps a text has.
#[tactic(auto, using(crate::proofs::Stepping::reading), unfolding(crate::specs::Steps::step_lines))]
pub fn check_steps(text: &[u8]) -> Result<usize, Refusal>
    ensures { result ≡ read_steps text.now }
{
    if MOST_STEP_BYTES < text.len() {
        return Err(Refusal::TextTooLong);
    }
    let mut k = 1;
    let mut at = 0;
    while let Some((line, next)) = next_line(text, at) {
        match step_line_of(line) {
            StepLine::Step(x) if !step_in_range(x) => return Err(Refusal::OutOfRange(k)),
            StepLine::Step(_) if MOST_STEPS < k => return Err(Refusal::TooManySteps(k)),
            StepLine::Step(_) => {}
            StepLine::End if next == text.len() => return Ok(k - 1),
            StepLine::End => return Err(Refusal::WrongForm(k + 1)),
            StepLine::Wrong => return Err(Refusal::WrongForm(k)),
        }
        k += 1;
        at = next;
    }
    Err(Refusal::WrongForm(k))
}
