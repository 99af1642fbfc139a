// The planning program's input: the plan line, and the case text after it.
#![tactic(auto)]

ghost use Rattle.std.specs.Prelude.{◌≡◌};
ghost use Rattle.text_field.specs.Split.{after, tab};
ghost use Rattle.plan_input.specs.Asking.{plan_fields, budget_of, read_plan};

use case_line::one_number;
use case_read::read_text;
use grid::Case;
use grid::limits::MOST_BYTES;
use refusals::Refusal;
use text_field::{next_field, next_line, piece_end};

// The budget of `plan` alone.
pub const DEFAULT_BUDGET: usize = 3;

// What an input asks: the fewest of a case within a budget.
#[derive(Clone, Copy)]
pub struct Asked {
    pub budget: usize,
    pub case: Case,
}

// The budget in the fields that follow the word, which ends at `at`.
#[tactic(auto, unfolding(crate::specs::Asking::plan_fields, case_line::specs::Fields::if_one_field))]
fn plan_fields(line: &[u8], at: usize) -> Option<usize>
    ensures { result ≡ plan_fields (after tab line.now at) }
{
    match next_field(line, at) {
        None => Some(DEFAULT_BUDGET),
        Some(_) => one_number(line, at),
    }
}

// The budget that the first line says.
#[tactic(auto, unfolding(crate::specs::Asking::budget_of))]
fn budget_of(line: &[u8]) -> Option<usize>
    ensures { result ≡ budget_of line.now }
{
    let end = piece_end(line, 0, b'\t');
    match &line[..end] {
        b"plan" => plan_fields(line, end),
        _ => None,
    }
}

// What the input asks.
#[tactic(auto, unfolding(crate::specs::Asking::read_plan, case_read::specs::Reading::read_text))]
pub fn read_plan(input: &[u8]) -> Result<Asked, Refusal>
    ensures { result ≡ read_plan input.now }
{
    if MOST_BYTES < input.len() {
        return Err(Refusal::TextTooLong);
    }
    let (line, next) = next_line(input, 0).ok_or(Refusal::WrongForm(1))?;
    let budget = budget_of(line).ok_or(Refusal::WrongForm(1))?;
    let case = read_text(input, next, 2)?;
    Ok(Asked { budget, case })
}
