// One line of a step text, read as a step.
#![tactic(auto)]

ghost use Rattle.std.specs.Prelude.{◌≡◌};
ghost use Rattle.text_field.specs.Split.{after, tab};
ghost use Rattle.step_line.specs.StepLine.{step_word_of, lettered_fields, reason_fields, step_fields, step_line_of};

pub mod put;

use case_line::one_number;
use step::{Reason, Step};
use text_field::{next_field, number_of, piece_end};

// A line of a step text.
#[derive(Clone, Copy)]
pub enum StepLine {
    Step(Step),
    End,
    Wrong,
}

// The first field of a line.
#[derive(Clone, Copy)]
pub enum StepWord {
    Step,
    End,
    Other,
}

#[tactic(auto, unfolding(crate::specs::StepLine::step_word_of))]
fn step_word_of(f: &[u8]) -> StepWord
    ensures { result ≡ step_word_of f.now }
{
    match f {
        b"step" => StepWord::Step,
        b"end" => StepWord::End,
        _ => StepWord::Other,
    }
}

// The reason with the letter l, which ends at `at`: no field follows it, or the number of the bus that it names.
#[tactic(auto, unfolding(crate::specs::StepLine::lettered_fields))]
fn lettered_fields(line: &[u8], at: usize, l: u8) -> Option<Reason>
    ensures { result ≡ lettered_fields l (after tab line.now at) }
{
    match next_field(line, at) {
        None => Reason::of(l, None),
        Some(_) => Reason::of(l, Some(one_number(line, at)?)),
    }
}

// The reason in the fields that follow the one that ends at `at`: a letter of one byte comes first.
#[tactic(auto, unfolding(crate::specs::StepLine::reason_fields))]
fn reason_fields(line: &[u8], at: usize) -> Option<Reason>
    ensures { result ≡ reason_fields (after tab line.now at) }
{
    match next_field(line, at)? {
        ([letter], end) => lettered_fields(line, end, *letter),
        _ => None,
    }
}

// The step in the fields that follow the word, which ends at `at`: its bus, and then its reason.
#[tactic(auto, unfolding(crate::specs::StepLine::step_fields))]
fn step_fields(line: &[u8], at: usize) -> Option<Step>
    ensures { result ≡ step_fields (after tab line.now at) }
{
    let (bus, end) = next_field(line, at)?;
    Some(Step {
        bus: number_of(bus)?,
        reason: reason_fields(line, end)?,
    })
}

// The step that a line of a step text is.
#[tactic(auto, unfolding(crate::specs::StepLine::step_line_of, case_line::specs::Fields::if_no_field))]
pub fn step_line_of(line: &[u8]) -> StepLine
    ensures { result ≡ step_line_of line.now }
{
    let end = piece_end(line, 0, b'\t');
    match step_word_of(&line[..end]) {
        StepWord::Step => step_fields(line, end).map_or(StepLine::Wrong, StepLine::Step),
        StepWord::End if next_field(line, end).is_none() => StepLine::End,
        _ => StepLine::Wrong,
    }
}
