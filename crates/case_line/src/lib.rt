// One line of a case text, read as a record.
#![tactic(auto)]

ghost use Rattle.std.specs.Prelude.{◌≡◌, ◌≢◌, [], ◌∷◌, length, MatchOption, unwrap_or};
ghost use Rattle.text_field.specs.Split.{after, tab};
ghost use Rattle.case_line.specs.Fields.{mark_of, one_number, one_site};
ghost use Rattle.case_line.specs.Record.{record_word_of, bus_fields, line_fields, by_word, record_of};

use text_field::{next_field, number_of, piece_end};

// A record of a case text; `zero` says class Z, `site` says site Y. `Circuits` is a `line` that says its circuits.
#[derive(Clone, Copy)]
pub enum Record {
    Grid(usize),
    Bus {
        number: usize,
        zero: bool,
        site: bool,
    },
    Line(usize, usize),
    Circuits(usize, usize, usize),
    Pmu(usize),
    End,
    Wrong,
}

// The first field of a line.
#[derive(Clone, Copy)]
pub enum Word {
    Grid,
    Bus,
    Line,
    Pmu,
    End,
    Other,
}

#[tactic(auto, unfolding(crate::specs::Record::record_word_of))]
fn word_of(f: &[u8]) -> Word
    ensures { result ≡ record_word_of f.now }
{
    match f {
        b"grid" => Word::Grid,
        b"bus" => Word::Bus,
        b"line" => Word::Line,
        b"pmu" => Word::Pmu,
        b"end" => Word::End,
        _ => Word::Other,
    }
}

// A field of one letter out of two: whether it is the first.
#[tactic(auto, unfolding(crate::specs::Fields::mark_of))]
fn mark_of(f: &[u8], yes: u8, no: u8) -> Option<bool>
    ensures { result ≡ mark_of yes no f.now }
{
    match f {
        [b] if *b == yes => Some(true),
        [b] if *b == no => Some(false),
        _ => None,
    }
}

// The one field that follows the one that ends at `at`.
#[tactic(auto, unfolding(text_field::specs::Split::after))]
fn one_field(line: &[u8], at: usize) -> Option<&[u8]>
    ensures { MatchOption result
        (length (after tab line.now at) ≢ 1)
        (λ f. after tab line.now at ≡ f.now ∷ []) }
{
    let (field, end) = next_field(line, at)?;
    if end < line.len() { None } else { Some(field) }
}

// The number in the one field that follows the one that ends at `at`.
#[tactic(auto, unfolding(crate::specs::Fields::if_one_field))]
pub fn one_number(line: &[u8], at: usize) -> Option<usize>
    ensures { result ≡ one_number (after tab line.now at) }
{
    number_of(one_field(line, at)?)
}

#[tactic(auto, unfolding(crate::specs::Fields::if_one_field))]
fn one_site(line: &[u8], at: usize) -> Option<bool>
    ensures { result ≡ one_site (after tab line.now at) }
{
    mark_of(one_field(line, at)?, b'Y', b'N')
}

// A `bus` with the three fields that follow the one that ends at `at`.
#[tactic(auto, unfolding(crate::specs::Record::bus_fields))]
fn bus_fields(line: &[u8], at: usize) -> Option<Record>
    ensures { unwrap_or result Record.Wrong ≡ bus_fields (after tab line.now at) }
{
    let (number, end) = next_field(line, at)?;
    let (class, end) = next_field(line, end)?;
    Some(Record::Bus {
        number: number_of(number)?,
        zero: mark_of(class, b'Z', b'I')?,
        site: one_site(line, end)?,
    })
}

// A `line` with the two or three fields that follow the one that ends at `at`.
#[tactic(auto, unfolding(crate::specs::Record::line_fields, crate::specs::Fields::if_one_field))]
fn line_fields(line: &[u8], at: usize) -> Option<Record>
    ensures { unwrap_or result Record.Wrong ≡ line_fields (after tab line.now at) }
{
    let (from, end) = next_field(line, at)?;
    let (to, end) = next_field(line, end)?;
    let (a, b) = (number_of(from)?, number_of(to)?);
    match next_field(line, end) {
        None => Some(Record::Line(a, b)),
        Some(_) => Some(Record::Circuits(a, b, one_number(line, end)?)),
    }
}

// The record of this word with the fields that follow the one that ends at `at`.
#[tactic(auto, unfolding(crate::specs::Fields::if_no_field))]
fn by_word(word: Word, line: &[u8], at: usize) -> Option<Record>
    ensures { unwrap_or result Record.Wrong ≡ by_word word (after tab line.now at) }
{
    match word {
        Word::Grid => Some(Record::Grid(one_number(line, at)?)),
        Word::Bus => bus_fields(line, at),
        Word::Line => line_fields(line, at),
        Word::Pmu => Some(Record::Pmu(one_number(line, at)?)),
        Word::End => next_field(line, at).is_none().then_some(Record::End),
        Word::Other => None,
    }
}

// The record that a line of a case text is.
#[tactic(auto, unfolding(crate::specs::Record::record_of))]
pub fn record_of(line: &[u8]) -> Record
    ensures { result ≡ record_of line.now }
{
    let end = piece_end(line, 0, b'\t');
    by_word(word_of(&line[..end]), line, end).unwrap_or(Record::Wrong)
}
