// The case text, line after line.
#![tactic(auto)]

ghost use Rattle.std.specs.Prelude.{◌≡◌, ◌≤◌, length, drop};
ghost use Rattle.grid.specs.Limits.{most_bytes};
ghost use Rattle.case_judge.specs.Judging.{Fit};
ghost use Rattle.case_read.specs.Reading.{start, next_reader, case_so_far, read_text, read_case};

use case_build::{Marks, build_marks, build_rows};
use case_judge::{Place, Standing, judge, next_place};
use case_line::{Record, record_of};
use grid::limits::MOST_BYTES;
use grid::{Case, Rows};
use refusals::Refusal;
use text_field::next_line;

// Where the reader stands, and what it has read.
#[derive(Clone, Copy)]
pub struct Reader {
    pub place: Place,
    pub rows: Rows,
    pub marks: Marks,
}

impl Reader {
    // Nothing is read yet.
    fn start() -> Reader
        ensures { result ≡ start }
    {
        Reader {
            place: Place::default(),
            rows: grid::no_rows(),
            marks: Marks::default(),
        }
    }

    // One record more is read.
    fn take(&mut self, r: Record)
        requires { Fit self.old.place r }
        ensures { self.new ≡ next_reader self.old r }
    {
        build_rows(&mut self.rows, self.place, r);
        self.marks = build_marks(self.marks, self.place, r);
        self.place = next_place(self.place, r);
    }

    // The case that has been read.
    fn case(&self) -> Case
        ensures { result ≡ case_so_far self.now }
    {
        Case {
            n: self.place.n,
            nbr: self.rows,
            zero: self.marks.zero,
            site: self.marks.site,
            units: self.marks.units,
        }
    }
}

// The text from `from` on, whose first line is line `first`.
#[tactic(auto, unfolding(crate::specs::Reading::read_text, crate::specs::Reading::read_lines))]
pub fn read_text(text: &[u8], from: usize, first: usize) -> Result<Case, Refusal>
    requires { (from ≤ length text.now) × (length text.now ≤ most_bytes) × (first ≤ most_bytes) }
    ensures { result ≡ read_text first (drop from text.now) }
{
    let mut reader = Reader::start();
    let mut k = first;
    let mut at = from;
    while let Some((line, next)) = next_line(text, at) {
        let record = record_of(line);
        match judge(reader.place, record) {
            Ok(Standing::Next) => reader.take(record),
            Ok(Standing::Last) if next == text.len() => return Ok(reader.case()),
            Ok(Standing::Last) => return Err(Refusal::WrongForm(k + 1)),
            Err(fault) => return Err(fault.at(k)),
        }
        k += 1;
        at = next;
    }
    Err(Refusal::WrongForm(k))
}

// The case that a text says.
#[tactic(auto, unfolding(crate::specs::Reading::read_case))]
pub fn read_case(text: &[u8]) -> Result<Case, Refusal>
    ensures { result ≡ read_case text.now }
{
    if MOST_BYTES < text.len() {
        return Err(Refusal::TextTooLong);
    }
    read_text(text, 0, 1)
}
