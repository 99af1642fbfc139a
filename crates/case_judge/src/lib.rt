// What a record is where the reader stands.
#![tactic(auto)]

ghost use Rattle.std.specs.Prelude.{◌≡◌, ◌<◌};
ghost use Rattle.grid.specs.Limits.{most_lines};
ghost use Rattle.case_judge.specs.Judging.{is_several, past_buses, in_place, in_range, in_order};
ghost use Rattle.case_judge.specs.Judging.{line_in_place, line_in_range, line_in_order, place_after_line};
ghost use Rattle.case_judge.specs.Judging.{next_or_last, judged, next_place, fault_refusal, Fit};

use busset::is_bus;
use case_line::Record;
use grid::limits::{LEAST_SEVERAL, MOST_BUSES, MOST_CIRCUITS, MOST_LINES};
use refusals::Refusal;

// The last bus, line and unit read of a grid of n buses, and how many lines.
#[derive(Clone, Copy, Default)]
pub struct Place {
    pub n: usize,
    pub bus: usize,
    pub a: usize,
    pub b: usize,
    pub lines: usize,
    pub unit: usize,
}

// An accepted record: the next one, or the last.
#[derive(Clone, Copy)]
pub enum Standing {
    Next,
    Last,
}

// Why a record is refused.
#[derive(Clone, Copy)]
pub enum Fault {
    Form,
    Range,
    Order,
}

impl Fault {
    // The refusal of a fault in this line.
    pub fn at(self, line: usize) -> Refusal
        ensures { result ≡ fault_refusal self line }
    {
        match self {
            Fault::Form => Refusal::WrongForm(line),
            Fault::Range => Refusal::OutOfRange(line),
            Fault::Order => Refusal::OutOfOrder(line),
        }
    }
}

// Whether a text may say k circuits: more than one, and not too many.
#[tactic(auto, unfolding(crate::specs::Judging::is_several))]
fn is_several(k: usize) -> bool
    ensures { result ≡ is_several k }
{
    (LEAST_SEVERAL..=MOST_CIRCUITS).contains(&k)
}

impl Place {
    // Whether `grid` has been read, and every `bus`.
    #[tactic(auto, unfolding(crate::specs::Judging::past_buses))]
    fn is_past_buses(self) -> bool
        ensures { result ≡ past_buses self }
    {
        0 < self.n && self.n <= self.bus
    }

    // Whether a `line` may stand here.
    fn allows_line(self) -> bool
        ensures { result ≡ line_in_place self }
    {
        self.is_past_buses() && self.unit == 0
    }

    // Whether its ends are buses, and there is room for it.
    #[tactic(auto, unfolding(crate::specs::Judging::is_bus))]
    fn allows_line_numbers(self, a: usize, b: usize) -> bool
        ensures { result ≡ line_in_range self a b }
    {
        is_bus(self.n, a) && is_bus(self.n, b) && self.lines < MOST_LINES
    }

    // Whether it rises, and stands after the last.
    #[tactic(auto, unfolding(crate::specs::Judging::is_after))]
    fn allows_line_order(self, a: usize, b: usize) -> bool
        ensures { result ≡ line_in_order self a b }
    {
        a < b && (self.a, self.b) < (a, b)
    }

    // Whether a record of this kind may stand here.
    fn allows_kind(self, r: Record) -> bool
        ensures { result ≡ in_place self r }
    {
        match r {
            Record::Grid(_) => self.n == 0,
            Record::Bus { .. } => self.bus < self.n,
            Record::Line(..) | Record::Circuits(..) => self.allows_line(),
            Record::Pmu(_) | Record::End => self.is_past_buses(),
            Record::Wrong => false,
        }
    }

    // Whether its numbers are in range.
    #[tactic(auto, unfolding(crate::specs::Judging::is_bus))]
    fn allows_numbers(self, r: Record) -> bool
        ensures { result ≡ in_range self r }
    {
        match r {
            Record::Grid(m) => is_bus(MOST_BUSES, m),
            Record::Bus { number, .. } => is_bus(self.n, number),
            Record::Line(a, b) => self.allows_line_numbers(a, b),
            Record::Circuits(a, b, k) => self.allows_line_numbers(a, b) && is_several(k),
            Record::Pmu(p) => is_bus(self.n, p),
            Record::End | Record::Wrong => true,
        }
    }

    // Whether it stands in order: the next bus, a line after the last, a unit above the last.
    fn allows_order(self, r: Record) -> bool
        ensures { result ≡ in_order self r }
    {
        match r {
            Record::Bus { number, .. } => number.checked_sub(1) == Some(self.bus),
            Record::Line(a, b) | Record::Circuits(a, b, _) => self.allows_line_order(a, b),
            Record::Pmu(p) => self.unit < p,
            Record::Grid(_) | Record::End | Record::Wrong => true,
        }
    }

    // Where the reader stands after a `line`.
    fn after_line(self, a: usize, b: usize) -> Place
        requires { self.lines < most_lines }
        ensures { result ≡ place_after_line self a b }
    {
        Place {
            a,
            b,
            lines: self.lines + 1,
            ..self
        }
    }
}

// An accepted record is the next one, or the last.
fn accepted(r: Record) -> Standing
    ensures { result ≡ next_or_last r }
{
    match r {
        Record::End => Standing::Last,
        _ => Standing::Next,
    }
}

// What a record is where the reader stands, or why it is refused.
#[tactic(auto, unfolding(crate::specs::Judging::judged))]
pub fn judge(s: Place, r: Record) -> Result<Standing, Fault>
    ensures { result ≡ judged s r }
{
    if !s.allows_kind(r) {
        Err(Fault::Form)
    } else if !s.allows_numbers(r) {
        Err(Fault::Range)
    } else if !s.allows_order(r) {
        Err(Fault::Order)
    } else {
        Ok(accepted(r))
    }
}

// Where the reader stands after a record.
pub fn next_place(s: Place, r: Record) -> Place
    requires { Fit s r }
    ensures { result ≡ next_place s r }
{
    match r {
        Record::Grid(n) => Place {
            n,
            ..Place::default()
        },
        Record::Bus { number, .. } => Place { bus: number, ..s },
        Record::Line(a, b) | Record::Circuits(a, b, _) => s.after_line(a, b),
        Record::Pmu(p) => Place { unit: p, ..s },
        Record::End | Record::Wrong => s,
    }
}
