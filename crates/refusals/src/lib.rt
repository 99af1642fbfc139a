// The refusals: one for each row of document 01's table. A number held is the place: a line, a step, or 0.
#![tactic(auto)]

ghost use Rattle.std.specs.Prelude.{◌≡◌};
ghost use Rattle.refusals.specs.Refusals.{number_of, place_of};
ghost use Rattle.refusals.specs.declared.ReplayError.TheVariants.{List};

#[derive(Clone, Copy, PartialEq, Eq)]
pub enum Refusal {
    TextTooLong,
    WrongForm(usize),
    OutOfRange(usize),
    OutOfOrder(usize),
    InvalidCase,
    NoRoom,
    NoSuchBus(usize),
    AlreadyObserved(usize),
    ReasonFails(usize),
    OverBudget(usize),
    NoCover,
    TooManySteps(usize),
    NotJoined,
}

impl Refusal {
    pub fn number(self) -> u32
        ensures { result ≡ number_of self }
    {
        match self {
            Refusal::TextTooLong => 1,
            Refusal::WrongForm(_) => 2,
            Refusal::OutOfRange(_) => 3,
            Refusal::OutOfOrder(_) => 4,
            Refusal::InvalidCase => 5,
            Refusal::NoRoom => 6,
            Refusal::NoSuchBus(_) => 7,
            Refusal::AlreadyObserved(_) => 8,
            Refusal::ReasonFails(_) => 9,
            Refusal::OverBudget(_) => 10,
            Refusal::NoCover => 11,
            Refusal::TooManySteps(_) => 12,
            Refusal::NotJoined => 13,
        }
    }

    pub fn place(self) -> usize
        ensures { result ≡ place_of self }
    {
        match self {
            Refusal::TextTooLong => 0,
            Refusal::WrongForm(line) => line,
            Refusal::OutOfRange(line) => line,
            Refusal::OutOfOrder(line) => line,
            Refusal::InvalidCase => 0,
            Refusal::NoRoom => 0,
            Refusal::NoSuchBus(step) => step,
            Refusal::AlreadyObserved(step) => step,
            Refusal::ReasonFails(step) => step,
            Refusal::OverBudget(line) => line,
            Refusal::NoCover => 0,
            Refusal::TooManySteps(line) => line,
            Refusal::NotJoined => 0,
        }
    }
}

// Why a step text is not replayed: its list is refused, or already the text.
#[derive(Clone, Copy, PartialEq, Eq)]
pub enum ReplayError {
    List(Refusal),
    Text(Refusal),
}

// A case or a list is refused as it is; only the step text's refusals are told apart.
impl From<Refusal> for ReplayError {
    ghost from_gives = { λ q e. e ≡ List q };

    fn from(q: Refusal) -> ReplayError {
        ReplayError::List(q)
    }
}
