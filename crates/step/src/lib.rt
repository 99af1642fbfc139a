// A step, as a desk's record holds it, and what each reason has: its letter, and the bus that it names.
// Buses are numbered as the grid numbers them, and any number may stand in a record.
#![tactic(auto)]

ghost use Rattle.std.specs.Prelude.{◌≡◌};
ghost use Rattle.step.specs.Reasons.{letter_of, named_by, if_letter, reason_of};

// Why a bus is observed.
#[derive(Clone, Copy, Default, PartialEq, Eq)]
pub enum Reason {
    // A unit stands at the bus itself.
    #[default]
    OwnUnit,
    // A unit stands at this bus, joined to the step's.
    NeighbourOf(usize),
    // This Z bus is observed and joined to the step's, and every other neighbour of it is observed.
    ZeroInjection(usize),
}

#[derive(Clone, Copy, Default, PartialEq, Eq)]
pub struct Step {
    pub bus: usize,
    pub reason: Reason,
}

impl Reason {
    // The reason with this letter that names this bus, if there is one.
    pub fn of(letter: u8, bus: Option<usize>) -> Option<Reason>
        ensures { result ≡ reason_of letter bus }
    {
        match bus {
            None => Reason::OwnUnit.if_letter(letter, None),
            Some(b) => {
                let zero = Reason::ZeroInjection(b).if_letter(letter, None);
                Reason::NeighbourOf(b).if_letter(letter, zero)
            }
        }
    }

    // This reason if the letter is its own, else `other`.
    fn if_letter(self, letter: u8, other: Option<Reason>) -> Option<Reason>
        ensures { result ≡ if_letter letter self other }
    {
        if letter == self.letter() {
            return Some(self);
        }
        other
    }

    // Its letter.
    pub fn letter(self) -> u8
        ensures { result ≡ letter_of self }
    {
        match self {
            Reason::OwnUnit => b'O',
            Reason::NeighbourOf(_) => b'N',
            Reason::ZeroInjection(_) => b'Z',
        }
    }

    // The bus that it names, if it names one.
    pub fn named(self) -> Option<usize>
        ensures { result ≡ named_by self }
    {
        match self {
            Reason::OwnUnit => None,
            Reason::NeighbourOf(p) => Some(p),
            Reason::ZeroInjection(w) => Some(w),
        }
    }
}
