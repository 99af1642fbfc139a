// Sets of buses, held in a word: bus 1 in the lowest bit. The only shifts and masks stand here.
#![tactic(auto)]

ghost use Rattle.std.specs.Prelude.{◌≡◌, ◌≤◌, ◌<◌};
ghost use Rattle.busset.specs.Held.{empty_word};
ghost use Rattle.busset.specs.Bytes.{byte_of, set_length};
ghost use Rattle.basics.specs.Deciding.{Decides};
ghost use Rattle.busset.specs.Sets.{Bus, In, Sub, Within, empty, up_to, width, set_of};
ghost use Rattle.busset.specs.Sets.{Union, Both, Minus, With, Without, Lowest, Highest, Counted, All};

pub mod buses;

use std::marker::Model;

// How many buses a set has room for, and how many bytes hold it.
pub const WIDTH: usize = 64;

pub const SET_BYTES: usize = WIDTH / 8;

// Whether b is a bus number, 1 to n.
pub fn is_bus(n: usize, b: usize) -> bool
    ensures { Decides (Bus n b) result }
{
    if b < 1 {
        return false;
    }
    b <= n
}

// A set of buses, by its word: bus b is in the bit b - 1.
#[derive(Clone, Copy, Default, PartialEq, Eq)]
pub struct BusSet(u64);

// A contract sees the word.
impl Model for BusSet {
    ghost use Rattle.busset.specs.Held.{SetWord};

    ghost Value = { SetWord };

    ghost view = { λ s. s.0 };

    ghost inverse = { λ w. record { 0 = w } };
}

impl BusSet {
    pub fn none() -> BusSet
        ensures { result ≡ empty_word }
    {
        BusSet(0)
    }

    // The buses 1 to n.
    pub fn all(n: usize) -> BusSet
        requires { n ≤ width }
        ensures { All n (set_of result) }
    {
        if n == WIDTH {
            return BusSet(!0);
        }
        BusSet((1 << n) - 1)
    }

    pub fn is_none(self) -> bool
        ensures { Decides (set_of self ≡ empty) result }
    {
        self.0 == 0
    }

    pub fn has(self, b: usize) -> bool
        requires { Bus width b }
        ensures { Decides (In (set_of self) b) result }
    {
        (self.0 >> (b - 1)) & 1 == 1
    }

    pub fn is_subset(self, t: BusSet) -> bool
        ensures { Decides (Sub (set_of self) (set_of t)) result }
    {
        self.0 & !t.0 == 0
    }

    pub fn union(self, t: BusSet) -> BusSet
        ensures { Union (set_of self) (set_of t) (set_of result) }
    {
        BusSet(self.0 | t.0)
    }

    pub fn both(self, t: BusSet) -> BusSet
        ensures { Both (set_of self) (set_of t) (set_of result) }
    {
        BusSet(self.0 & t.0)
    }

    pub fn minus(self, t: BusSet) -> BusSet
        ensures { Minus (set_of self) (set_of t) (set_of result) }
    {
        BusSet(self.0 & !t.0)
    }

    pub fn with(self, b: usize) -> BusSet
        requires { Bus width b }
        ensures { With (set_of self) b (set_of result) }
    {
        BusSet(self.0 | (1 << (b - 1)))
    }

    pub fn without(self, b: usize) -> BusSet
        requires { Bus width b }
        ensures { Without (set_of self) b (set_of result) }
    {
        self.minus(BusSet::none().with(b))
    }

    pub fn count(self) -> usize
        ensures { Counted width (set_of self) result }
    {
        self.0.count_ones() as usize
    }

    pub fn lowest(self) -> usize
        requires { set_of self ≡ empty → ⊥ }
        ensures { Lowest width (set_of self) result }
    {
        self.0.trailing_zeros() as usize + 1
    }

    pub fn highest(self) -> usize
        requires { set_of self ≡ empty → ⊥ }
        ensures { Highest width (set_of self) result }
    {
        WIDTH - self.0.leading_zeros() as usize
    }

    // The buses up to n.
    pub fn up_to(self, n: usize) -> BusSet
        requires { n ≤ width }
        ensures { set_of result ≡ up_to n (set_of self) }
    {
        self.both(BusSet::all(n))
    }

    // Whether every bus is 1 to n.
    pub fn is_within(self, n: usize) -> bool
        requires { n ≤ width }
        ensures { Decides (Within n (set_of self)) result }
    {
        self.is_subset(BusSet::all(n))
    }

    // Byte i of the word, counted from 0 at the lowest.
    pub fn byte_of(self, i: usize) -> u8
        requires { i < set_length }
        ensures { result ≡ byte_of self i }
    {
        ((self.0 >> (8 * i)) & 255) as u8
    }
}

// The word of a set.
impl From<BusSet> for u64 {
    ghost from_gives = { λ s w. w ≡ s };

    fn from(s: BusSet) -> u64 {
        s.0
    }
}
