// The buses of a set, one after another.
ghost use Rattle.std.specs.Prelude.{◌≡◌};
ghost use Rattle.busset.specs.Sets.{set_of, size};
ghost use Rattle.busset.specs.Walking.{TakesLowest, TakesHighest};
ghost use Rattle.std.specs.Iterator.{at_most};

use crate::BusSet;
use std::marker::Model;

// The buses that are still to come, the lowest first.
#[derive(Drop)]
pub struct Buses {
    left: BusSet,
}

// A contract sees the word of the buses that are left.
impl Model for Buses {
    ghost use Rattle.busset.specs.Held.{SetWord};

    ghost Value = { SetWord };

    ghost view = { λ s. s.left };
}

impl Iterator for Buses {
    type Item = usize;

    ghost next_gives = { TakesLowest };

    ghost remaining = { λ s. at_most (size (set_of s)) };

    fn next(&mut self) -> Option<usize> {
        if self.left.is_none() {
            return None;
        }
        let b = self.left.lowest();
        self.left = self.left.without(b);
        Some(b)
    }
}

// From the back comes the highest.
impl DoubleEndedIterator for Buses {
    ghost next_back_gives = { TakesHighest };

    fn next_back(&mut self) -> Option<usize> {
        if self.left.is_none() {
            return None;
        }
        let b = self.left.highest();
        self.left = self.left.without(b);
        Some(b)
    }
}

impl IntoIterator for BusSet {
    type Item = usize;

    type IntoIter = Buses;

    ghost into_iter_gives = { λ s it. it ≡ s };

    fn into_iter(self) -> Buses {
        Buses { left: self }
    }
}
