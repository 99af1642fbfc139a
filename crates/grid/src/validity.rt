// Whether a case value is valid: what refusal 5 does not refuse.
ghost use Rattle.std.specs.Prelude.{◌≡◌, ℕ, ◌∷◌, [], ◌≤◌, ◌<◌};
ghost use Rattle.basics.specs.Deciding.{Decides};
ghost use Rattle.busset.specs.Sets.{Bus, set_of, width};
ghost use Rattle.refusals.specs.Refusals.{check_that, CheckedBy};
ghost use Rattle.rules.specs.Grids.{Line, line_count};
ghost use Rattle.grid.specs.Rows.{bus_sets, neighbours, set_at};
ghost use Rattle.grid.specs.Cases.{Sized, Valid, Lines, LinesAt, JoinedCounted, OthersUncounted};
ghost use Rattle.grid.specs.Counting.{MirroredAt, DigitsMirrored, CountsAt};

use crate::Case;
use crate::limits::{MOST_BUSES, MOST_LINES};
use busset::BusSet;
use refusals::Refusal;

impl Case {
    // Whether a and b, joined as seen from a, have a line.
    pub fn is_line(&self, a: usize, b: usize) -> bool
        requires { Bus width a × Bus width b }
        ensures { Decides (Line self.now.n (neighbours self.now.nbr) a b) result }
    {
        if self.n < a {
            return false;
        }
        if self.n < b {
            return false;
        }
        if a == b {
            return false;
        }
        self.neighbours(b).has(a)
    }

    // Whether all that b is joined to is joined to it by a line.
    pub fn has_lines(&self, b: usize) -> bool
        requires { Bus width b }
        ensures { Decides (LinesAt self.now.n (neighbours self.now.nbr) b) result }
    {
        for a in self.neighbours(b) {
            if !self.is_line(b, a) {
                return false;
            }
        }
        true
    }

    // Whether all that is joined is joined by a line.
    pub fn all_lines(&self) -> bool
        requires { Sized self.now }
        ensures { Decides (Lines self.now.n (neighbours self.now.nbr)) result }
    {
        for b in 1..=MOST_BUSES {
            if !self.has_lines(b) {
                return false;
            }
        }
        true
    }

    // Set i of bus b.
    pub fn set_at(&self, b: usize, i: usize) -> BusSet
        requires { Bus width b × (i < bus_sets) }
        ensures { set_of result ≡ set_at self.now.nbr b i }
    {
        crate::set_at(&self.nbr, b, i)
    }

    // Whether b counts 1 to the most circuits to each neighbour, and none to another bus: 8 is the highest digit alone.
    pub fn is_counted(&self, b: usize) -> bool
        requires { Bus width b }
        ensures { Decides (JoinedCounted self.now.nbr b × OthersUncounted self.now.nbr b) result }
    {
        let low_two = self.set_at(b, 1).union(self.set_at(b, 2));
        let low = low_two.union(self.set_at(b, 3));
        let high = self.set_at(b, 4);
        if !low.both(high).is_none() {
            return false;
        }
        self.neighbours(b) == low.union(high)
    }

    // Whether b is in set i of each bus of its own set i.
    pub fn is_mirrored(&self, b: usize, i: usize) -> bool
        requires { Bus width b × (i < bus_sets) }
        ensures { Decides (MirroredAt self.now.nbr i b) result }
    {
        for a in self.set_at(b, i) {
            if !self.set_at(a, i).has(b) {
                return false;
            }
        }
        true
    }

    // Whether each digit of b's counts is mirrored.
    pub fn is_alike(&self, b: usize) -> bool
        requires { Bus width b }
        ensures { Decides (DigitsMirrored self.now.nbr b) result }
    {
        if !self.is_mirrored(b, 1) {
            return false;
        }
        if !self.is_mirrored(b, 2) {
            return false;
        }
        if !self.is_mirrored(b, 3) {
            return false;
        }
        self.is_mirrored(b, 4)
    }

    // Whether the circuits of every bus are counted, and alike from both ends.
    pub fn all_counted(&self) -> bool
        requires { Sized self.now }
        ensures { Decides ((b : ℕ) → CountsAt self.now.nbr b) result }
    {
        for a in 1..=MOST_BUSES {
            if !self.is_counted(a) {
                return false;
            }
            if !self.is_alike(a) {
                return false;
            }
        }
        true
    }

    pub fn count_lines(&self) -> usize
        requires { self.now.n ≤ width }
        ensures { result ≡ line_count self.now.n (neighbours self.now.nbr) }
    {
        let mut sum: usize = 0;
        for b in 1..self.n + 1 {
            sum += self.neighbours(b).up_to(b).count();
        }
        sum
    }

    // Whether the case is valid.
    pub fn is_valid(&self) -> bool
        requires { Sized self.now }
        ensures { Decides (Valid self.now) result }
    {
        let n = self.n;
        if n < 1 {
            return false;
        }
        if MOST_BUSES < n {
            return false;
        }
        if !self.zero.is_within(n) {
            return false;
        }
        if !self.site.is_within(n) {
            return false;
        }
        if !self.units.is_within(n) {
            return false;
        }
        if !self.all_lines() {
            return false;
        }
        if !self.all_counted() {
            return false;
        }
        self.count_lines() <= MOST_LINES
    }

    // Refusal 5, unless the case is valid.
    pub fn check(&self) -> Result<(), Refusal>
        requires { Sized self.now }
        ensures { CheckedBy (check_that (Valid self.now) 5 0 ∷ []) result }
    {
        if self.is_valid() {
            return Ok(());
        }
        Err(Refusal::InvalidCase)
    }
}
