// The case value, what it says of lines and circuits, and when it is valid; buses with their neighbours; whether a set
// has all buses.
#![tactic(auto)]

ghost use Rattle.std.specs.Prelude.{◌≡◌, cond, ◌≤◌, ◌<◌};
ghost use Rattle.busset.specs.Held.{word_of};
ghost use Rattle.basics.specs.Deciding.{Decides};
ghost use Rattle.busset.specs.Sets.{Bus, width, bit, set_of, add, less};
ghost use Rattle.rules.specs.Placing.{Full};
ghost use Rattle.grid.specs.Rows.{bus_sets, set_at, neighbours, circuits as circuits_of};
ghost use Rattle.grid.specs.Rows.{with_set, with_row, with_bit, is_odd, with_circuits, with_end, with_line, no_rows};
ghost use Rattle.grid.specs.Cases.{line_added};
ghost use Rattle.grid.specs.Near.{WithNeighbours};

pub mod limits;
pub mod validity;

use busset::BusSet;
use limits::MOST_BUSES;

// How many sets a bus has: its neighbours, and the four binary digits of its counts of circuits, the lowest first.
pub const BUS_SETS: usize = 5;

// How many all buses have.
pub const ROWS_LENGTH: usize = BUS_SETS * MOST_BUSES;

// What all buses are joined to: the sets of bus b from 5 * (b - 1) on. No other crate reads or writes a place of it.
pub type Rows = [BusSet; ROWS_LENGTH];

// A grid as a caller lends it.
#[derive(Clone, Copy)]
pub struct Case {
    pub n: usize,
    pub nbr: Rows,
    pub zero: BusSet,
    pub site: BusSet,
    pub units: BusSet,
}

// Set i of bus b.
fn set_at(nbr: &Rows, b: usize, i: usize) -> BusSet
    requires { Bus width b × (i < bus_sets) }
    ensures { set_of result ≡ set_at nbr.now b i }
{
    nbr[BUS_SETS * (b - 1) + i]
}

// Whether b is in set i of bus a, as a digit.
fn digit(nbr: &Rows, a: usize, i: usize, b: usize) -> usize
    requires { Bus width a × (i < bus_sets) × Bus width b }
    ensures { result ≡ bit (set_at nbr.now a i) b }
{
    if set_at(nbr, a, i).has(b) { 1 } else { 0 }
}

// Puts set i of bus b.
fn put_set(rows: &mut Rows, b: usize, i: usize, s: BusSet)
    requires { Bus width b × (i < bus_sets) }
    ensures { rows.new ≡ with_set rows.old b i s }
{
    rows[BUS_SETS * (b - 1) + i] = s;
}

// Puts the neighbours of bus b.
pub fn set_row(rows: &mut Rows, b: usize, s: BusSet)
    requires { Bus width b }
    ensures { rows.new ≡ with_row rows.old b s }
{
    put_set(rows, b, 0, s);
}

// The set with b if t, and without it otherwise.
fn with_if(t: bool, s: BusSet, b: usize) -> BusSet
    requires { Bus width b }
    ensures { result ≡ word_of (cond t (add (set_of s) b) (less (set_of s) b)) }
{
    if t {
        return s.with(b);
    }
    s.without(b)
}

// Puts b into set i of bus a if t, and takes it out otherwise.
fn put_bit(rows: &mut Rows, a: usize, i: usize, b: usize, t: bool)
    requires { Bus width a × (i < bus_sets) × Bus width b }
    ensures { rows.new ≡ with_bit rows.old a i b t }
{
    let s = with_if(t, set_at(&*rows, a, i), b);
    put_set(rows, a, i, s);
}

fn is_odd(k: usize) -> bool
    ensures { result ≡ is_odd k }
{
    k % 2 == 1
}

// Puts the circuits from a to b, as a counts them: the lowest four binary digits of k.
pub fn set_circuits(rows: &mut Rows, a: usize, b: usize, k: usize)
    requires { Bus width a × Bus width b }
    ensures { rows.new ≡ with_circuits rows.old a b k }
{
    put_bit(rows, a, 1, b, is_odd(k));
    put_bit(rows, a, 2, b, is_odd(k / 2));
    put_bit(rows, a, 3, b, is_odd(k / 2 / 2));
    put_bit(rows, a, 4, b, is_odd(k / 2 / 2 / 2));
}

// b becomes a neighbour of a, by k circuits.
fn add_end(rows: &mut Rows, a: usize, b: usize, k: usize)
    requires { Bus width a × Bus width b }
    ensures { rows.new ≡ with_end rows.old a b k }
{
    put_bit(rows, a, 0, b, true);
    set_circuits(rows, a, b, k);
}

// A line of k circuits: a and b become neighbours of each other.
pub fn add_line(rows: &mut Rows, a: usize, b: usize, k: usize)
    requires { Bus width a × Bus width b }
    ensures { rows.new ≡ with_line rows.old a b k }
{
    add_end(rows, a, b, k);
    add_end(rows, b, a, k);
}

// No line.
pub fn no_rows() -> Rows
    ensures { result ≡ no_rows }
{
    [BusSet::none(); ROWS_LENGTH]
}

impl Case {
    // The neighbours of bus b.
    pub fn neighbours(&self, b: usize) -> BusSet
        requires { Bus width b }
        ensures { set_of result ≡ neighbours self.now.nbr b }
    {
        set_at(&self.nbr, b, 0)
    }

    // The circuits from a to b, as a counts them: 0 to 15.
    pub fn circuits(&self, a: usize, b: usize) -> usize
        requires { Bus width a × Bus width b }
        ensures { result ≡ circuits_of self.now.nbr a b }
    {
        let high = digit(&self.nbr, a, 3, b) + 2 * digit(&self.nbr, a, 4, b);
        digit(&self.nbr, a, 1, b) + 2 * (digit(&self.nbr, a, 2, b) + 2 * high)
    }

    // The case with a line of k circuits, at most 15, between a and b.
    pub fn with_line(self, a: usize, b: usize, k: usize) -> Case
        requires { Bus width a × Bus width b }
        ensures { result ≡ line_added self a b k }
    {
        let mut c = self;
        add_line(&mut c.nbr, a, b, k);
        c
    }

    // These buses and their neighbours.
    pub fn with_neighbours(&self, buses: BusSet) -> BusSet
        ensures { WithNeighbours (neighbours self.now.nbr) (set_of buses) (set_of result) }
    {
        let mut near = BusSet::none();
        for b in buses {
            near = near.union(self.neighbours(b));
        }
        buses.union(near)
    }

    // Whether s has all n buses.
    pub fn is_full(&self, s: BusSet) -> bool
        requires { self.now.n ≤ width }
        ensures { Decides (Full self.now.n (set_of s)) result }
    {
        BusSet::all(self.n).is_subset(s)
    }
}
