// Case values and stated sets, drawn bus by bus and line by line. What names no bus of a word is left out.
ghost use Rattle.busset.specs.Sets.{Bus, width};

use busset::is_bus;
use grid::limits::MOST_BUSES;
use wozgrzyt::{BusSet, Case};

// n buses, all I and Y, with no line and no unit.
pub fn blank(n: usize) -> Case {
    let site = if n <= MOST_BUSES {
        BusSet::all(n)
    } else {
        BusSet::none()
    };
    Case {
        n,
        nbr: grid::no_rows(),
        zero: BusSet::none(),
        site,
        units: BusSet::none(),
    }
}

// The set with bus b, if a word has room for it.
fn marked(s: BusSet, b: usize) -> BusSet {
    if is_bus(MOST_BUSES, b) { s.with(b) } else { s }
}

fn unmarked(s: BusSet, b: usize) -> BusSet {
    if is_bus(MOST_BUSES, b) {
        s.without(b)
    } else {
        s
    }
}

// The most circuits that can be counted: four binary digits hold a count.
const MOST_COUNTED: usize = 15;

// Bus a sees bus b as a neighbour, and counts as many circuits to it as it did.
fn see_neighbour(case: &mut Case, a: usize, b: usize)
    requires { Bus width a × Bus width b }
{
    let near = case.neighbours(a).with(b);
    grid::set_row(&mut case.nbr, a, near);
}

// Bus a counts one circuit more to bus b.
fn count_circuit(case: &mut Case, a: usize, b: usize)
    requires { Bus width a × Bus width b }
{
    let k = case.circuits(a, b);
    if k < MOST_COUNTED {
        grid::set_circuits(&mut case.nbr, a, b, k + 1);
    }
}

// Bus a sees a line of one circuit to bus b.
fn see_line(case: &mut Case, a: usize, b: usize)
    requires { Bus width a × Bus width b }
{
    see_neighbour(case, a, b);
    grid::set_circuits(&mut case.nbr, a, b, 1);
}

// What a line draws between two buses. l, h: a line of one circuit, and half of one, seen from a alone.
// j, c: a neighbour, and one circuit more, seen from a alone.
fn draw_between(case: &mut Case, letter: u8, a: usize, b: usize) {
    if !is_bus(MOST_BUSES, a) {
        return;
    }
    if !is_bus(MOST_BUSES, b) {
        return;
    }
    match letter {
        b'l' => grid::add_line(&mut case.nbr, a, b, 1),
        b'h' => see_line(case, a, b),
        b'j' => see_neighbour(case, a, b),
        b'c' => count_circuit(case, a, b),
        _ => {}
    }
}

// What a line draws at the case. n: as many buses. z, y, x, u: a Z bus, a Y site, an N site, a unit.
pub fn draw(case: &mut Case, letter: u8, a: usize, b: usize) {
    match letter {
        b'n' => *case = blank(a),
        b'z' => case.zero = marked(case.zero, a),
        b'y' => case.site = marked(case.site, a),
        b'x' => case.site = unmarked(case.site, a),
        b'u' => case.units = marked(case.units, a),
        _ => draw_between(case, letter, a, b),
    }
}

// The stated set. n: none. s: one bus more.
pub fn stated(s: BusSet, letter: u8, a: usize) -> BusSet {
    match letter {
        b'n' => BusSet::none(),
        b's' => marked(s, a),
        _ => s,
    }
}
