// Texts, numbers, sets, steps, cases and refusals, printed.
ghost use Rattle.busset.specs.Sets.{Bus, width};

use grid::limits::MOST_BUSES;
use wozgrzyt::{BusSet, Case, Reason, Refusal, Step};

pub fn text(bytes: &[u8]) {
    io::write_all(1, bytes);
}

pub fn number(n: usize) {
    io::print_decimal(1, n as u64);
}

pub fn spaced(n: usize) {
    text(b" ");
    number(n);
}

pub fn signed(y: i32) {
    text(b" ");
    if y < 0 {
        text(b"-");
    }
    io::print_decimal(1, y.unsigned_abs() as u64);
}

pub fn refused(q: Refusal) {
    text(b" refused");
    spaced(q.number() as usize);
    spaced(q.place());
}

// The buses of a set.
pub fn set(s: BusSet) {
    for b in s {
        spaced(b);
    }
}

// The set that a list reaches, and whether the list is finished.
pub fn reached(s: BusSet, finished: bool) {
    set(s);
    if finished {
        text(b" finished");
    } else {
        text(b" unfinished");
    }
}

fn reason(r: Reason) {
    text(&[r.letter()]);
    if let Some(b) = r.named() {
        number(b);
    }
}

pub fn step(x: Step) {
    spaced(x.bus);
    reason(x.reason);
}

// Whether what was lent past the answer is as it was.
pub fn rest(is_kept: bool) {
    if is_kept {
        text(b", rest kept");
    } else {
        text(b", rest changed");
    }
}

fn row(b: usize, s: BusSet) {
    if !s.is_none() {
        text(b",");
        spaced(b);
        text(b" to");
        set(s);
    }
}

fn rows(case: &Case) {
    for b in 1..=MOST_BUSES {
        row(b, case.neighbours(b));
    }
}

// The circuits that a row says: one to a neighbour, and none to another bus.
fn said(row: BusSet, b: usize) -> usize
    requires { Bus width b }
{
    if row.has(b) { 1 } else { 0 }
}

// The circuits that a counts to b, if the row of a does not say them.
fn count(case: &Case, a: usize, b: usize)
    requires { Bus width a × Bus width b }
{
    let k = case.circuits(a, b);
    if k != said(case.neighbours(a), b) {
        text(b", circuits");
        spaced(a);
        spaced(b);
        spaced(k);
    }
}

fn counts(case: &Case) {
    for a in 1..=MOST_BUSES {
        for b in 1..=MOST_BUSES {
            count(case, a, b);
        }
    }
}

fn named(name: &[u8], s: BusSet) {
    text(name);
    set(s);
}

// Every field of a case; a row with no bus is left out, and so is a count that the rows say.
pub fn case(case: &Case) {
    text(b", n");
    spaced(case.n);
    rows(case);
    counts(case);
    named(b", zero", case.zero);
    named(b", site", case.site);
    named(b", units", case.units);
}
