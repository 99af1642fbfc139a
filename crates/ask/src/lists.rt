// Lists of up to 1,032 steps, more than a list may have, and records that are lent.
ghost use Rattle.std.specs.Prelude.{◌≤◌, length};

use crate::printing;
use fixed_list::FixedList;
use wozgrzyt::{Reason, Refusal, Step};

// How many steps a list has at most, and how many records are lent.
pub const MOST_RECORDS: usize = 1032;

pub type Plan = FixedList<Step, MOST_RECORDS>;

// The reason with this letter: that names bus b, or that names none.
fn reason_of(letter: u8, b: usize) -> Option<Reason> {
    Reason::of(letter, Some(b)).or(Reason::of(letter, None))
}

fn is_step(letter: u8) -> bool {
    reason_of(letter, 0).is_some()
}

// The step of bus a whose reason has this letter; own unit for a letter of no reason.
fn step_of(letter: u8, a: usize, b: usize) -> Step {
    Step {
        bus: a,
        reason: reason_of(letter, b).unwrap_or_default(),
    }
}

// The steps of the lines of the block from `from` up to `to`.
pub fn listed(block: &[u8], from: usize, to: usize) -> Plan
    requires { to ≤ length block.now }
{
    let mut steps = Plan::blank(Step::default());
    let mut at = from;
    while at < to {
        if steps.is_full() {
            return steps;
        }
        let l = asked::line_at(block, at);
        if is_step(l.letter) {
            steps.push(step_of(l.letter, l.a, l.b));
        }
        at = l.next;
    }
    steps
}

// The first of these steps; where there is none, what the last line says, by own unit.
pub fn first(block: &[u8], from: usize, to: usize) -> Step
    requires { to ≤ length block.now }
{
    let mut step = Step::default();
    let mut at = from;
    while at < to {
        let l = asked::line_at(block, at);
        step = step_of(l.letter, l.a, l.b);
        if is_step(l.letter) {
            return step;
        }
        at = l.next;
    }
    step
}

pub fn print(steps: &[Step]) {
    for &x in steps {
        printing::step(x);
    }
}

// What record i is filled with before it is lent: a step that no list has.
fn filling(i: usize) -> Step {
    let i = i % MOST_RECORDS;
    Step {
        bus: 100 + i,
        reason: Reason::NeighbourOf(200 + i),
    }
}

pub fn filled() -> [Step; MOST_RECORDS] {
    let mut records = [Step::default(); MOST_RECORDS];
    for (i, x) in records.iter_mut().enumerate() {
        *x = filling(i);
    }
    records
}

// Whether every record from `from` on is as it was filled.
fn is_kept(records: &[Step; MOST_RECORDS], from: usize) -> bool {
    records
        .iter()
        .enumerate()
        .skip(from)
        .all(|(i, &x)| x == filling(i))
}

// The first `count` records, printed.
pub fn written(records: &[Step; MOST_RECORDS], count: usize)
    requires { count ≤ MOST_RECORDS }
{
    printing::spaced(count);
    printing::text(b" written");
    print(&records[..count]);
}

// Whether the records from `from` on are as they were, printed.
pub fn rest(records: &[Step; MOST_RECORDS], from: usize) {
    printing::rest(is_kept(records, from));
}

// A refusal, and whether all records are as they were.
pub fn refused(q: Refusal, records: &[Step; MOST_RECORDS]) {
    printing::refused(q);
    rest(records, 0);
}
