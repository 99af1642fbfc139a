// What is asked of a list of steps, and what is printed for it.
ghost use Rattle.std.specs.Prelude.{◌≤◌, length};

use crate::lists::MOST_RECORDS;
use crate::{lists, printing};
use wozgrzyt::{BusSet, Case, Step};

fn tested(case: Case, s: BusSet, step: Step) {
    match wozgrzyt::test_step(case, s, step) {
        Ok(()) => printing::text(b" allowed"),
        Err(q) => printing::refused(q),
    }
}

fn replay(case: Case, steps: &[Step]) {
    match wozgrzyt::replay(case, steps) {
        Ok(r) => printing::reached(r.set, r.finished),
        Err(q) => printing::refused(q),
    }
}

// The list written, the set reached, whether the records past the list are as they were, and the list replayed.
fn written(case: &Case, records: &[Step; MOST_RECORDS], count: usize, reached: BusSet) {
    let count = count.min(MOST_RECORDS);
    lists::written(records, count);
    printing::text(b", reached");
    printing::set(reached);
    lists::rest(records, count);
    printing::text(b", replayed");
    replay(*case, &records[..count]);
}

// Into the first `room` records.
fn weave(case: Case, steps: &[Step], room: usize) {
    let mut records = lists::filled();
    let most = room.min(MOST_RECORDS);
    match wozgrzyt::weave(case, steps, &mut records[..most]) {
        Ok(w) => written(&case, &records, w.count, w.set),
        Err(q) => lists::refused(q, &records),
    }
}

// t: the first step is tested in the stated set. r: the list is replayed. Any other: it is woven into a records.
pub fn reply(block: &[u8], from: usize, to: usize, case: Case, s: BusSet, letter: u8, a: usize)
    requires { to ≤ length block.now }
{
    match letter {
        b't' => tested(case, s, lists::first(block, from, to)),
        b'r' => replay(case, &lists::listed(block, from, to)),
        _ => weave(case, &lists::listed(block, from, to), a),
    }
}
