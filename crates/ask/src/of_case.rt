// What is asked of a case value, and what is printed for it.
use crate::{lists, numbers, printing, rooms};
use wozgrzyt::{BusSet, Case, Refusal};

fn set(answer: Result<BusSet, Refusal>) {
    match answer {
        Ok(s) => printing::set(s),
        Err(q) => printing::refused(q),
    }
}

fn figure(case: Case, s: BusSet, i: usize, j: usize) {
    match wozgrzyt::firing_figure(case, s, i, j) {
        Ok(y) => printing::signed(y),
        Err(q) => printing::refused(q),
    }
}

fn derivation(case: Case) {
    match wozgrzyt::derivation(case) {
        Ok(steps) => lists::print(&steps),
        Err(q) => printing::refused(q),
    }
}

// o: the observed set. i: in rounds, into room for a. f: the figure from a to b. d: the derivation.
// v: cross-validation. g: greedy with budget a, into room for b. p: the fewest with budget a.
// W: the case written into a bytes.
pub fn reply(case: Case, s: BusSet, letter: u8, a: usize, b: usize) {
    match letter {
        b'o' => set(wozgrzyt::observed_set(case)),
        b'i' => numbers::lent(
            a,
            |out| numbers::listed(wozgrzyt::observed_rounds(case, out)),
        ),
        b'f' => figure(case, s, a, b),
        b'd' => derivation(case),
        b'v' => set(wozgrzyt::cross_validate(case)),
        b'g' => numbers::lent(
            b,
            |out| numbers::added(wozgrzyt::place_greedy(case, a, out)),
        ),
        b'p' => set(wozgrzyt::place_fewest(case, a)),
        b'W' => rooms::lent(a, |out| wozgrzyt::write_case(case, out)),
        _ => printing::text(b" no such question"),
    }
}
