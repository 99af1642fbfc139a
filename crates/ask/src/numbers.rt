// Calls that write into lent numbers: greedy placement and rounds. Each number is filled with one of its own, which is
// no bus and no count of buses.
use crate::printing;
use wozgrzyt::{Listed, Refusal};

// How many numbers are lent at most.
const MOST_LENT: usize = 136;

// What number i is filled with.
fn filling(i: usize) -> usize {
    100 + i % MOST_LENT
}

fn filled() -> [usize; MOST_LENT] {
    let mut out: [usize; MOST_LENT] = [0; MOST_LENT];
    for (i, b) in out.iter_mut().enumerate() {
        *b = filling(i);
    }
    out
}

// Number i: printed if it is one of the first k, and told if it is another and not as it was filled.
fn one(k: usize, i: usize, b: usize) {
    if i < k {
        printing::spaced(b);
    } else if b != filling(i) {
        printing::text(b" written");
    }
}

// Lends the first `room` numbers to a call, which prints its answer and gives back how many it wrote. These are
// printed.
pub fn lent<F: FnOnce(&mut [usize]) -> usize>(room: usize, call: F)
    requires { F.IsAlwaysCallable call }
{
    let mut out = filled();
    let k = call(&mut out[..room.min(MOST_LENT)]);
    for (i, &b) in out.iter().enumerate() {
        one(k, i, b);
    }
}

// How many sites were added; none beside a refusal, which is printed.
pub fn added(answer: Result<usize, Refusal>) -> usize {
    match answer {
        Ok(k) => k,
        Err(q) => {
            printing::refused(q);
            0
        }
    }
}

// How many numbers were written; none beside a refusal. How many rounds there are, or the refusal, is printed.
pub fn listed(answer: Result<Listed, Refusal>) -> usize {
    match answer {
        Ok(list) => {
            printing::text(b" rounds");
            printing::spaced(list.rounds);
            printing::text(b", list");
            list.numbers
        }
        Err(q) => {
            printing::refused(q);
            0
        }
    }
}
