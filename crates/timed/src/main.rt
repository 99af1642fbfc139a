// Asks one call again and again, and prints the last answer as one number. The first line of standard input says the
// call and how often it is asked; the rest is a case text. A set is printed as its word.
#![tactic(auto)]

use grid::limits::{LARGEST_BUDGET, MOST_BUSES};
use wozgrzyt::{BusSet, Case, Refusal};

// 100 times the place plus the number.
fn code(q: Refusal) -> u64 {
    (q.place() % 100000) as u64 * 100 + (q.number() % 100) as u64
}

// Whether the text is read: 0, or the refusal's code.
fn read(text: &[u8]) -> u64 {
    match wozgrzyt::read_case(text) {
        Ok(_) => 0,
        Err(q) => code(q),
    }
}

// The word of the set; 0 for a refusal.
fn word(answer: Result<BusSet, Refusal>) -> u64 {
    match answer {
        Ok(s) => u64::from(s),
        Err(_) => 0,
    }
}

// The last answer of a call that is asked so many times; 0 if it is not asked.
fn last<F: FnMut() -> u64>(turns: usize, mut call: F) -> u64
    requires { F.IsAlwaysCallable call }
{
    let mut answer: u64 = 0;
    for _ in 0..turns {
        answer = call();
    }
    answer
}

// The most numbers that the list of the rounds has.
const MOST_LISTED: usize = 2 * MOST_BUSES;

// How many rounds there are; 0 if the case is refused.
fn counted(case: &Case, room: &mut [usize; MOST_LISTED]) -> u64 {
    match wozgrzyt::observed_rounds(*case, room) {
        Ok(listed) => listed.rounds as u64,
        Err(_) => 0,
    }
}

// All numbers of the room, mixed into one.
fn mixed(room: &[usize]) -> u64 {
    let mut sum: u64 = 0;
    for &x in room {
        sum = sum % 1000003 * 1009 + (x % 1009) as u64;
    }
    sum
}

// The numbers and the rounds as one, whose last two digits say how many rounds there are.
fn lists(case: &Case, turns: usize) -> u64 {
    let mut room: [usize; MOST_LISTED] = [0; MOST_LISTED];
    let mut rounds: u64 = 0;
    for _ in 0..turns {
        rounds = counted(case, &mut room);
    }
    mixed(&room) % 1000003 * 100 + rounds % 100
}

// o: the observed set. i: in rounds. p: the fewest.
fn of_case(letter: u8, turns: usize, case: Case) -> u64 {
    match letter {
        b'o' => last(turns, || word(wozgrzyt::observed_set(case))),
        b'i' => lists(&case, turns),
        _ => last(turns, || word(wozgrzyt::place_fewest(case, LARGEST_BUDGET))),
    }
}

// What the letter says; any other letter: reading.
fn answer(letter: u8, turns: usize, text: &[u8]) -> u64 {
    match letter {
        b'o' | b'i' | b'p' => match wozgrzyt::read_case(text) {
            Ok(case) => of_case(letter, turns, case),
            Err(_) => 0,
        },
        _ => last(turns, || read(text)),
    }
}

fn whole(input: &[u8]) -> u64 {
    if input.len() < 1 {
        return 0;
    }
    let l = asked::line_at(input, 0);
    let next = l.next;
    answer(l.letter, l.a, &input[next..])
}

fn main() {
    let mut room: [u8; 16400] = [0; 16400];
    let n = io::read_full(0, &mut room);
    io::print_decimal(1, whole(&room[..n]));
    io::write_all(1, b"\n");
}
