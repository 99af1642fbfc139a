// Asks every public call what standard input asks, and prints each reply with what was lent.
// tests/questions.py makes the questions, and the replies by the references beside it.
// A line is a letter, two numbers a and b, and a name if it asks. Each module says what its letters mean.
#![tactic(auto)]

ghost use Rattle.std.specs.Prelude.{◌≤◌, length};
ghost use Rattle.asked.specs.Lines.{LineAt};

mod drawing;
mod lists;
mod numbers;
mod of_case;
mod of_steps;
mod of_text;
mod printing;
mod rooms;

use asked::Line;
use wozgrzyt::{BusSet, Case};

// Where the steps of the list start, and where the text starts and ends.
#[derive(Clone, Copy)]
struct Marks {
    list: usize,
    from: usize,
    to: usize,
}

// Where the line's text ends: T has as many bytes after its line as it says.
fn text_end(count: usize, letter: u8, a: usize, next: usize) -> usize
    requires { next ≤ count }
    ensures { (next ≤ result) × (result ≤ count) }
{
    if letter != b'T' {
        return next;
    }
    if count - next < a {
        return count;
    }
    next + a
}

// The marks after a line. T: the text, and no step after it. n, e: no step.
fn marked(m: Marks, letter: u8, next: usize, end: usize) -> Marks {
    match letter {
        b'T' => Marks {
            list: end,
            from: next,
            to: end,
        },
        b'n' | b'e' => Marks {
            list: end,
            from: m.from,
            to: m.to,
        },
        _ => m,
    }
}

// What is asked of the text.
fn with_text(block: &[u8], m: Marks, case: Case, letter: u8, a: usize) {
    if let Some(text) = block.get(m.from..m.to) {
        of_text::reply(text, case, letter, a);
    }
}

// The call that the letter says.
fn reply(block: &[u8], at: usize, m: Marks, case: Case, s: BusSet, l: Line)
    requires { at ≤ length block.now }
{
    let letter = l.letter;
    match letter {
        b't' | b'r' | b'w' => of_steps::reply(block, m.list, at, case, s, letter, l.a),
        b'R' | b'C' | b'S' | b'P' | b'D' | b'I' | b'L' => with_text(block, m, case, letter, l.a),
        _ => of_case::reply(case, s, letter, l.a, l.b),
    }
}

// What a line asks. Only those that ask have a name.
fn ask(block: &[u8], at: usize, m: Marks, case: Case, s: BusSet, l: Line)
    requires { (at ≤ length block.now) × LineAt block.now at l }
{
    if l.name < l.end {
        printing::text(&block[l.name..l.end]);
        printing::text(b":");
        reply(block, at, m, case, s, l);
        printing::text(b"\n");
    }
}

// Line after line: each draws at the case, states a bus, says a text or a step, or asks.
fn questions(block: &[u8]) {
    let mut case = drawing::blank(0);
    let mut stated = BusSet::none();
    let mut marks = Marks {
        list: 0,
        from: 0,
        to: 0,
    };
    let mut at: usize = 0;
    while at < block.len() {
        let l = asked::line_at(block, at);
        drawing::draw(&mut case, l.letter, l.a, l.b);
        stated = drawing::stated(stated, l.letter, l.a);
        ask(block, at, marks, case, stated, l);
        let end = text_end(block.len(), l.letter, l.a, l.next);
        marks = marked(marks, l.letter, l.next, end);
        at = end;
    }
}

// Block after block. No question goes over the end of one.
fn main() {
    let mut room: [u8; 32768] = [0; 32768];
    for _ in 0..65536usize {
        let n = io::read_full(0, &mut room);
        if n == 0 {
            return;
        }
        questions(&room[..n]);
    }
}
