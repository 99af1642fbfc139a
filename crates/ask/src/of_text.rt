// What is asked of a text, and what is printed for it.
use crate::lists::MOST_RECORDS;
use crate::{drawing, lists, printing, rooms};
use wozgrzyt::{Case, ReplayError};

// The answer, and every field of the case that is read; of a case of no buses where the text is refused.
fn read(text: &[u8]) {
    match wozgrzyt::read_case(text) {
        Ok(case) => {
            printing::text(b" read");
            printing::case(&case);
        }
        Err(q) => {
            printing::refused(q);
            printing::case(&drawing::blank(0));
        }
    }
}

fn checked(text: &[u8]) {
    match wozgrzyt::check_steps(text) {
        Ok(n) => printing::spaced(n),
        Err(q) => printing::refused(q),
    }
}

// The steps, in the first `room` records, and whether the other records are as they were.
fn steps_into(text: &[u8], room: usize) {
    let mut records = lists::filled();
    let most = room.min(MOST_RECORDS);
    let answer = wozgrzyt::read_steps(text, &mut records[..most]);
    match answer {
        Ok(n) => {
            let count = n.min(MOST_RECORDS);
            lists::written(&records, count);
            lists::rest(&records, count);
        }
        Err(q) => lists::refused(q, &records),
    }
}

// The set reached, a refusal of the list, or a refusal in reading its text.
fn replayed(case: Case, text: &[u8]) {
    match wozgrzyt::replay_text(case, text) {
        Ok(r) => printing::reached(r.set, r.finished),
        Err(ReplayError::List(q)) => printing::refused(q),
        Err(ReplayError::Text(q)) => {
            printing::text(b" unread,");
            printing::refused(q);
        }
    }
}

// R: the case of the text. C: its steps counted. S: its steps, into a records. P: its steps, replayed.
// D: its day report, into a bytes. I: its report in rounds, into a bytes.
// Any other: the planning program's reply to it, into a bytes.
pub fn reply(text: &[u8], case: Case, letter: u8, a: usize) {
    match letter {
        b'R' => read(text),
        b'C' => checked(text),
        b'S' => steps_into(text, a),
        b'P' => replayed(case, text),
        b'D' => rooms::lent(a, |out| wozgrzyt::day_report(text, out)),
        b'I' => rooms::lent(a, |out| wozgrzyt::rounds_report(text, out)),
        _ => rooms::lent(a, |out| wozgrzyt::plan_report(text, out)),
    }
}
