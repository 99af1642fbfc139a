// Calls that write into lent bytes. Each byte is filled by its index, with one that no text has.
use crate::printing;
use wozgrzyt::Refusal;

// How many bytes are lent at most.
const MOST_LENT: usize = 16400;

fn filling(i: usize) -> u8 {
    128 + (i % 101) as u8
}

fn filled() -> [u8; MOST_LENT] {
    let mut out: [u8; MOST_LENT] = [0; MOST_LENT];
    for (i, b) in out.iter_mut().enumerate() {
        *b = filling(i);
    }
    out
}

// Whether every byte from `from` on is as it was filled.
fn is_kept(out: &[u8; MOST_LENT], from: usize) -> bool {
    out.iter()
        .enumerate()
        .skip(from)
        .all(|(i, &b)| b == filling(i))
}

// How many bytes were written; none beside a refusal. Either is printed.
fn count(answer: Result<usize, Refusal>) -> usize {
    match answer {
        Ok(k) => {
            printing::text(b" written");
            printing::spaced(k);
            k
        }
        Err(q) => {
            printing::refused(q);
            0
        }
    }
}

// Lends the first `room` bytes to a call. Its answer is printed, and whether the other bytes are as they were; what was
// written is printed on lines of its own.
pub fn lent<F: FnOnce(&mut [u8]) -> Result<usize, Refusal>>(room: usize, call: F)
    requires { F.IsAlwaysCallable call }
{
    let mut out = filled();
    let k = count(call(&mut out[..room.min(MOST_LENT)])).min(MOST_LENT);
    printing::rest(is_kept(&out, k));
    printing::text(b"\n");
    printing::text(&out[..k]);
}
