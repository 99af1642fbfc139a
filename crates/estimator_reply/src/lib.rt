// The number that answers the C program, and the eight bytes.
#![tactic(auto)]

ghost use Rattle.std.specs.Prelude.{◌≡◌, ◌++◌, ◌≤◌, length, drop};
ghost use Rattle.busset.specs.Bytes.{set_bytes, set_length};
ghost use Rattle.refusals.specs.Refusals.{place_of};
ghost use Rattle.estimator_reply.specs.Results.{farthest, PlaceInRange, code_of, result_of, Replied};

use busset::{BusSet, SET_BYTES};
use refusals::{Refusal, ReplayError};

// 100 times the place plus the refusal number.
fn code(q: Refusal) -> u32
    requires { place_of q ≤ farthest }
    ensures { result ≡ code_of q }
{
    let place = q.place() as u32;
    let number = q.number();
    100 * place + number
}

// The set goes into the first eight bytes lent.
fn fill(s: BusSet, set: &mut [u8])
    requires { set_length ≤ length set.old }
    ensures { set.new ≡ set_bytes s ++ drop set_length set.old }
{
    for i in 0..SET_BYTES {
        set[i] = s.byte_of(i);
    }
}

// The number of an answer where so many bytes are lent.
fn result(answer: &Result<BusSet, ReplayError>, room: usize) -> u32
    requires { PlaceInRange answer.now }
    ensures { result ≡ result_of answer.now room }
{
    match *answer {
        Ok(_) if room < SET_BYTES => code(Refusal::NoRoom),
        Ok(_) => 0,
        Err(ReplayError::List(q)) => code(q),
        Err(ReplayError::Text(q)) => code(q) + 50,
    }
}

// The number of an answer, for so many bytes lent. Only if it is 0 are they filled.
pub fn reply(answer: Result<BusSet, ReplayError>, set: &mut [u8]) -> u32
    requires { PlaceInRange answer }
    ensures { Replied answer set.old set.new result }
{
    let r = result(&answer, set.len());
    if r == 0 {
        fill(answer.unwrap_or_default(), set);
    }
    r
}
