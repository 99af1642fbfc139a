// The trainer's call: observation in rounds, as a list of numbers in the room lent.
#![tactic(auto)]

ghost use Rattle.std.specs.Prelude.{List, ◌∷◌, ℕ, suc, ◌+◌, ◌≤◌, ◌<◌, length};
ghost use Rattle.busset.specs.Sets.{width};
ghost use Rattle.text_put.specs.Put.{Put, far_line};
ghost use Rattle.round_list.specs.Rounds.{HoldsBuses, HeldRounds};
ghost use Rattle.round_calls.specs.Replies.{round_numbers, RoundsReply};

use busset::BusSet;
use grid::Case;
use refusals::Refusal;
use text_put::{put_one, put_whole};

// How many numbers are written, and how many rounds there are.
#[derive(Clone, Copy)]
pub struct Listed {
    pub numbers: usize,
    pub rounds: usize,
}

// A round: how many buses it adds, and these, rising.
fn put_round(out: &mut [usize], at: usize, r: BusSet) -> usize
    requires { at < far_line }
    ensures { (result ≤ at + suc width) × ((buses : List ℕ) → HoldsBuses r buses
        → Put out.old at (length buses ∷ buses) out.new result) }
{
    let mut k = put_one(out, at, r.count());
    for b in r {
        k = put_one(out, k, b);
    }
    k
}

// Every round, from the first number on.
fn put_rounds(out: &mut [usize], sets: &[BusSet]) -> usize
    requires { (rounds : List (List ℕ)) × HeldRounds sets.now rounds }
    ensures { (rounds : List (List ℕ)) → HeldRounds sets.now rounds
        → Put out.old 0 (round_numbers rounds) out.new result }
{
    let mut k = 0;
    for &r in sets {
        k = put_round(out, k, r);
    }
    k
}

// The rounds of the case, in the room lent: for each the number of its buses, then the buses.
pub fn observed_rounds(case: Case, room: &mut [usize]) -> Result<Listed, Refusal>
    ensures { RoundsReply case room.old room.new result }
{
    case.check()?;
    let sets = round_list::rounds(&case);
    let numbers = put_whole(room, |out| put_rounds(out, &sets)).ok_or(Refusal::NoRoom)?;
    let rounds = sets.len();
    Ok(Listed { numbers, rounds })
}
