// A step text read into lent records.
#![tactic(auto)]

ghost use Rattle.step_text.specs.Taking.{StepsReadReply};

use refusals::Refusal;
use step::Step;
use step_text::taking::{check_room, count_of, take};

// Writes the steps of the text, and answers how many.
pub fn read_steps(text: &[u8], out: &mut [Step]) -> Result<usize, Refusal>
    ensures { StepsReadReply text.now out.old out.new result }
{
    let answer = check_room(text, out.len());
    let mut at = 0;
    for i in 0..count_of(answer) {
        let taken = take(text, at);
        out[i] = taken.step;
        at = taken.next;
    }
    answer
}
