// The calls on texts: a case text read and written; a step text checked, read and replayed.
#![tactic(auto)]

ghost use Rattle.text_calls.specs.Replies.{CaseWrittenReply};

use case_write::cases::{count_bytes, put_case};
use grid::Case;
use refusals::Refusal;

// passed on from the crates of their subjects
pub use case_read::read_case;
pub use step_records::read_steps;
pub use step_replay::replay_text;
pub use step_text::check_steps;

// The text of a case, written into the bytes lent.
pub fn write_case(case: Case, out: &mut [u8]) -> Result<usize, Refusal>
    ensures { CaseWrittenReply case out.old result out.new }
{
    case.check()?;
    if out.len() < count_bytes(&case) {
        return Err(Refusal::NoRoom);
    }
    Ok(put_case(out, &case))
}
