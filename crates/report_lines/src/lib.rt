// What every program prints: the line of a refusal, and a text printed into the bytes lent.
#![tactic(auto)]

ghost use Rattle.std.specs.Prelude.{◌≡◌, List, ℕ, ◌<◌};
ghost use Rattle.refusals.specs.Refusals.{place_of};
ghost use Rattle.text_field.specs.Number.{most_printed};
ghost use Rattle.text_put.specs.Put.{Put, PutsText, far_line};
ghost use Rattle.report_lines.specs.Printing.{refused_text, IsRefusedText, PrintedReply};

use refusals::Refusal;
use text_put::{put_pair, put_whole};

// `refused number place`.
#[tactic(auto, unfolding(crate::specs::Printing::refused_text, text_field::specs::Split::join))]
pub fn put_refused(out: &mut [u8], at: usize, q: Refusal) -> usize
    requires { (at < far_line) × (place_of q < most_printed) }
    ensures { Put out.old at (refused_text q) out.new result }
{
    put_pair(out, at, b"refused\t", q.number() as usize, b"\t", q.place())
}

// What `put` puts, in the bytes lent.
pub fn print<F: Fn(&mut [u8]) -> usize>(out: &mut [u8], put: F) -> Result<usize, Refusal>
    requires { F.IsAlwaysCallable put }
    ensures { (text : List ℕ) → PutsText (F.post put) text
        → PrintedReply (λ t. t ≡ text) out.old out.new result }
{
    put_whole(out, put).ok_or(Refusal::NoRoom)
}

// The line of a refusal, in the bytes lent.
pub fn print_refused(out: &mut [u8], q: Refusal) -> Result<usize, Refusal>
    requires { place_of q < most_printed }
    ensures { PrintedReply (IsRefusedText q) out.old out.new result }
{
    print(out, |out| put_refused(out, 0, q))
}
