// The lines of a day report.
ghost use Rattle.std.specs.Prelude.{[], ◌∷◌, ◌<◌, ◌≤◌, ◌^◌, length};
ghost use Rattle.busset.specs.Sets.{width};
ghost use Rattle.text_field.specs.Split.{bytes};
ghost use Rattle.text_field.specs.Number.{number_text};
ghost use Rattle.text_put.specs.Put.{Put};
ghost use Rattle.report_lines.specs.Printing.{printed_line};
ghost use Rattle.report_day.specs.Day.{steps_text, verdict_fields, day_text};
ghost use Rattle.report_day.specs.Listing.{Named};

use step::Step;
use step_line::put::put_step;
use text_put::{put_all, put_byte, put_pair, put_tagged};

// `observed count n`.
#[tactic(auto, unfolding(text_field::specs::Split::join))]
fn put_observed(out: &mut [u8], count: usize, n: usize) -> usize
    requires { (count ≤ width) × (n ≤ width) }
    ensures { Put out.old 0
        (printed_line (bytes "observed") (number_text count ∷ number_text n ∷ []))
        out.new result }
{
    put_pair(out, 0, b"observed\t", count, b"\t", n)
}

// A line for each step.
fn put_steps(out: &mut [u8], at: usize, steps: &[Step]) -> usize
    requires { (at < 2 ^ 20) × Named steps.now }
    ensures { Put out.old at (steps_text steps.now) out.new result }
{
    let mut k = at;
    for &x in steps {
        k = put_step(out, k, x);
    }
    k
}

// The verdict, where so many units are unconfirmed.
#[tactic(auto, unfolding(text_field::specs::Split::join))]
fn put_verdict(out: &mut [u8], at: usize, alone: usize) -> usize
    requires { (at < 2 ^ 29) × (alone ≤ width) }
    ensures { Put out.old at (printed_line (bytes "xv") (verdict_fields alone)) out.new result }
{
    if alone == 0 {
        put_all(out, at, b"xv\tyes\n")
    } else {
        let a = put_tagged(out, at, b"xv\tno\t", alone);
        put_byte(out, a, b'\n')
    }
}

// The whole report from the first byte on, and its length.
pub fn put_day(out: &mut [u8], n: usize, steps: &[Step], alone: usize) -> usize
    requires { (n ≤ width) × Named steps.now × (alone ≤ width) }
    ensures { Put out.old 0 (day_text (length steps.now) n steps.now alone) out.new result }
{
    let a = put_observed(out, steps.len(), n);
    let b = put_steps(out, a, steps);
    let c = put_verdict(out, b, alone);
    put_all(out, c, b"end\n")
}
