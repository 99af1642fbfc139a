// The line of a step.
ghost use Rattle.std.specs.Prelude.{[], ◌∷◌, ◌++◌, ◌<◌, ◌^◌};
ghost use Rattle.busset.specs.Sets.{width};
ghost use Rattle.rules.specs.Steps.{Names};
ghost use Rattle.text_field.specs.Split.{line_feed};
ghost use Rattle.step_line.specs.StepLine.{step_text};
ghost use Rattle.text_put.specs.Put.{Put};

use step::Step;

// A step and its line feed.
pub fn put_step(out: &mut [u8], at: usize, x: Step) -> usize
    requires { (at < 2 ^ 29) × Names width x }
    ensures { Put out.old at (step_text x ++ line_feed ∷ []) out.new result }
{
    let b = x.bus;
    let l = x.reason.letter();
    match x.reason.named() {
        None => {
            let a = text_put::put_tagged(out, at, b"step\t", b);
            text_put::put_all(out, a, &[b'\t', l, b'\n'])
        }
        Some(p) => text_put::put_pair(out, at, b"step\t", b, &[b'\t', l, b'\t'], p),
    }
}
