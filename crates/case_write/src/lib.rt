// Records written into lent bytes.
#![tactic(auto)]

ghost use Rattle.std.specs.Prelude.{◌∷◌, ◌<◌};
ghost use Rattle.text_field.specs.Split.{tab};
ghost use Rattle.case_line.specs.Record.{letter_if, record_text, Formed};
ghost use Rattle.text_put.specs.Put.{Put, far_field, far_line};
ghost use Rattle.case_write.specs.Lines.{line_text};

pub mod cases;

use case_line::Record;
use text_put::{put_all, put_byte, put_tagged};

// A tab, and one of two letters.
fn put_mark(out: &mut [u8], at: usize, t: bool, p: u8, q: u8) -> usize
    requires { at < far_field }
    ensures { Put out.old at (tab ∷ letter_if t p q) out.new result }
{
    let a = put_byte(out, at, b'\t');
    put_byte(out, a, if t { p } else { q })
}

// A record's word and fields.
#[tactic(auto, unfolding(case_line::specs::Record::record_text, text_field::specs::Split::join))]
fn put_record(out: &mut [u8], at: usize, r: Record) -> usize
    requires { (at < far_line) × Formed r }
    ensures { Put out.old at (record_text r) out.new result }
{
    match r {
        Record::Grid(n) => put_tagged(out, at, b"grid\t", n),
        Record::Bus { number, zero, site } => {
            let a = put_tagged(out, at, b"bus\t", number);
            let b = put_mark(out, a, zero, b'Z', b'I');
            put_mark(out, b, site, b'Y', b'N')
        }
        Record::Line(x, y) => {
            let a = put_tagged(out, at, b"line\t", x);
            put_tagged(out, a, b"\t", y)
        }
        Record::Circuits(x, y, k) => {
            let a = put_tagged(out, at, b"line\t", x);
            let b = put_tagged(out, a, b"\t", y);
            put_tagged(out, b, b"\t", k)
        }
        Record::Pmu(p) => put_tagged(out, at, b"pmu\t", p),
        Record::End => put_all(out, at, b"end"),
        Record::Wrong => unreachable!(),
    }
}

// A record and its line feed.
#[tactic(auto, unfolding(crate::specs::Lines::line_text))]
pub fn put_line(out: &mut [u8], at: usize, r: Record) -> usize
    requires { (at < far_line) × Formed r }
    ensures { Put out.old at (line_text r) out.new result }
{
    let a = put_record(out, at, r);
    put_byte(out, a, b'\n')
}
