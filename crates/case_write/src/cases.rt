// The text of a case.
ghost use Rattle.std.specs.Prelude.{◌≡◌, ◌+◌, ◌-◌, ◌<◌, ◌≤◌, length};
ghost use Rattle.busset.specs.Sets.{Bus, width, set_of};
ghost use Rattle.case_line.specs.declared.Record.TheVariants.{Pmu};
ghost use Rattle.grid.specs.Rows.{neighbours, circuits};
ghost use Rattle.case_line.specs.CaseText.{bus_record, bus_records, members};
ghost use Rattle.case_line.specs.CaseText.{line_from, line_records, lines_text, case_text};
ghost use Rattle.text_put.specs.Put.{Put, far_line};
ghost use Rattle.case_write.specs.Lines.{line_text, far_lines, far_rows};

use crate::put_line;
use busset::BusSet;
use case_line::Record;
use grid::Case;
use grid::limits::LEAST_SEVERAL;

// The record of bus b.
fn put_bus(out: &mut [u8], at: usize, case: &Case, b: usize) -> usize
    requires { (at < far_line) × Bus width b }
    ensures { Put out.old at
        (line_text (bus_record (set_of case.now.zero) (set_of case.now.site) b))
        out.new result }
{
    let record = Record::Bus {
        number: b,
        zero: case.zero.has(b),
        site: case.site.has(b),
    };
    put_line(out, at, record)
}

// The records of the buses 1 to n.
fn put_buses(out: &mut [u8], at: usize, case: &Case) -> usize
    requires { (at < far_lines) × (case.now.n ≤ width) }
    ensures { Put out.old at
        (lines_text (bus_records (set_of case.now.zero) (set_of case.now.site) 1 case.now.n))
        out.new result }
{
    let mut k = at;
    for b in 1..case.n + 1 {
        k = put_bus(out, k, case, b);
    }
    k
}

// The line from a to b, which says its circuits if they are several.
fn line_record(case: &Case, a: usize, b: usize) -> Record
    requires { Bus width a × Bus width b }
    ensures { result ≡ line_from (circuits case.now.nbr) a b }
{
    let k = case.circuits(a, b);
    if k < LEAST_SEVERAL {
        Record::Line(a, b)
    } else {
        Record::Circuits(a, b, k)
    }
}

// The lines of bus a to the buses above it.
fn put_row(out: &mut [u8], at: usize, case: &Case, a: usize) -> usize
    requires { (at < far_lines) × (case.now.n ≤ width) × Bus case.now.n a }
    ensures { Put out.old at
        (lines_text (members (line_from (circuits case.now.nbr) a)
        (neighbours case.now.nbr a) (a + 1) (case.now.n - a)))
        out.new result }
{
    let row = case.neighbours(a);
    let mut k = at;
    for b in a + 1..case.n + 1 {
        if row.has(b) {
            k = put_line(out, k, line_record(case, a, b));
        }
    }
    k
}

// The lines of the buses 1 to n, each at its lower bus.
fn put_lines(out: &mut [u8], at: usize, case: &Case) -> usize
    requires { (at < far_rows) × (case.now.n ≤ width) }
    ensures { Put out.old at
        (lines_text (line_records (neighbours case.now.nbr) (circuits case.now.nbr) 1 case.now.n))
        out.new result }
{
    let mut k = at;
    for a in 1..case.n + 1 {
        k = put_row(out, k, case, a);
    }
    k
}

// The units.
pub fn put_units(out: &mut [u8], at: usize, n: usize, units: BusSet) -> usize
    requires { (at < far_lines) × (n ≤ width) }
    ensures { Put out.old at (lines_text (members Pmu (set_of units) 1 n)) out.new result }
{
    let mut k = at;
    for b in 1..n + 1 {
        if units.has(b) {
            k = put_line(out, k, Record::Pmu(b));
        }
    }
    k
}

// The whole text of a case from the first byte on, and its length.
pub fn put_case(out: &mut [u8], case: &Case) -> usize
    requires { case.now.n ≤ width }
    ensures { Put out.old 0 (case_text case.now) out.new result }
{
    let a = put_line(out, 0, Record::Grid(case.n));
    let b = put_buses(out, a, case);
    let c = put_lines(out, b, case);
    let d = put_units(out, c, case.n, case.units);
    put_line(out, d, Record::End)
}

// The length of a case's text.
pub fn count_bytes(case: &Case) -> usize
    requires { case.now.n ≤ width }
    ensures { result ≡ length (case_text case.now) }
{
    put_case(&mut [], case)
}
