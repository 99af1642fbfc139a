// The case, built up record by record.
#![tactic(auto)]

ghost use Rattle.std.specs.Prelude.{◌≡◌};
ghost use Rattle.busset.specs.Sets.{Bus, width};
ghost use Rattle.busset.specs.Held.{hold_if};
ghost use Rattle.case_build.specs.Building.{next_rows, next_marks};
ghost use Rattle.case_judge.specs.Judging.{Fit};

use busset::BusSet;
use case_judge::Place;
use case_line::Record;
use grid::Rows;

// The Z buses, the Y sites and the units read.
#[derive(Clone, Copy, Default)]
pub struct Marks {
    pub zero: BusSet,
    pub site: BusSet,
    pub units: BusSet,
}

fn hold_if(t: bool, w: BusSet, b: usize) -> BusSet
    requires { Bus width b }
    ensures { result ≡ hold_if t w b }
{
    if t { w.with(b) } else { w }
}

// The rows after a record; the place is where the reader stood before it.
pub fn build_rows(rows: &mut Rows, s: Place, r: Record)
    requires { Fit s r }
    ensures { rows.new ≡ next_rows rows.old r }
{
    match r {
        Record::Line(a, b) => grid::add_line(rows, a, b, 1),
        Record::Circuits(a, b, k) => grid::add_line(rows, a, b, k),
        _ => {}
    }
}

// The classes, sites and units after a record.
pub fn build_marks(m: Marks, s: Place, r: Record) -> Marks
    requires { Fit s r }
    ensures { result ≡ next_marks m r }
{
    match r {
        Record::Bus { number, zero, site } => Marks {
            zero: hold_if(zero, m.zero, number),
            site: hold_if(site, m.site, number),
            ..m
        },
        Record::Pmu(p) => Marks {
            units: m.units.with(p),
            ..m
        },
        _ => m,
    }
}
