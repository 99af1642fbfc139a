// What is printed for the fewest.
ghost use Rattle.std.specs.Prelude.{◌≤◌};
ghost use Rattle.busset.specs.Sets.{width, set_of};
ghost use Rattle.text_put.specs.Put.{Put};
ghost use Rattle.report_plan.specs.Plan.{plan_text};

use busset::BusSet;
use case_write::cases::put_units;
use text_put::{put_all, put_byte, put_tagged};

// `fewest count`, one `pmu` line for each site, and `end`, from the first byte on.
pub fn put_plan(out: &mut [u8], n: usize, sites: BusSet) -> usize
    requires { n ≤ width }
    ensures { Put out.old 0 (plan_text n (set_of sites)) out.new result }
{
    let a = put_tagged(out, 0, b"fewest\t", sites.count());
    let b = put_byte(out, a, b'\n');
    let d = put_units(out, b, n, sites);
    put_all(out, d, b"end\n")
}
