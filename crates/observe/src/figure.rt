// The firing figure.
ghost use Rattle.std.specs.Prelude.{◌≡◌, suc, ◌≤◌, pos, ◌+ℤ◌, ◌-ℤ◌};
ghost use Rattle.busset.specs.Sets.{Bus, bit, width, set_of};
ghost use Rattle.rules.specs.Figures.{figure};
ghost use Rattle.grid.specs.Rows.{neighbours};

use busset::BusSet;
use grid::Case;

// 1 if bus i is in s, else 0.
pub fn seen(s: BusSet, i: usize) -> usize
    requires { Bus width i }
    ensures { result ≡ bit (set_of s) i }
{
    if s.has(i) { 1 } else { 0 }
}

// 1, less the degree, plus what is observed.
pub fn signed_sum(degree: usize, observed: usize) -> i32
    requires { (degree ≤ width) × (observed ≤ suc width) }
    ensures { result ≡ pos 1 -ℤ pos degree +ℤ pos observed }
{
    1 - (degree as i32) + (observed as i32)
}

// The firing figure of bus i towards j where s is observed.
pub fn figure_of(case: &Case, s: BusSet, i: usize, j: usize) -> i32
    requires { Bus width i × Bus width j }
    ensures { result ≡ figure (neighbours case.now.nbr) (set_of s) i j }
{
    let m = case.neighbours(i);
    let degree = m.count();
    let others = m.both(s).without(j).count();
    signed_sum(degree, seen(s, i) + others)
}
