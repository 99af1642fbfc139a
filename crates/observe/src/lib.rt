// What is observed, of a valid case: the observed set, the test of one step, the firing figure.
#![tactic(auto)]

pub mod figure;
pub mod set;
pub mod test;
