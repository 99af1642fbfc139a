// The cut of the search for the fewest units: how a group of sites is found, and when no cover is left.
#![tactic(auto)]

pub mod groups;
pub mod hopeless;
