// The face: every public call, from the crate of its subject. None has a requirement; each checks for itself.
#![tactic(auto)]

// what is asked with, and why it is refused
pub use busset::BusSet;
pub use grid::Case;
pub use refusals::{Refusal, ReplayError};
pub use step::{Reason, Step};

// one case: the observed set, a firing figure, the test of one step
pub use observe_calls::{firing_figure, observed_set, test_step};

// the trainer: observation in rounds
pub use round_calls::{Listed, observed_rounds};

// lists: the derivation, replay and weaving
pub use list_calls::{derivation, replay, weave};
pub use list_follow::{Replayed, Wove};
pub use list_value::StepList;

// the siting group: cross-validation, greedy placement and the fewest units
pub use place_calls::{cross_validate, place_fewest, place_greedy};

// texts: a case text read and written, a step text checked, read and replayed
pub use text_calls::{check_steps, read_case, read_steps, replay_text, write_case};

// what the programs print
pub use report_day::day_report;
pub use report_plan::plan_report;
pub use report_rounds::rounds_report;
