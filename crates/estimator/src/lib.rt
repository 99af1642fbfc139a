// The state estimator's functions, which estimator_c exports to C.
// Each is given the case as its text and fills the set into the first eight bytes lent.
#![tactic(auto)]

ghost use Rattle.estimator.specs.Answers.{OfText, ObservedFor, UnconfirmedFor, FewestFor, ReplayFor};
ghost use Rattle.estimator_reply.specs.Results.{Answered};

mod answers;

use estimator_reply::reply;

// The observed set.
#[tactic(auto, using(crate::proofs::Bounds::observed_placed))]
pub fn wz_observed(text: &[u8], set: &mut [u8]) -> u32
    ensures { Answered (OfText text.now ObservedFor) set.old set.new result }
{
    reply(answers::observed(text), set)
}

// The units that no other unit confirms.
#[tactic(auto, using(crate::proofs::Bounds::unconfirmed_placed))]
pub fn wz_unconfirmed(text: &[u8], set: &mut [u8]) -> u32
    ensures { Answered (OfText text.now UnconfirmedFor) set.old set.new result }
{
    reply(answers::unconfirmed(text), set)
}

// The sites of the fewest new units within the budget.
#[tactic(auto, using(crate::proofs::Bounds::fewest_placed))]
pub fn wz_fewest(text: &[u8], budget: usize, set: &mut [u8]) -> u32
    ensures { Answered (OfText text.now (FewestFor budget)) set.old set.new result }
{
    reply(answers::fewest(text, budget), set)
}

// The set that the step text reaches.
#[tactic(auto, using(crate::proofs::Bounds::replay_placed))]
pub fn wz_replay(text: &[u8], steps: &[u8], set: &mut [u8]) -> u32
    ensures { Answered (OfText text.now (ReplayFor steps.now))
        set.old set.new result }
{
    reply(answers::replay(text, steps), set)
}
