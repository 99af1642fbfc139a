// The state estimator's functions, for C: each is the function of estimator with its name and its clauses.
// Each is given the case as its text and fills the set into the first eight bytes lent.
#![tactic(auto)]

ghost use Rattle.estimator.specs.Answers.{OfText, ObservedFor, UnconfirmedFor, FewestFor, ReplayFor};
ghost use Rattle.estimator_reply.specs.Results.{Answered};

// The observed set.
#[unsafe(no_mangle)]
pub extern "C" fn wz_observed(text: &[u8], set: &mut [u8]) -> u32
    ensures { Answered (OfText text.now ObservedFor) set.old set.new result }
{
    estimator::wz_observed(text, set)
}

// The units that no other unit confirms.
#[unsafe(no_mangle)]
pub extern "C" fn wz_unconfirmed(text: &[u8], set: &mut [u8]) -> u32
    ensures { Answered (OfText text.now UnconfirmedFor) set.old set.new result }
{
    estimator::wz_unconfirmed(text, set)
}

// The sites of the fewest new units within the budget.
#[unsafe(no_mangle)]
pub extern "C" fn wz_fewest(text: &[u8], budget: usize, set: &mut [u8]) -> u32
    ensures { Answered (OfText text.now (FewestFor budget)) set.old set.new result }
{
    estimator::wz_fewest(text, budget, set)
}

// The set that the step text reaches.
#[unsafe(no_mangle)]
pub extern "C" fn wz_replay(text: &[u8], steps: &[u8], set: &mut [u8]) -> u32
    ensures { Answered (OfText text.now (ReplayFor steps.now))
        set.old set.new result }
{
    estimator::wz_replay(text, steps, set)
}
