// What each question comes to. The case text is read first.
ghost use Rattle.estimator.specs.Answers.{OfText, ObservedFor, UnconfirmedFor, FewestFor, ReplayFor};

use busset::BusSet;
use refusals::ReplayError;
use wozgrzyt::{cross_validate, observed_set, place_fewest, read_case, replay_text};

pub fn observed(text: &[u8]) -> Result<BusSet, ReplayError>
    ensures { OfText text.now ObservedFor result }
{
    let case = read_case(text)?;
    Ok(observed_set(case)?)
}

pub fn unconfirmed(text: &[u8]) -> Result<BusSet, ReplayError>
    ensures { OfText text.now UnconfirmedFor result }
{
    let case = read_case(text)?;
    Ok(cross_validate(case)?)
}

pub fn fewest(text: &[u8], budget: usize) -> Result<BusSet, ReplayError>
    ensures { OfText text.now (FewestFor budget) result }
{
    let case = read_case(text)?;
    Ok(place_fewest(case, budget)?)
}

pub fn replay(text: &[u8], steps: &[u8]) -> Result<BusSet, ReplayError>
    ensures { OfText text.now (ReplayFor steps.now) result }
{
    let case = read_case(text)?;
    Ok(replay_text(case, steps)?.set)
}
