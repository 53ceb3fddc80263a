// The status that results ask for.
ghost use Rattle.std.specs.Prelude.{◌≡◌};
ghost use Rattle.denali_run.specs.TextAnswers as texts;

use crate::results::Answered;
use reports::Status;

/// The status that a result asks for.
fn status_of(answered: &Answered) -> Status
    ensures { result ≡ texts.status_of answered.now }
{
    match answered {
        Answered::Scheduled(_) => Status::Done,
        Answered::Nowhere(_) => Status::Missing,
        Answered::SpentConflicts(_) | Answered::SpentSize(_) => Status::Spent,
        Answered::NoWorld { .. } => Status::NoWorld,
    }
}

/// The status with the greatest code that the results ask for.
#[tactic(auto, using(crate::proofs::GreatestStatus::status_more))]
pub(crate) fn greatest_status(results: &[Answered]) -> Status
    ensures { result ≡ texts.greatest_status results.now }
{
    let mut greatest = Status::Done;
    for answered in results {
        greatest = greatest.or_greater(status_of(answered));
    }
    greatest
}
