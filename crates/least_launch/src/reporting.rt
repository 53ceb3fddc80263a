// The bytes of an answer with lines behind it, and its status.
ghost use Rattle.std.specs.Prelude.{◌≡◌, ◌++◌, ◌||◌, IfOk, length};
ghost use Rattle.denali_run.specs.ClaimedResults.{answer_text};
ghost use Rattle.goal_meaning.specs.Views.{input_view};
ghost use Rattle.text_core.specs.LineTexts.{lines_text};
ghost use Rattle.least_launch.specs.LeastAnswers as format;
ghost use Rattle.least_launch.specs.TailLines.{tail_lines};

use crate::tail_printing::put_tails;
use crate::tails::Tail;
use denali_run::{Answered, Settings, answer_text};
use goal_meaning::Input;
use items::NoMemory;
use reports::{Report, Status};
use std::alloc::Global;

/// Whether it isn't known that the schedule has the fewest launches.
fn is_most(tail: &Option<Tail>) -> bool
    ensures { result ≡ format.is_most_of tail.now }
{
    match tail {
        Some(Tail::Spent { .. }) => true,
        Some(Tail::Size { .. }) => true,
        Some(Tail::Least { .. }) => false,
        None => false,
    }
}

#[tactic(auto, using(crate::proofs::Most::some_more))]
fn some_is_most(said: &[Option<Tail>]) -> bool
    ensures { result ≡ format.some_is_most said.now }
{
    let mut some = false;
    for tail in said {
        some = some || is_most(tail);
    }
    some
}

/// The answer to an input, of which each goal has a result that was found with these settings, with what is said of
/// their schedules behind it.
pub fn report_least(
    alloc: Global,
    settings: &Settings,
    input: &Input,
    results: &[Answered],
    said: &[Option<Tail>],
) -> Result<Report, NoMemory>
    requires { length results.now ≡ length input.now.goals }
    ensures bytes { IfOk result (λ report. report.bytes.items
        ≡ answer_text settings.now (input_view input.now) results.now ++ lines_text (tail_lines said.now)) }
    ensures status { IfOk result (λ report. report.status ≡ format.least_status results.now said.now) }
{
    let answer = answer_text(alloc, settings, input, results)?;
    let mut bytes = answer.bytes;
    put_tails(alloc, &mut bytes, said)?;
    let status = if some_is_most(said) {
        answer.status.or_greater(Status::Spent)
    } else {
        answer.status
    };
    Ok(Report { bytes, status })
}
