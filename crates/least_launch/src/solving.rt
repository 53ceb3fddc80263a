// The work of `solve --least`, from the bytes of a text of goals to those of its answer.
ghost use Rattle.std.specs.Prelude.{◌≡◌, ◌<◌, ◌≤◌, ◌^◌, IfOk, IfErr, Some, length, slice_get};
ghost use Rattle.std.specs.List.{AllZip};
ghost use Rattle.denali_run.specs.MatchedGoals.{IsSettings};
ghost use Rattle.denali_run.specs.Right.{AreRightResults, Right};
ghost use Rattle.reports.specs.Errors.{IsErrorBy};
ghost use Rattle.goal_meaning.specs.Views.{GoalTree, input_view};
ghost use Rattle.goal_meaning.specs.WellFormed.{IsInput};
ghost use Rattle.goal_reader.specs.Grammar.{IsFirstTextFault};
ghost use Rattle.machine_table.specs.Tables.{IsTable};
ghost use Rattle.least_launch.specs.LeastAnswers as format;
ghost use Rattle.least_launch.specs.LeastAnswers.{AnswersLeast, IsTailOf};
ghost use Rattle.least_launch.specs.SolvedGoals.{CanLessen, IsLessened, IsWithFewest, MayLessen};

use crate::laws::tailed_answers_are_read;
use crate::reporting::report_least;
use crate::results::Proof;
use crate::searching::least;
use crate::tails::Tail;
use cnf_core::Lines;
use denali_run::{Answered, Found, Settings, solve_goal};
use goal_reader::{Input, read, read_inputs_are_well_formed, read_inputs_have_few_operators};
use items::{Items, NoMemory};
use machine_table::Table;
use pick_rule::Pick;
use register_assign::words_of;
use reports::{Report, TextError};
use schedule_meaning::{Allocation, fitting_schedules_are_small};
use std::alloc::Global;

/// What is said of a schedule with so many launches by what stands beside it.
fn said_by(alloc: Global, launches: u32, proof: Proof) -> Tail
    ensures { result ≡ format.said_by launches proof }
{
    match proof {
        Proof::None => Tail::Least {
            launches,
            lines: Lines {
                lines: Items::new(alloc),
            },
        },
        Proof::Refuted(lines) => Tail::Least { launches, lines },
        Proof::Spent(lines) => Tail::Spent { launches, lines },
        Proof::Size { vars, clauses } => Tail::Size {
            launches,
            vars,
            clauses,
        },
    }
}

/// The result with the schedule that has the fewest launches in place of its own, and what is said of that.
fn lessened(
    alloc: Global,
    table: &Table,
    allocation: Allocation,
    conflicts: u32,
    found: Found,
    pick: Pick,
) -> Result<(Found, Tail), NoMemory>
    requires table { IsTable table.now }
    requires conflicts { (1 ≤ conflicts) × (conflicts ≤ 1000000) }
    requires can { CanLessen table.now allocation found }
    ensures { IfOk result (λ p. IsLessened table.now allocation conflicts found p.0 p.1) }
{
    fitting_schedules_are_small();
    let matched = found.matched;
    let schedule = found.schedule;
    let fewest = least(
        alloc,
        &matched.graph,
        table,
        allocation,
        found.k,
        schedule,
        conflicts,
        pick,
    )?;
    let words = words_of(alloc, fewest.listing.items.as_slice())?;
    let launches = fewest.schedule.launches.len() as u32;
    let lessened = Found {
        matched,
        k: found.k,
        schedule: fewest.schedule,
        listing: fewest.listing,
        words: Items::from(words),
        refutation: found.refutation,
    };
    Ok((lessened, said_by(alloc, launches, fewest.proof)))
}

/// The result with the fewest launches, if it has a schedule, and what is said of that.
fn with_fewest(
    alloc: Global,
    table: &Table,
    allocation: Allocation,
    conflicts: u32,
    answered: Answered,
    pick: Pick,
) -> Result<(Answered, Option<Tail>), NoMemory>
    requires table { IsTable table.now }
    requires conflicts { (1 ≤ conflicts) × (conflicts ≤ 1000000) }
    requires can { MayLessen table.now allocation answered }
    ensures { IfOk result (λ p. IsWithFewest table.now allocation conflicts answered p.0 p.1) }
{
    match answered.scheduled() {
        Ok(found) => {
            let (found, tail) = lessened(alloc, table, allocation, conflicts, found, pick)?;
            Ok((Answered::Scheduled(found), Some(tail)))
        }
        Err(other) => Ok((other, None)),
    }
}

/// Answers one goal of the input with the fewest launches, and what is said of its schedule.
fn solve_fewest(
    alloc: Global,
    input: &Input,
    at: u32,
    settings: &Settings,
) -> Result<(Answered, Option<Tail>), NoMemory>
    requires input { IsInput (input_view input.now) }
    requires at { at < length input.now.goals }
    requires settings { IsSettings settings.now }
    ensures { IfOk result (λ p. (goal : GoalTree) → slice_get (input_view input.now).goals at ≡ Some goal
        → Right (input_view input.now) goal settings.now p.0
        × IsTailOf input.now.table settings.now.allocation settings.now.conflicts p.0 p.1) }
{
    let answered = solve_goal(alloc, input, at, settings)?;
    with_fewest(
        alloc,
        &input.table,
        settings.allocation,
        settings.conflicts,
        answered,
        settings.pick,
    )
}

/// The results of the goals of an input, and what is said of their schedules.
#[derive(Drop)]
pub struct LeastResults {
    pub results: Vec<Answered>,
    pub said: Vec<Option<Tail>>,
}

/// Each goal's result with the fewest launches, in the goals' order.
pub fn solve_least_input(
    alloc: Global,
    input: &Input,
    settings: &Settings,
) -> Result<LeastResults, NoMemory>
    requires input { IsInput (input_view input.now) }
    requires settings { IsSettings settings.now }
    ensures right { IfOk result (λ s. AreRightResults (input_view input.now) settings.now s.results.items) }
    ensures said { IfOk result (λ s. AllZip (IsTailOf input.now.table settings.now.allocation settings.now.conflicts)
        s.results.items s.said.items) }
{
    let mut results = Vec::new(alloc);
    let mut said = Vec::new(alloc);
    for at in 0..input.goals.len() {
        let (answered, tail) = solve_fewest(alloc, input, at as u32, settings)?;
        results.push(answered)?;
        said.push(tail)?;
    }
    Ok(LeastResults { results, said })
}

/// The answer to a text of goals as `solve` gives it, with schedules of the fewest launches; and behind it, of each of
/// these, the lines for one launch fewer.
pub fn solve_least_text(
    alloc: Global,
    text: &[u8],
    settings: &Settings,
) -> Result<Report, TextError>
    requires few { length text.now < 2 ^ 29 }
    requires settings { IsSettings settings.now }
    ensures answered { IfOk result (λ report. AnswersLeast settings.now text.now report.bytes.items report.status) }
    ensures error { IfErr result (IsErrorBy (IsFirstTextFault text.now)) }
{
    read_inputs_are_well_formed();
    read_inputs_have_few_operators();
    tailed_answers_are_read();
    let input = read(alloc, text)?;
    let solved = solve_least_input(alloc, &input, settings)?;
    Ok(report_least(alloc, settings, &input, &solved.results, &solved.said)?)
}
