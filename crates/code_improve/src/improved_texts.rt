// The work of `improve`.
ghost use Rattle.std.specs.Prelude.{◌<◌, ◌^◌, IfErr, IfOk, length};
ghost use Rattle.code_improve.specs.ImprovedTexts.{ImprovesLeast, ImprovesText};
ghost use Rattle.code_lift.specs.LiftGrammar.{IsFirstLiftFault};
ghost use Rattle.denali_run.specs.MatchedGoals.{IsSettings};
ghost use Rattle.reports.specs.Errors.{IsErrorBy};

use crate::laws::improved_code_is_the_same;
use code_lift::{goals, goals_of_lifts_are_well_formed, read};
use denali_run::{Settings, answer_text, right_answers_are_read, solve_input};
use least_launch::{report_least, solve_least_input, tailed_answers_are_read};
use reports::{Report, TextError};
use std::alloc::Global;

/// The answer to the goals of a text of lifts, as `solve` gives it.
pub fn improve_text(alloc: Global, text: &[u8], settings: &Settings) -> Result<Report, TextError>
    requires few { length text.now < 2 ^ 29 }
    requires settings { IsSettings settings.now }
    ensures answered { IfOk result (λ report. ImprovesText settings.now text.now report.bytes.items report.status) }
    ensures error { IfErr result (IsErrorBy (IsFirstLiftFault text.now)) }
{
    goals_of_lifts_are_well_formed();
    right_answers_are_read();
    improved_code_is_the_same();
    let lifts = read(alloc, text)?;
    let input = goals(alloc, lifts)?;
    let results = solve_input(alloc, &input, settings)?;
    Ok(answer_text(alloc, settings, &input, &results)?)
}

/// The same with schedules of the fewest launches, and behind it, of each of these, the lines for one launch fewer.
pub fn improve_least_text(
    alloc: Global,
    text: &[u8],
    settings: &Settings,
) -> Result<Report, TextError>
    requires few { length text.now < 2 ^ 29 }
    requires settings { IsSettings settings.now }
    ensures answered { IfOk result (λ report. ImprovesLeast settings.now text.now report.bytes.items report.status) }
    ensures error { IfErr result (IsErrorBy (IsFirstLiftFault text.now)) }
{
    goals_of_lifts_are_well_formed();
    tailed_answers_are_read();
    improved_code_is_the_same();
    let lifts = read(alloc, text)?;
    let input = goals(alloc, lifts)?;
    let solved = solve_least_input(alloc, &input, settings)?;
    Ok(report_least(alloc, settings, &input, &solved.results, &solved.said)?)
}
