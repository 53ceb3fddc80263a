// The work of `solve`, from the bytes of a text of goals to those of its answer.
ghost use Rattle.std.specs.Prelude.{◌<◌, ◌^◌, IfOk, IfErr, length};
ghost use Rattle.goal_meaning.specs.Views.{input_view};
ghost use Rattle.goal_meaning.specs.WellFormed.{IsInput};
ghost use Rattle.goal_reader.specs.Grammar.{IsFirstTextFault};
ghost use Rattle.reports.specs.Errors.{IsErrorBy};
ghost use Rattle.denali_run.specs.MatchedGoals.{IsSettings};
ghost use Rattle.denali_run.specs.Right.{AreRightResults};
ghost use Rattle.denali_run.specs.TextAnswers.{Answers};

use crate::claiming::answer_text;
use crate::goal_solving::solve_by_rules;
use crate::laws::right_answers_are_read;
use crate::results::Answered;
use crate::settings::Settings;
use goal_reader::{Input, read, read_inputs_are_well_formed, read_inputs_have_few_operators};
use items::NoMemory;
use reports::{Report, TextError};
use saturation::rules;
use std::alloc::Global;

/// Each goal's result, in the goals' order.
pub fn solve_input(
    alloc: Global,
    input: &Input,
    settings: &Settings,
) -> Result<Vec<Answered>, NoMemory>
    requires input { IsInput (input_view input.now) }
    requires settings { IsSettings settings.now }
    ensures right { IfOk result (λ results. AreRightResults (input_view input.now)
        settings.now results.items) }
{
    let rules = rules(alloc, input, settings.library)?;
    let mut results = Vec::new(alloc);
    for at in 0..input.goals.len() {
        results.push(solve_by_rules(alloc, input, &rules, at as u32, settings)?)?;
    }
    Ok(results)
}

/// The answer to a text of goals: the result of each goal, in their order.
pub fn solve_text(alloc: Global, text: &[u8], settings: &Settings) -> Result<Report, TextError>
    requires few { length text.now < 2 ^ 29 }
    requires settings { IsSettings settings.now }
    ensures answered { IfOk result (λ report. Answers settings.now text.now report.bytes.items report.status) }
    ensures error { IfErr result (IsErrorBy (IsFirstTextFault text.now)) }
{
    read_inputs_are_well_formed();
    read_inputs_have_few_operators();
    right_answers_are_read();
    let input = read(alloc, text)?;
    let results = solve_input(alloc, &input, settings)?;
    Ok(answer_text(alloc, settings, &input, &results)?)
}
