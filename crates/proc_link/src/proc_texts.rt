// The work of `proc`, from the bytes of a text of a proc to those of its answer.
ghost use Rattle.std.specs.Prelude.{◌<◌, ◌^◌, IfErr, IfOk, OnOk, length};
ghost use Rattle.denali_run.specs.MatchedGoals.{IsSettings};
ghost use Rattle.denali_run.specs.Right.{AreRightResults};
ghost use Rattle.denali_run.specs.declared.settings.Settings.{Settings as SettingsOf};
ghost use Rattle.proc_goal.specs.Goals.{input_of_proc};
ghost use Rattle.proc_goal.specs.ProcGrammar.{IsFirstProcFault};
ghost use Rattle.reports.specs.Errors.{IsErrorBy};
ghost use Rattle.proc_goal.specs.Views.{proc_view};
ghost use Rattle.proc_goal.specs.WellFormed.{IsProc};
ghost use Rattle.proc_link.specs.Appended.{AppendsBehind};
ghost use Rattle.proc_link.specs.ProcAnswers.{AnswersBlocks, AnswersProc};

use crate::line_printing::put_linked;
use crate::linking::link;
use crate::listings::all_listings;
use denali_run::{Answered, Settings, answer_text, right_answers_are_read, solve_input};
use items::NoMemory;
use proc_goal::{Proc, input_of, read};
use register_assign::listings_have_words;
use reports::{Report, TextError};
use std::alloc::Global;

/// Appends the lines of the linked words, if each block is scheduled.
fn put_behind(
    alloc: Global,
    text: &mut Vec<u8>,
    proc: &Proc,
    results: &[Answered],
) -> Result<(), NoMemory>
    requires proc { IsProc (proc_view proc.now) }
    requires right { (s : SettingsOf) × IsSettings s
        × AreRightResults (input_of_proc (proc_view proc.now)) s results.now }
    ensures { OnOk result (AppendsBehind (proc_view proc.now) results.now text.old.items text.new.items) }
{
    listings_have_words();
    match all_listings(alloc, results)? {
        Some(listings) => {
            let linked = link(alloc, proc, &listings)?;
            put_linked(alloc, text, proc, &linked)
        }
        None => Ok(()),
    }
}

/// The answer to the goals of a proc's blocks, and behind it the linked words, if each block is scheduled.
fn solve_proc(alloc: Global, proc: &Proc, settings: &Settings) -> Result<Report, NoMemory>
    requires proc { IsProc (proc_view proc.now) }
    requires settings { IsSettings settings.now }
    ensures { IfOk result (λ report. AnswersBlocks settings.now (proc_view proc.now) report.bytes.items report.status) }
{
    right_answers_are_read();
    let input = input_of(alloc, proc)?;
    let results = solve_input(alloc, &input, settings)?;
    let answer = answer_text(alloc, settings, &input, &results)?;
    let mut bytes = answer.bytes;
    put_behind(alloc, &mut bytes, proc, &results)?;
    Ok(Report {
        bytes,
        status: answer.status,
    })
}

/// The answer to a text of a proc: the results of its blocks' goals, and behind them, exactly where each block is
/// scheduled, their words in one list and where each block starts.
pub fn proc_text(alloc: Global, text: &[u8], settings: &Settings) -> Result<Report, TextError>
    requires few { length text.now < 2 ^ 29 }
    requires settings { IsSettings settings.now }
    ensures answered { IfOk result (λ report. AnswersProc settings.now text.now report.bytes.items report.status) }
    ensures error { IfErr result (IsErrorBy (IsFirstProcFault text.now)) }
{
    let proc = read(alloc, text)?;
    Ok(solve_proc(alloc, &proc, settings)?)
}
