// The work of `check`, from the bytes of an answer to a line for each of its goals.
ghost use Rattle.std.specs.Prelude.{◌<◌, ◌^◌, IfOk, IfErr, length};
ghost use Rattle.answer_texts.specs.ReadAnswers.{IsAnswerFault};
ghost use Rattle.reports.specs.Errors.{IsErrorBy};
ghost use Rattle.denali_run.specs.TextChecks.{ChecksText};

use answer_check::check_answer;
use answer_texts::{read_answer, read_answers_are_well_formed};
use reports::{Report, Status, TextError};
use std::alloc::Global;

/// Tests what an answer claims of its goals, whoever wrote it. Nothing that it says is trusted: clauses are built from
/// its graphs and its table alone. One formula at a time is held in memory, beside what was read.
pub fn check_text(alloc: Global, text: &[u8]) -> Result<Report, TextError>
    requires few { length text.now < 2 ^ 29 }
    ensures checked { IfOk result (λ report. ChecksText text.now report.bytes.items report.status) }
    ensures error { IfErr result (IsErrorBy (IsAnswerFault text.now)) }
{
    read_answers_are_well_formed();
    let answer = read_answer(alloc, text)?;
    let checked = check_answer(alloc, &answer)?;
    let status = if checked.rejected {
        Status::Missing
    } else {
        Status::Done
    };
    Ok(Report {
        bytes: checked.bytes,
        status,
    })
}
