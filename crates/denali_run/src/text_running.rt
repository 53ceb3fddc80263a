// The work of `run`, from the bytes of a program's text to those of its report.
ghost use Rattle.std.specs.Prelude.{◌<◌, ◌^◌, IfOk, IfErr, length};
ghost use Rattle.reports.specs.Errors.{IsErrorBy};
ghost use Rattle.run_texts.specs.RunFaults.{IsRunFault};
ghost use Rattle.denali_run.specs.TextRuns.{RunsText};

use reports::{Report, Status, TextError};
use run_texts::{read, report};
use std::alloc::Global;

/// Runs the program of a text from its first word, with the words that the text puts into registers and memory, and
/// reports how it ends, and which registers and places of memory then don't hold 0.
pub fn run_text(alloc: Global, text: &[u8]) -> Result<Report, TextError>
    requires few { length text.now < 2 ^ 29 }
    ensures ran { IfOk result (λ report. RunsText text.now report.bytes.items report.status) }
    ensures error { IfErr result (IsErrorBy (IsRunFault text.now)) }
{
    let program = read(alloc, text)?;
    Ok(Report {
        bytes: report(alloc, &program)?,
        status: Status::Done,
    })
}
