// The work of `lift`.
ghost use Rattle.std.specs.Prelude.{◌<◌, ◌^◌, IfErr, IfOk, length};
ghost use Rattle.code_improve.specs.LiftedTexts.{LiftsText};
ghost use Rattle.code_lift.specs.LiftGrammar.{IsFirstLiftFault};
ghost use Rattle.reports.specs.Errors.{IsErrorBy};

use code_lift::{goals, read};
use goal_reader::print;
use reports::{Report, Status, TextError};
use std::alloc::Global;

/// The canonical text of the goals of a text of lifts.
pub fn lift_text(alloc: Global, text: &[u8]) -> Result<Report, TextError>
    requires few { length text.now < 2 ^ 29 }
    ensures answered { IfOk result (λ report. LiftsText text.now report.bytes.items report.status) }
    ensures error { IfErr result (IsErrorBy (IsFirstLiftFault text.now)) }
{
    let lifts = read(alloc, text)?;
    let input = goals(alloc, lifts)?;
    Ok(Report {
        bytes: print(alloc, &input)?,
        status: Status::Done,
    })
}
