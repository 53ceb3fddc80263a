// The texts of answers, which are printed again, and what is written of them.
ghost use Rattle.std.specs.Prelude.{◌≤◌, ◌^◌, length};

use answer_texts::{print_answer, read_answer};
use case_files::{Trouble, faulty, put_numbers};
use reports::{Report, TextError};
use std::alloc::Global;
use text_core::TextFault;

/// The lines of an answer, or the fault of the text.
pub(crate) fn answers(alloc: Global, input: &[u8]) -> Result<Vec<u8>, Trouble>
    requires { length input.now ≤ 2 ^ 24 }
{
    match read_answer(alloc, input) {
        Ok(answer) => Ok(print_answer(alloc, &answer)?),
        Err(fault) => faulty(alloc, fault),
    }
}

/// What was written of an answer and the status, or the fault of the text.
pub(crate) fn reported(
    alloc: Global,
    report: Result<Report, TextError>,
) -> Result<Vec<u8>, Trouble> {
    match report {
        Ok(report) => {
            let mut bytes = report.bytes;
            put_numbers(&mut bytes, b"status", &[u64::from(report.status.code())])?;
            Ok(bytes)
        }
        Err(TextError::Read(fault)) => faulty(alloc, TextFault::Fault(fault)),
        Err(TextError::Memory) => Err(Trouble::Memory),
    }
}
