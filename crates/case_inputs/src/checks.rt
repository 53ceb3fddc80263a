// Lines of refutations, and what came of a check of them.
ghost use Rattle.std.specs.Prelude.{◌<◌, ◌^◌, length, IfOk};

use case_files::{Trouble, put, put_numbers};
use cnf_core::Lines;
use refutation_check::{Rejected, read};
use std::alloc::Global;

/// The lines of a text.
pub fn lines_in(alloc: Global, text: &[u8]) -> Result<Lines, Trouble>
    ensures { IfOk result (λ read. length read.lines < 2 ^ 29) }
{
    if text.len() > 1 << 24 {
        return Err(Trouble::Unread);
    }
    let Ok(lines) = text_core::lines(alloc, text) else {
        return Err(Trouble::Unread);
    };
    match read(alloc, &lines, 0, lines.count()) {
        Ok(found) => Ok(found),
        Err(_) => Err(Trouble::Unread),
    }
}

/// A line for what came of a check.
pub fn put_check(
    report: &mut Vec<u8>,
    what: &[u8],
    found: Result<(), Rejected>,
) -> Result<(), Trouble> {
    put(report, what)?;
    match found {
        Ok(()) => put(report, b" accepted\n"),
        Err(rejected) => put_numbers(
            report,
            b" rejected",
            &[u64::from(rejected.line), u64::from(rejected.why)],
        ),
    }
}
