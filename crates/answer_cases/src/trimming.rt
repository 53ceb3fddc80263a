// Refutations that are trimmed.
use case_files::{Trouble, split_before, split_line};
use case_inputs::{formula, lines_in, put_check};
use refutation_check::{Marks, check, print};
use refute_trim::trim;
use std::alloc::Global;

/// Input: a formula, a line `lines` and lines. Answers with the lines that are needed, where these refute the formula,
/// and else with the first that is refused.
pub(crate) fn trimmed_lines(alloc: Global, input: &[u8]) -> Result<Vec<u8>, Trouble> {
    let (front, rest) = split_before(input, b"lines\n");
    let cnf = formula(alloc, front)?;
    let lines = lines_in(alloc, split_line(rest).1)?;
    let mut marks = Marks::new(alloc, cnf.vars())?;
    match check(&cnf, &lines, &mut marks) {
        Ok(()) => Ok(print(alloc, &trim(alloc, &cnf, &lines)?)?),
        Err(rejected) => {
            let mut report = Vec::new(alloc);
            put_check(&mut report, b"refutation", Err(rejected))?;
            Ok(report)
        }
    }
}
