// Counters, and refutations of formulas.
ghost use Rattle.std.specs.Prelude.{◌≤◌, ◌^◌, length};

use case_files::{Trouble, Words, faulty, put, put_numbers, split_before, split_line};
use case_inputs::{formula, lines_in, literals, over, put_check};
use cnf_core::{Cnf, at_most, at_most_size, at_most_vars};
use refutation_check::{Marks, check, check_lemmas, print, read};
use std::alloc::Global;

/// The variables of a formula, and a line for each clause.
fn put_formula(report: &mut Vec<u8>, cnf: &Cnf) -> Result<(), Trouble> {
    put_numbers(report, b"vars", &[u64::from(cnf.vars())])?;
    for index in 0..cnf.clauses() {
        for lit in cnf.clause(index + 1) {
            if !lit.positive {
                put(report, b"-")?;
            }
            put(report, itoa::Buffer::new().format(lit.var).as_bytes())?;
            put(report, b" ")?;
        }
        put(report, b"0\n")?;
    }
    Ok(())
}

/// Input: a line `VARS BOUND LITERAL..`, with literals of the variables 1 to VARS. Answers with the clauses that say
/// that at most BOUND of the literals are true, and how many variables and clauses were foretold.
pub(crate) fn counters(alloc: Global, input: &[u8]) -> Result<Vec<u8>, Trouble> {
    let mut words = Words { rest: input };
    let mut cnf = over(alloc, words.small()?)?;
    let bound = words.small()?;
    let lits = literals(alloc, &mut words)?;
    if lits.len() > 1000 || bound > 1000 || cnf.vars() > 1000 || cnf.clauses() > 0 {
        return Err(Trouble::Unread);
    }
    let foretold = [
        at_most_vars(bound, lits.len()),
        at_most_size(bound, lits.len()),
    ];
    if foretold[0] > 1 << 24 || foretold[1] > 1 << 24 || !cnf.has(&lits) {
        return Err(Trouble::Unread);
    }
    at_most(&mut cnf, &lits, bound)?;
    let mut report = Vec::new(alloc);
    put_numbers(&mut report, b"foretold", &foretold)?;
    put_formula(&mut report, &cnf)?;
    Ok(report)
}

/// Input: a line `from N count M` and a text. Answers with the M lines of a refutation that begin at line N, printed
/// again, or the fault.
pub(crate) fn line_texts(alloc: Global, input: &[u8]) -> Result<Vec<u8>, Trouble>
    requires { length input.now ≤ 2 ^ 24 }
{
    let (head, text) = split_line(input);
    let mut words = Words { rest: head };
    let (from, count) = (words.small()?, words.small()?);
    let lines = match text_core::lines(alloc, text) {
        Ok(lines) => lines,
        Err(fault) => return faulty(alloc, fault),
    };
    if from > lines.count() {
        return Err(Trouble::Unread);
    }
    match read(alloc, &lines, from, count) {
        Ok(found) => Ok(print(alloc, &found)?),
        Err(fault) => faulty(alloc, fault),
    }
}

/// Input: a formula, a line `lines` and lines. Answers whether these refute the formula, and whether they are lemmas of
/// it.
pub(crate) fn refutations(alloc: Global, input: &[u8]) -> Result<Vec<u8>, Trouble> {
    let (front, rest) = split_before(input, b"lines\n");
    let cnf = formula(alloc, front)?;
    let lines = lines_in(alloc, split_line(rest).1)?;
    let mut marks = Marks::new(alloc, cnf.vars())?;
    let mut report = Vec::new(alloc);
    put_check(&mut report, b"refutation", check(&cnf, &lines, &mut marks))?;
    put_check(
        &mut report,
        b"lemmas",
        check_lemmas(&cnf, &lines, &mut marks),
    )?;
    Ok(report)
}
