// Lines one after another: the first that is refused, and its least reason.
ghost use Rattle.std.specs.Prelude.{◌≡◌, ◌+◌, ◌-◌, ◌^◌, ◌<◌, ◌≤◌, ◌↔◌, length, IsTrue, OnOk, IfErr, IsOk};
ghost use Rattle.cnf_core.specs.Refutation.{IsAccepted, IsRefusedFor, IsFirstRefusal, AreRight, IsEmptyOnlyLast, IsFilled, Refutes, AreLemmas, HaveNoSolution, negations};
ghost use Rattle.refutation_check.specs.Marked.{Shows, NoneIsLater, AreDistinctAmong, LemmasExist};
ghost use Rattle.refutation_check.specs.Placing.{Placed, IsRightPlace};

use crate::Marks;
use crate::hints::{are_names, conflict};
use crate::values::{Mark, clear, is_free, set_true};
use cnf_core::{Cnf, Line, Lines, Lit, refutations_leave_no_solution};
use thiserror::Error;

/// The first line that is refused, from 1, and the least reason against it: 1 its id isn't the next number; 2 a literal
/// or a hint names nothing, or a variable stands twice; 3 a hint before the last isn't unit; 4 there is no hint, or the
/// last isn't false; 5 its lemma is empty in the wrong place.
#[derive(Clone, Copy, Debug, Error)]
#[error("line {line} is refused for reason {why}")]
pub struct Rejected {
    pub line: u32,
    pub why: u8,
}

/// What the lines are to be.
#[derive(Clone, Copy)]
pub(crate) enum Demand {
    Refutation,
    Lemmas,
}

/// Checks that the lines refute the formula. No memory is taken, and each clause that a hint names is looked at once.
pub fn check(cnf: &Cnf, lines: &Lines, marks: &mut Marks) -> Result<(), Rejected>
    requires vars { marks.old ≡ cnf.now.vars }
    requires few { length lines.now.lines < 2 ^ 29 }
    ensures marks { marks.new ≡ marks.old }
    ensures exact { IsOk result ↔ Refutes cnf.now lines.now.lines }
    ensures refused { IfErr result (λ e.
        IsFirstRefusal (IsEmptyOnlyLast lines.now.lines) cnf.now lines.now.lines e.line e.why) }
    ensures sound { OnOk result (HaveNoSolution cnf.now.clauses) }
{
    refutations_leave_no_solution();
    check_lines(
        cnf,
        lines.lines.as_slice(),
        marks.marks.as_mut_slice(),
        Demand::Refutation,
    )
}

/// Checks that there is a line, and that the lines are lemmas of the formula, none of which is empty.
pub fn check_lemmas(cnf: &Cnf, lines: &Lines, marks: &mut Marks) -> Result<(), Rejected>
    requires vars { marks.old ≡ cnf.now.vars }
    requires few { length lines.now.lines < 2 ^ 29 }
    ensures marks { marks.new ≡ marks.old }
    ensures exact { IsOk result ↔ AreLemmas cnf.now lines.now.lines }
    ensures refused { IfErr result (λ e. IsFirstRefusal IsFilled cnf.now lines.now.lines e.line e.why) }
{
    check_lines(
        cnf,
        lines.lines.as_slice(),
        marks.marks.as_mut_slice(),
        Demand::Lemmas,
    )
}

/// Checks lines one after another.
fn check_lines(
    cnf: &Cnf,
    lines: &[Line],
    marks: &mut [Mark],
    demand: Demand,
) -> Result<(), Rejected>
    requires vars { length marks.old ≡ cnf.now.vars }
    requires few { length lines.now < 2 ^ 29 }
    ensures ok { OnOk result (AreRight (Placed demand lines.now) cnf.now lines.now) }
    ensures err { IfErr result (λ e. IsFirstRefusal (Placed demand lines.now) cnf.now lines.now e.line e.why) }
{
    clear(marks);
    let count = lines.len();
    if count == 0 {
        return Err(Rejected { line: 1, why: 5 });
    }
    for at in 0..count {
        let line = &lines[at];
        if let Err(why) = check_line(cnf, &lines[..at], line, marks) {
            return Err(Rejected {
                line: at as u32 + 1,
                why,
            });
        }
        if !is_placed(demand, line.lits.as_slice(), at + 1, count) {
            return Err(Rejected {
                line: at as u32 + 1,
                why: 5,
            });
        }
    }
    Ok(())
}

/// Checks one line. If it is refused, the error is the least reason, 1 to 4.
fn check_line(cnf: &Cnf, earlier: &[Line], line: &Line, marks: &mut [Mark]) -> Result<(), u8>
    requires vars { length marks.old ≡ cnf.now.vars }
    requires exist { LemmasExist cnf.now.vars earlier.now }
    requires bound { NoneIsLater (length earlier.now) marks.old }
    requires few { length earlier.now < 2 ^ 29 }
    ensures bound { NoneIsLater (length earlier.now + 1) marks.new }
    ensures ok { OnOk result (IsAccepted cnf.now earlier.now line.now) }
    ensures err { IfErr result (IsRefusedFor cnf.now earlier.now line.now) }
{
    let clauses = cnf.clauses();
    let number = earlier.len() as u32 + 1;
    if line.id != clauses + number {
        return Err(1);
    }
    let earlier_ids = clauses + (number - 1);
    if !assume(line.lits.as_slice(), marks, number)
        || !are_names(line.hints.as_slice(), earlier_ids)
    {
        return Err(2);
    }
    conflict(cnf, earlier, line, marks, number)
}

/// Makes each literal of a lemma false, or says that they are not of different variables.
fn assume(lits: &[Lit], marks: &mut [Mark], line: u32) -> bool
    requires some { 1 ≤ line }
    requires fresh { NoneIsLater (line - 1) marks.old }
    ensures marks { NoneIsLater line marks.new }
    ensures apart { IsTrue result ↔ AreDistinctAmong (length marks.old) lits.now }
    ensures shows { IsTrue result → Shows line marks.new (negations lits.now) }
{
    for lit in lits {
        if lit.var == 0 || lit.var as usize > marks.len() {
            return false;
        }
        if !is_free(*lit, marks, line) {
            return false;
        }
        set_true(lit.negated(), marks, line);
    }
    true
}

/// Whether the lemma with this number, among so many, is empty only where it may be.
#[tactic(auto)]
fn is_placed(demand: Demand, lits: &[Lit], number: usize, count: usize) -> bool
    ensures { IsTrue result ↔ IsRightPlace demand lits.now number count }
{
    match demand {
        Demand::Refutation => lits.is_empty() == (number == count),
        Demand::Lemmas => !lits.is_empty(),
    }
}
