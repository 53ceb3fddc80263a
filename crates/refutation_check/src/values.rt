// The values that the line at hand gave to variables, and what clauses are under them.
ghost use Rattle.std.specs.Prelude.{◌≡◌, ◌+◌, ◌-◌, ◌<◌, ◌≤◌, ◌↔◌, length, IsTrue, IfOk, MatchOption};
ghost use Rattle.std.specs.List.{All};
ghost use Rattle.cnf_core.specs.declared.literal.Lit.{Lit as Literal};
ghost use Rattle.cnf_core.specs.Formula.{IsLitOf};
ghost use Rattle.cnf_core.specs.Statuses.{HasStatus};
ghost use Rattle.cnf_core.specs.Values.{IsUnassigned, IsFalseClause, IsUnit};
ghost use Rattle.refutation_check.specs.Marked.{marked, with_true, NoneIsLater};

use cnf_core::{ClauseStatus, Lit, Values, status_of};
use items::NoMemory;
use std::alloc::Global;
use std::marker::Model;

/// What a check wrote at a variable: the number of the line, and the value. A mark of another line counts as none, so
/// that no line has to clear what an earlier one wrote.
#[derive(Clone, Copy)]
pub struct Mark {
    line: u32,
    positive: bool,
}

/// Room to check lines over a number of variables, eight bytes for each.
#[derive(Drop)]
pub struct Marks {
    pub(crate) marks: Vec<Mark>,
}

impl Model for Marks {
    ghost use Rattle.std.specs.Prelude.{ℕ, length};

    ghost Value = { ℕ };

    ghost view = { λ a. length a.marks.items };
}

impl Marks {
    /// Marks for this many variables.
    pub fn new(alloc: Global, vars: u32) -> Result<Marks, NoMemory>
        ensures { IfOk result (λ marks. marks ≡ vars) }
    {
        let mark = Mark {
            line: 0,
            positive: false,
        };
        let marks = vec![in alloc; mark; vars as usize]?;
        Ok(Marks { marks })
    }
}

/// Forgets all lines.
pub(crate) fn clear(marks: &mut [Mark])
    ensures { NoneIsLater 0 marks.new }
{
    for mark in marks.iter_mut() {
        mark.line = 0;
    }
}

/// The value that this line gave a variable.
#[tactic(auto, unfolding(crate::specs::Marked::marked))]
fn value_at(marks: &[Mark], line: u32, var: u32) -> Option<bool>
    requires above { 1 ≤ var }
    requires within { var ≤ length marks.now }
    ensures { result ≡ marked line marks.now var }
{
    let mark = marks[(var - 1) as usize];
    if mark.line == line {
        Some(mark.positive)
    } else {
        None
    }
}

/// The values that one line gave.
#[derive(Clone, Copy)]
struct Given<'a> {
    marks: &'a [Mark],
    line: u32,
}

impl<'a> Values for Given<'a> {
    ghost last = { λ given. length given.marks.now };

    ghost partial = { λ given. marked given.line given.marks.now };

    fn value(&self, var: u32) -> Option<bool> {
        value_at(self.marks, self.line, var)
    }
}

/// Makes a literal true.
pub(crate) fn set_true(lit: Lit, marks: &mut [Mark], line: u32)
    requires { IsLitOf (length marks.old) lit }
    ensures { marks.new ≡ with_true line marks.old lit }
{
    marks[(lit.var - 1) as usize] = Mark {
        line,
        positive: lit.positive,
    };
}

/// Whether a literal's variable has no value.
pub(crate) fn is_free(lit: Lit, marks: &[Mark], line: u32) -> bool
    requires { IsLitOf (length marks.now) lit }
    ensures { IsTrue result ↔ IsUnassigned (marked line marks.now) lit }
{
    value_at(marks, line, lit.var).is_none()
}

/// What a clause is under the values that this line gave.
fn status(clause: &[Lit], marks: &[Mark], line: u32) -> ClauseStatus
    requires { All (IsLitOf (length marks.now)) clause.now }
    ensures { HasStatus (marked line marks.now) clause.now result }
{
    status_of(clause, &Given { marks, line })
}

/// Whether each literal of a clause is false.
pub(crate) fn is_false_clause(clause: &[Lit], marks: &[Mark], line: u32) -> bool
    requires { All (IsLitOf (length marks.now)) clause.now }
    ensures { IsTrue result ↔ IsFalseClause (marked line marks.now) clause.now }
{
    match status(clause, marks, line) {
        ClauseStatus::Falsified => true,
        ClauseStatus::Unit(_) => false,
        ClauseStatus::Open => false,
    }
}

/// The one literal that a unit clause makes true.
pub(crate) fn unit_of(clause: &[Lit], marks: &[Mark], line: u32) -> Option<Lit>
    requires { All (IsLitOf (length marks.now)) clause.now }
    ensures { MatchOption result
        ((l : Literal) → IsUnit (marked line marks.now) clause.now l → ⊥)
        (IsUnit (marked line marks.now) clause.now) }
{
    match status(clause, marks, line) {
        ClauseStatus::Unit(lit) => Some(lit),
        ClauseStatus::Falsified => None,
        ClauseStatus::Open => None,
    }
}
