// The hints of one line, in order: unit clauses, and a false one at the end.
ghost use Rattle.std.specs.Prelude.{◌≡◌, ◌⊎◌, ◌+◌, ◌-◌, ◌≤◌, ◌↔◌, length, IsTrue, OnOk, IfErr};
ghost use Rattle.std.specs.List.{All};
ghost use Rattle.cnf_core.specs.Formula.{IsLitOf};
ghost use Rattle.cnf_core.specs.Refutation.{EndsFalse, HasUnits, AreNames, negations, known_clauses, clause_at};
ghost use Rattle.refutation_check.specs.Marked.{Shows, NoneIsLater, LemmasExist, Follows};

use crate::values::{Mark, is_false_clause, set_true, unit_of};
use cnf_core::{Cnf, Line, Lit};

/// Whether each hint names a clause among 1 to n.
pub(crate) fn are_names(hints: &[u32], n: u32) -> bool
    ensures { IsTrue result ↔ AreNames n hints.now }
{
    hints.iter().all(|hint| 1 <= *hint && *hint <= n)
}

/// The clause or earlier lemma that a hint names.
fn named<'a>(cnf: &'a Cnf, earlier: &'a [Line], hint: u32) -> &'a [Lit]
    requires first { 1 ≤ hint }
    requires last { hint ≤ length cnf.now.clauses + length earlier.now }
    requires exist { LemmasExist cnf.now.vars earlier.now }
    ensures value { result.now ≡ clause_at (known_clauses cnf.now.clauses earlier.now) hint }
    ensures exist { All (IsLitOf cnf.now.vars) result.now }
{
    let clauses = cnf.clauses();
    if hint <= clauses {
        cnf.clause(hint)
    } else {
        earlier[(hint - clauses - 1) as usize].lits.as_slice()
    }
}

/// Makes the literal of each hint true, in order, or says that a hint isn't unit. Each clause is looked at once.
fn follow(cnf: &Cnf, earlier: &[Line], hints: &[u32], marks: &mut [Mark], line: u32) -> bool
    requires vars { length marks.old ≡ cnf.now.vars }
    requires names { AreNames (length cnf.now.clauses + length earlier.now) hints.now }
    requires exist { LemmasExist cnf.now.vars earlier.now }
    requires bound { NoneIsLater line marks.old }
    ensures bound { NoneIsLater line marks.new }
    ensures led { Follows result (known_clauses cnf.now.clauses earlier.now) hints.now line marks.old marks.new }
{
    for hint in hints {
        match unit_of(named(cnf, earlier, *hint), marks, line) {
            Some(lit) => set_true(lit, marks, line),
            None => return false,
        }
    }
    true
}

/// Follows the hints of a line whose lemma is taken to be false. The reason is 3 where a hint before the last isn't
/// unit, and 4 where there is no hint or the last isn't false.
pub(crate) fn conflict(
    cnf: &Cnf,
    earlier: &[Line],
    line: &Line,
    marks: &mut [Mark],
    number: u32,
) -> Result<(), u8>
    requires vars { length marks.old ≡ cnf.now.vars }
    requires names { AreNames (length cnf.now.clauses + length earlier.now) line.now.hints }
    requires exist { LemmasExist cnf.now.vars earlier.now }
    requires bound { NoneIsLater number marks.old }
    requires shows { Shows number marks.old (negations line.now.lits) }
    ensures bound { NoneIsLater number marks.new }
    ensures ok { OnOk result (EndsFalse cnf.now earlier.now line.now) }
    ensures err { IfErr result (λ why. ((why ≡ 3) × (HasUnits cnf.now earlier.now line.now → ⊥))
        ⊎ ((why ≡ 4) × HasUnits cnf.now earlier.now line.now × (EndsFalse cnf.now earlier.now line.now → ⊥))) }
{
    let hints = line.hints.as_slice();
    let count = hints.len();
    if count == 0 {
        return Err(4);
    }
    if !follow(cnf, earlier, &hints[..count - 1], marks, number) {
        return Err(3);
    }
    if !is_false_clause(named(cnf, earlier, hints[count - 1]), marks, number) {
        return Err(4);
    }
    Ok(())
}
