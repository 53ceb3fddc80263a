// The needed lines of a refutation.
ghost use Rattle.std.specs.Prelude.{◌≡◌, ℕ, ◌+◌, List, length, IfOk};
ghost use Rattle.std.specs.List.{All, AllZip};
ghost use Rattle.cnf_core.specs.Refutation.{Refutes};
ghost use Rattle.refute_trim.specs.Marks.{AreNewNumbers, IsWithinNumbers, places_of};
ghost use Rattle.refute_trim.specs.Trimmed.{AllButLastAreHints, AreTrimmed, IsLineFrom};

use crate::laws::trimmed_lines_refute;
use crate::needed::mark_needed;
use crate::numbers::{new_numbers, renumbered};
use cnf_core::{Cnf, Line, Lines};
use items::{Items, NoMemory};
use std::alloc::Global;

/// The needed lines, in their order and with their new numbers.
fn kept_lines(
    alloc: Global,
    lines: &[Line],
    needed: &[bool],
    clauses: u32,
    numbers: &[u32],
) -> Result<Items<Line>, NoMemory>
    requires marks { length needed.now ≡ length lines.now }
    requires within { All (IsWithinNumbers (clauses + length numbers.now)) lines.now }
    ensures { IfOk result (λ kept. (places : List ℕ) → AreNewNumbers clauses places numbers.now
        → AllZip (IsLineFrom clauses places lines.now) (places_of needed.now) kept) }
{
    let mut kept = Items::new(alloc);
    for (at, line) in lines.iter().enumerate() {
        if needed[at] {
            kept.push(renumbered(alloc, line, clauses, numbers)?)?;
        }
    }
    Ok(kept)
}

/// The lines of a refutation without those that aren't needed: the last line is needed, and so is each line that is a
/// hint of a needed one. Lemmas stay as they are, and so do hints on clauses; lines, and hints on them, are numbered
/// anew. The cost is linear in the lines and their hints.
pub fn trim(alloc: Global, cnf: &Cnf, lines: &Lines) -> Result<Lines, NoMemory>
    requires { Refutes cnf.now lines.now.lines }
    ensures trimmed { IfOk result (λ new. AreTrimmed (length cnf.now.clauses) lines.now.lines new.lines) }
    ensures refutes { IfOk result (λ new. Refutes cnf.now new.lines) }
    ensures hints { IfOk result (λ new. AllButLastAreHints new.lines) }
{
    trimmed_lines_refute();
    let lines = lines.lines.as_slice();
    let mut needed = vec![in alloc; false; lines.len()]?;
    mark_needed(cnf, lines, needed.as_mut_slice());
    let numbers = new_numbers(alloc, lines, &needed)?;
    Ok(Lines {
        lines: kept_lines(alloc, lines, &needed, cnf.clauses(), &numbers)?,
    })
}
