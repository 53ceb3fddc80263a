// The numbers of lines when some of them fall away.
ghost use Rattle.std.specs.Prelude.{◌≡◌, ℕ, ◌+◌, ◌≤◌, List, length, map, IfOk};
ghost use Rattle.std.specs.List.{All};
ghost use Rattle.refute_trim.specs.Marks.{AreNewNumbers, HaveIdsBehind, IsWithinNumbers, places_of};
ghost use Rattle.refute_trim.specs.Trimmed.{IsRenumbered, new_number};

use cnf_core::Line;
use items::{Items, NoMemory};
use std::alloc::Global;

/// The new number of each line: its own, less the number of lines before it that aren't needed.
pub(crate) fn new_numbers(
    alloc: Global,
    lines: &[Line],
    needed: &[bool],
) -> Result<Vec<u32>, NoMemory>
    requires size { length needed.now ≡ length lines.now }
    requires ids { (n : ℕ) × HaveIdsBehind n lines.now }
    ensures size { IfOk result (λ numbers. length numbers.items ≡ length lines.now) }
    ensures each { IfOk result (λ numbers. (n : ℕ)
        → HaveIdsBehind n lines.now → AreNewNumbers n (places_of needed.now) numbers.items) }
{
    let mut numbers = Vec::new(alloc);
    let mut dropped = 0;
    for (at, line) in lines.iter().enumerate() {
        let id = line.id;
        numbers.push(id - dropped)?;
        if !needed[at] {
            dropped += 1;
        }
    }
    Ok(numbers)
}

/// The new number of a clause or a line: a clause keeps its own.
fn new_number(number: u32, clauses: u32, numbers: &[u32]) -> u32
    requires { number ≤ clauses + length numbers.now }
    ensures { (places : List ℕ) → AreNewNumbers clauses places numbers.now
        → result ≡ new_number clauses places number }
{
    if number <= clauses {
        number
    } else {
        numbers[(number - clauses - 1) as usize]
    }
}

fn renumbered_hints(
    alloc: Global,
    hints: &[u32],
    clauses: u32,
    numbers: &[u32],
) -> Result<Items<u32>, NoMemory>
    requires { All (λ h. h ≤ clauses + length numbers.now) hints.now }
    ensures { IfOk result (λ new. (places : List ℕ) → AreNewNumbers clauses places numbers.now
        → new ≡ map (new_number clauses places) hints.now) }
{
    let mut renumbered = Items::new(alloc);
    for hint in hints {
        renumbered.push(new_number(*hint, clauses, numbers))?;
    }
    Ok(renumbered)
}

/// The line with the new numbers of its lemma and its hints.
pub(crate) fn renumbered(
    alloc: Global,
    line: &Line,
    clauses: u32,
    numbers: &[u32],
) -> Result<Line, NoMemory>
    requires { IsWithinNumbers (clauses + length numbers.now) line.now }
    ensures { IfOk result (λ new. (places : List ℕ) → AreNewNumbers clauses places numbers.now
        → IsRenumbered clauses places line.now new) }
{
    Ok(Line {
        id: new_number(line.id, clauses, numbers),
        lits: Items::from_slice(alloc, line.lits.as_slice())?,
        hints: renumbered_hints(alloc, line.hints.as_slice(), clauses, numbers)?,
    })
}
