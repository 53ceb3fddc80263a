// The text of a formula.
ghost use Rattle.std.specs.Prelude.{◌≡◌, ◌++◌, IfOk, OnOk};
ghost use Rattle.text_core.specs.LineTexts.{line_text};
ghost use Rattle.dimacs.specs.Dimacs.{clause_words, dimacs_text, problem_words};

use cnf_core::{Cnf, Lit};
use items::NoMemory;
use itoa::Buffer;
use std::alloc::Global;
use text_core::{put, put_number};

/// The line of a clause: its literals, each with a space behind it, and 0.
fn put_clause(text: &mut Vec<u8>, lits: &[Lit]) -> Result<(), NoMemory>
    ensures { OnOk result (text.new.items ≡ text.old.items ++ line_text (clause_words lits.now)) }
{
    for lit in lits {
        if !lit.positive {
            text.push(b'-')?;
        }
        text.extend_from_slice(Buffer::new().format(lit.var).as_bytes())?;
        text.extend_from_slice(b" ")?;
    }
    put(text, b"0\n")
}

/// The formula in the DIMACS format, a clause a line, in their order: clause 1 stands in the line behind the first. The
/// cost is linear in the number of literals.
pub fn dimacs(alloc: Global, cnf: &Cnf) -> Result<Vec<u8>, NoMemory>
    ensures { IfOk result (λ text. text.items ≡ dimacs_text cnf.now) }
{
    let mut text = Vec::new(alloc);
    put(&mut text, b"p cnf")?;
    put_number(&mut text, u64::from(cnf.vars()))?;
    put_number(&mut text, u64::from(cnf.clauses()))?;
    put(&mut text, b"\n")?;
    for index in 0..cnf.clauses() {
        put_clause(&mut text, cnf.clause(index + 1))?;
    }
    Ok(text)
}
