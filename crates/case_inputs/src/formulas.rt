// Formulas: a line `vars N`, and a line for each clause.
use case_files::{Lines, Trouble, Words, split_line};
use cnf_core::{Cnf, Lit};
use std::alloc::Global;

/// The literals that are left on a line, up to a 0. A number has `-` before it for a negated literal.
pub fn literals(alloc: Global, words: &mut Words<'_>) -> Result<Vec<Lit>, Trouble> {
    let mut lits = Vec::new(alloc);
    for _ in 0..words.rest.len() {
        let Some(word) = words.next() else {
            break;
        };
        let (digits, positive) = match word.strip_prefix(b"-") {
            Some(digits) => (digits, false),
            None => (word, true),
        };
        let var = Words { rest: digits }.small()?;
        if var == 0 {
            break;
        }
        lits.push(Lit { var, positive })?;
    }
    Ok(lits)
}

/// The formula without clauses over so many variables.
pub fn over(alloc: Global, vars: u32) -> Result<Cnf, Trouble> {
    if vars > 1 << 20 {
        return Err(Trouble::Unread);
    }
    let mut cnf = Cnf::new(alloc);
    for _ in 0..vars {
        if cnf.vars() > 1 << 21 {
            return Err(Trouble::Unread);
        }
        cnf.fresh();
    }
    Ok(cnf)
}

/// The formula of a line `vars N` and a line for each clause, whose literals are numbers before a 0.
pub fn formula(alloc: Global, text: &[u8]) -> Result<Cnf, Trouble> {
    let (head, rest) = split_line(text);
    let number = head.strip_prefix(b"vars ").ok_or(Trouble::Unread)?;
    let mut cnf = over(alloc, Words { rest: number }.small()?)?;
    let mut lines = Lines { rest };
    for _ in 0..rest.len() {
        let Some(line) = lines.next() else {
            break;
        };
        let lits = literals(alloc, &mut Words { rest: line })?;
        if cnf.clauses() > 1 << 24 || !cnf.has(&lits) {
            return Err(Trouble::Unread);
        }
        cnf.add(&lits)?;
    }
    Ok(cnf)
}
