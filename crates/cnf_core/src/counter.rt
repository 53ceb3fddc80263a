// Counters: clauses that say that at most so many of some literals are true.
ghost use Rattle.std.specs.Prelude.{◌≡◌, ◌+◌, ◌-◌, ◌*◌, ◌^◌, ◌<◌, ◌≤◌, [], ◌∷◌, ◌++◌, length, map, take, OnOk, OnErr};
ghost use Rattle.std.specs.List.{All, range_with_len};
ghost use Rattle.cnf_core.specs.Formula.{Formula, IsLitOf, negated};
ghost use Rattle.cnf_core.specs.Counter.{counter_rows, lit_at, counter, counts_first, keeps, counts_next, stops, counter_clauses, at_most_clauses, at_most_size, at_most_vars};

use crate::{Clauses, Cnf, Lit};
use items::NoMemory;

/// Adds a sequential counter: clauses that say that at most `n` of the literals are true. Nothing is added where there
/// are no more than `n` literals.
pub fn at_most(cnf: &mut Cnf, lits: &[Lit], n: u32) -> Result<(), NoMemory>
    requires exist { All (IsLitOf cnf.old.vars) lits.now }
    requires short { length lits.now < 2 ^ 29 }
    requires vars { cnf.old.vars + at_most_vars n (length lits.now) < 2 ^ 29 }
    requires room { length cnf.old.clauses + at_most_size n (length lits.now) < 2 ^ 30 }
    ensures exact { OnOk result (cnf.new ≡ record {
      vars = cnf.old.vars + at_most_vars n (length lits.now);
      clauses = cnf.old.clauses ++ at_most_clauses cnf.old.vars n lits.now;
    }) }
    ensures err { OnErr result (cnf.new ≡ cnf.old) }
{
    cnf.add_counter(lits, n)
}

/// `at_most` with `n` one.
pub fn at_most_one(cnf: &mut Cnf, lits: &[Lit]) -> Result<(), NoMemory>
    requires exist { All (IsLitOf cnf.old.vars) lits.now }
    requires short { length lits.now < 2 ^ 29 }
    requires vars { cnf.old.vars + at_most_vars 1 (length lits.now) < 2 ^ 29 }
    requires room { length cnf.old.clauses + at_most_size 1 (length lits.now) < 2 ^ 30 }
    ensures exact { OnOk result (cnf.new ≡ record {
      vars = cnf.old.vars + at_most_vars 1 (length lits.now);
      clauses = cnf.old.clauses ++ at_most_clauses cnf.old.vars 1 lits.now;
    }) }
    ensures err { OnErr result (cnf.new ≡ cnf.old) }
{
    at_most(cnf, lits, 1)
}

/// The number of variables that `at_most` adds for this many literals. It takes no memory, so callers can count before
/// they build.
pub fn at_most_vars(n: u32, literals: usize) -> u64
    requires short { literals < 2 ^ 29 }
    ensures value { result ≡ at_most_vars n literals }
    ensures few { result < 2 ^ 60 }
{
    if literals <= n as usize {
        0
    } else {
        (literals as u64 - 1) * n as u64
    }
}

/// The number of clauses that `at_most` adds for this many literals. It takes no memory, so callers can count before
/// they build.
pub fn at_most_size(n: u32, literals: usize) -> u64
    requires short { literals < 2 ^ 29 }
    ensures value { result ≡ at_most_size n literals }
    ensures few { result < 2 ^ 60 }
{
    if literals <= n as usize {
        return 0;
    }
    if n == 0 {
        return literals as u64;
    }
    let width = n as u64;
    let last = literals as u64 - 1;
    last + (last - 1) * width + (last - 1) * (width - 1) + last
}

/// Puts the clauses of a counter up to `n` whose variables begin after `old`. Some of them may be there after a
/// refusal.
pub(crate) fn put_counter(
    clauses: &mut Clauses,
    lits: &[Lit],
    old: u32,
    n: u32,
) -> Result<(), NoMemory>
    requires short { length lits.now < 2 ^ 29 }
    requires vars { old + at_most_vars n (length lits.now) < 2 ^ 29 }
    ensures ok { OnOk result (clauses.new ≡ clauses.old ++ at_most_clauses old n lits.now) }
    ensures err { OnErr result (take (length clauses.old) clauses.new ≡ clauses.old) }
{
    if n == 0 {
        deny_all(clauses, lits)
    } else if (n as usize) < lits.len() {
        count_up(clauses, lits, old, n)
    } else {
        Ok(())
    }
}

/// For each literal, puts the clause that says that the literal is false.
#[tactic(auto, using(crate::proofs::Rows::front_alone, crate::proofs::Rows::front_kept))]
fn deny_all(clauses: &mut Clauses, lits: &[Lit]) -> Result<(), NoMemory>
    ensures ok { OnOk result (clauses.new ≡ clauses.old ++ map (λ l. negated l ∷ []) lits.now) }
    ensures err { OnErr result (take (length clauses.old) clauses.new ≡ clauses.old) }
{
    for lit in lits {
        clauses.push(&[lit.negated()])?;
    }
    Ok(())
}

/// Puts the four rows of a counter, whose variables begin after `old`.
#[tactic(auto, using(crate::proofs::Rows::front_alone, crate::proofs::Rows::front_kept))]
fn count_up(clauses: &mut Clauses, lits: &[Lit], old: u32, width: u32) -> Result<(), NoMemory>
    requires more { width < length lits.now }
    requires some { 1 ≤ width }
    requires vars { old + (length lits.now - 1) * width < 2 ^ 29 }
    ensures ok { OnOk result (clauses.new ≡ clauses.old ++ counter_clauses old width lits.now) }
    ensures err { OnErr result (take (length clauses.old) clauses.new ≡ clauses.old) }
{
    let last = lits.len() as u32 - 1;
    first_row(clauses, lits, old, width)?;
    keep_rows(clauses, last - 1, old, width)?;
    next_rows(clauses, lits, old, width)?;
    stop_row(clauses, lits, old, width)
}

#[tactic(auto, using(crate::proofs::Rows::added_one, crate::proofs::Rows::front_alone, crate::proofs::Rows::front_kept))]
fn first_row(clauses: &mut Clauses, lits: &[Lit], old: u32, width: u32) -> Result<(), NoMemory>
    requires more { width < length lits.now }
    requires some { 1 ≤ width }
    requires vars { old + (length lits.now - 1) * width < 2 ^ 29 }
    ensures ok { OnOk result (clauses.new
        ≡ clauses.old ++ map (counts_first old width lits.now) (range_with_len 0 (length lits.now - 1))) }
    ensures err { OnErr result (take (length clauses.old) clauses.new ≡ clauses.old) }
{
    let last = lits.len() as u32 - 1;
    for i in 0..last {
        clauses.push(&[not_at(lits, i), counter(old, width, i, 0)])?;
    }
    Ok(())
}

#[tactic(auto, using(crate::proofs::Rows::added_one, crate::proofs::Rows::front_alone, crate::proofs::Rows::front_kept))]
fn keep_row(clauses: &mut Clauses, old: u32, width: u32, i: u32) -> Result<(), NoMemory>
    requires vars { old + (i + 2) * width < 2 ^ 29 }
    ensures ok { OnOk result (clauses.new ≡ clauses.old ++ map (keeps old width i) (range_with_len 0 width)) }
    ensures err { OnErr result (take (length clauses.old) clauses.new ≡ clauses.old) }
{
    for j in 0..width {
        let kept = counter(old, width, i, j);
        clauses.push(&[kept.negated(), counter(old, width, i + 1, j)])?;
    }
    Ok(())
}

#[tactic(auto, using(crate::proofs::Rows::rows_more, crate::proofs::Rows::rows_none, crate::proofs::Rows::front_alone, crate::proofs::Rows::front_kept))]
fn keep_rows(clauses: &mut Clauses, count: u32, old: u32, width: u32) -> Result<(), NoMemory>
    requires vars { old + (count + 1) * width < 2 ^ 29 }
    ensures ok { OnOk result (clauses.new ≡ clauses.old ++ counter_rows (keeps old width) count width) }
    ensures err { OnErr result (take (length clauses.old) clauses.new ≡ clauses.old) }
{
    for i in 0..count {
        keep_row(clauses, old, width, i)?;
    }
    Ok(())
}

#[tactic(auto, using(crate::proofs::Rows::added_one, crate::proofs::Rows::front_alone, crate::proofs::Rows::front_kept))]
fn next_row(
    clauses: &mut Clauses,
    lits: &[Lit],
    old: u32,
    width: u32,
    i: u32,
) -> Result<(), NoMemory>
    requires some { 1 ≤ width }
    requires place { i + 1 < length lits.now }
    requires vars { old + (i + 2) * width < 2 ^ 29 }
    ensures ok { OnOk result (clauses.new
        ≡ clauses.old ++ map (counts_next old width lits.now i) (range_with_len 0 (width - 1))) }
    ensures err { OnErr result (take (length clauses.old) clauses.new ≡ clauses.old) }
{
    for j in 0..width - 1 {
        let counted = counter(old, width, i, j);
        clauses.push(&[
            not_at(lits, i + 1),
            counted.negated(),
            counter(old, width, i + 1, j + 1),
        ])?;
    }
    Ok(())
}

#[tactic(auto, using(crate::proofs::Rows::rows_more, crate::proofs::Rows::rows_none, crate::proofs::Rows::front_alone, crate::proofs::Rows::front_kept))]
fn next_rows(clauses: &mut Clauses, lits: &[Lit], old: u32, width: u32) -> Result<(), NoMemory>
    requires more { width < length lits.now }
    requires some { 1 ≤ width }
    requires vars { old + (length lits.now - 1) * width < 2 ^ 29 }
    ensures ok { OnOk result (clauses.new
        ≡ clauses.old ++ counter_rows (counts_next old width lits.now) (length lits.now - 2) (width - 1)) }
    ensures err { OnErr result (take (length clauses.old) clauses.new ≡ clauses.old) }
{
    let count = lits.len() as u32 - 2;
    for i in 0..count {
        next_row(clauses, lits, old, width, i)?;
    }
    Ok(())
}

#[tactic(auto, using(crate::proofs::Rows::added_one, crate::proofs::Rows::front_alone, crate::proofs::Rows::front_kept))]
fn stop_row(clauses: &mut Clauses, lits: &[Lit], old: u32, width: u32) -> Result<(), NoMemory>
    requires more { width < length lits.now }
    requires some { 1 ≤ width }
    requires vars { old + (length lits.now - 1) * width < 2 ^ 29 }
    ensures ok { OnOk result (clauses.new
        ≡ clauses.old ++ map (stops old width lits.now) (range_with_len 0 (length lits.now - 1))) }
    ensures err { OnErr result (take (length clauses.old) clauses.new ≡ clauses.old) }
{
    let last = lits.len() as u32 - 1;
    for i in 0..last {
        let full = counter(old, width, i, width - 1);
        clauses.push(&[not_at(lits, i + 1), full.negated()])?;
    }
    Ok(())
}

/// The negation of the literal at a place.
fn not_at(lits: &[Lit], i: u32) -> Lit
    requires { i < length lits.now }
    ensures { result ≡ negated (lit_at lits.now i) }
{
    lits[i as usize].negated()
}

/// The counter's variable at i and j, from 0: more than j of the first i + 1 literals are true.
fn counter(old: u32, width: u32, i: u32, j: u32) -> Lit
    requires { old + (i * width + j) + 1 < 2 ^ 32 }
    ensures { result ≡ counter old width i j }
{
    Lit {
        var: old + (i * width + j) + 1,
        positive: true,
    }
}
