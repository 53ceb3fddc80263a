// The numbers of cycles that a claim speaks of, and the counts of their clauses, found before any clause is built.
ghost use Rattle.std.specs.Prelude.{◌≡◌, ◌≤◌, length, IfOk, IsTrue, is_some, MatchOption};
ghost use Rattle.schedule_meaning.specs.Limits.{most_cycles};
ghost use Rattle.answer_check.specs.Verdicts.{HasRightSize, HasWrongSize, IsWithinBelow};
ghost use Rattle.answer_texts.specs.AnswerLines as format;
ghost use Rattle.answer_texts.specs.WellFormed.{FitsClaim};
ghost use Rattle.cycle_encoding.specs.Plans.{IsTooLarge, PassesLimit};
ghost use Rattle.graph_meaning.specs.WellFormed.{IsLaunchGraph};
ghost use Rattle.machine_table.specs.Tables.{IsTable};
ghost use Rattle.order_encoding.specs.WholeFormula.{formula_in};

use answer_texts::{Claim, Claimed};
use cycle_encoding::{Facts, Scope, Sizes};
use items::NoMemory;
use machine_table::Table;
use order_encoding::formula_size;
use std::alloc::Global;

/// The number of cycles below which, as the claim says, no schedule fits.
pub(crate) fn refuted_below(claim: &Claim) -> u32
    requires { FitsClaim claim.now }
    ensures value { result ≡ format.refuted_below claim.now }
    ensures few { result ≤ 25 }
{
    match claim {
        Claim::NoWorld { .. } => 0,
        Claim::Scheduled { k, .. } => *k,
        Claim::Missing { k } => *k + 1,
        Claim::SpentConflicts { k, .. } => *k,
        Claim::SpentSize { k, .. } => *k,
    }
}

/// The number of cycles of the clauses that a claim's lines are to refute.
pub fn refuted_cycles(claim: &Claim) -> u32
    requires { FitsClaim claim.now }
    ensures value { result ≡ format.refuted_cycles claim.now }
    ensures few { result ≤ most_cycles }
{
    claim.as_ref().refuted_cycles()
}

/// The counts of the clauses for k cycles, where one of them passes its limit.
fn large_counts(
    alloc: Global,
    facts: &Facts,
    table: &Table,
    scope: &Scope,
    k: u32,
) -> Result<Option<Sizes>, NoMemory>
    requires cycles { k ≤ most_cycles }
    requires table { IsTable table.now }
    requires graph { IsLaunchGraph facts.now }
    ensures { IfOk result (λ found. MatchOption found (¬ IsTooLarge (formula_in scope.now facts.now table.now k))
        (λ s. PassesLimit (formula_in scope.now facts.now table.now k) s.vars s.clauses)) }
{
    let sizes = formula_size(alloc, facts, table, scope, k)?;
    if sizes.pass_limit() {
        Ok(Some(sizes))
    } else {
        Ok(None)
    }
}

/// The true counts of the clauses for k cycles, if the printed counts differ from them or no count passes its limit.
fn untrue_counts(
    alloc: Global,
    facts: &Facts,
    table: &Table,
    scope: &Scope,
    k: u32,
    printed: Sizes,
) -> Result<Option<Sizes>, NoMemory>
    requires cycles { k ≤ most_cycles }
    requires table { IsTable table.now }
    requires graph { IsLaunchGraph facts.now }
    ensures { IfOk result (λ found. MatchOption found
        (PassesLimit (formula_in scope.now facts.now table.now k) printed.vars printed.clauses)
        (λ s. (¬ PassesLimit (formula_in scope.now facts.now table.now k) printed.vars printed.clauses)
        × (s.vars ≡ (formula_in scope.now facts.now table.now k).vars)
        × (s.clauses ≡ length (formula_in scope.now facts.now table.now k).clauses))) }
{
    let sizes = formula_size(alloc, facts, table, scope, k)?;
    if !sizes.pass_limit() {
        return Ok(Some(sizes));
    }
    if sizes.vars != printed.vars {
        return Ok(Some(sizes));
    }
    if sizes.clauses != printed.clauses {
        return Ok(Some(sizes));
    }
    Ok(None)
}

/// The counts of the clauses that lines are to refute, if one of the counts passes its limit.
fn large_below(
    alloc: Global,
    facts: &Facts,
    table: &Table,
    scope: &Scope,
    goal: &Claimed,
) -> Result<Option<Sizes>, NoMemory>
    requires claim { FitsClaim goal.now.claim }
    requires table { IsTable table.now }
    requires graph { IsLaunchGraph facts.now }
    ensures { IfOk result (λ found. MatchOption found
        (IsWithinBelow (formula_in scope.now facts.now table.now) goal.now)
        (λ s. IsTrue (is_some goal.now.refute)
        × PassesLimit (formula_in scope.now facts.now table.now
        (format.refuted_cycles goal.now.claim)) s.vars s.clauses)) }
{
    match &goal.refute {
        None => Ok(None),
        Some(_) => large_counts(alloc, facts, table, scope, refuted_cycles(&goal.claim)),
    }
}

/// The true counts of the clauses that a claim itself speaks of, if the size that it gives is wrong.
fn wrong_own_size(
    alloc: Global,
    facts: &Facts,
    table: &Table,
    scope: &Scope,
    claim: &Claim,
) -> Result<Option<Sizes>, NoMemory>
    requires claim { FitsClaim claim.now }
    requires table { IsTable table.now }
    requires graph { IsLaunchGraph facts.now }
    ensures { IfOk result (λ found. MatchOption found
        (HasRightSize (formula_in scope.now facts.now table.now) claim.now)
        (λ s. (¬ HasRightSize (formula_in scope.now facts.now table.now) claim.now)
        × (s.vars ≡ (formula_in scope.now facts.now table.now (format.refuted_below claim.now)).vars)
        × (s.clauses ≡ length (formula_in scope.now facts.now table.now (format.refuted_below claim.now)).clauses))) }
{
    match claim {
        Claim::SpentConflicts { k, .. } => large_counts(alloc, facts, table, scope, *k),
        Claim::SpentSize { k, vars, clauses } => {
            let printed = Sizes {
                vars: *vars,
                clauses: *clauses,
            };
            untrue_counts(alloc, facts, table, scope, *k, printed)
        }
        Claim::NoWorld { .. } => Ok(None),
        Claim::Scheduled { .. } => Ok(None),
        Claim::Missing { .. } => Ok(None),
    }
}

/// The true counts of the first clauses whose size is wrong: first come those that lines are to refute, then those that
/// the claim itself speaks of.
pub(crate) fn wrong_size(
    alloc: Global,
    facts: &Facts,
    table: &Table,
    scope: &Scope,
    goal: &Claimed,
) -> Result<Option<Sizes>, NoMemory>
    requires claim { FitsClaim goal.now.claim }
    requires table { IsTable table.now }
    requires graph { IsLaunchGraph facts.now }
    ensures { IfOk result (λ found. MatchOption found
        (IsWithinBelow (formula_in scope.now facts.now table.now) goal.now
        × HasRightSize (formula_in scope.now facts.now table.now) goal.now.claim)
        (λ s. HasWrongSize (formula_in scope.now facts.now table.now) goal.now s.vars s.clauses)) }
{
    if let Some(sizes) = large_below(alloc, facts, table, scope, goal)? {
        return Ok(Some(sizes));
    }
    wrong_own_size(alloc, facts, table, scope, &goal.claim)
}
