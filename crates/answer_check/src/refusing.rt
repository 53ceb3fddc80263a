// The lines of a refutation and of lemmas, tested against clauses that are built from the printed graph and table.
ghost use Rattle.std.specs.Prelude.{◌≡◌, ◌≤◌, ◌<◌, ◌^◌, Bool, ℕ, List, length, IfOk, IfNone, IfSome, MatchOption, IsSomeAnd};
ghost use Rattle.schedule_meaning.specs.Limits.{most_cycles};
ghost use Rattle.answer_check.specs.Verdicts.{HasLemmas, HasRefusedLemma, HasRightSize, HasRefutingLines, IsRefusedBelow, IsWithinBelow};
ghost use Rattle.answer_texts.specs.AnswerLines as format;
ghost use Rattle.answer_texts.specs.WellFormed.{FitsClaim, HasRefutation};
ghost use Rattle.cnf_core.specs.Formula.{Satisfies};
ghost use Rattle.cnf_core.specs.Refutation.{AreLemmas, IsEmptyOnlyLast, IsFilled, IsFirstRefusal, Refutes};
ghost use Rattle.cycle_encoding.specs.CycleFormula.{allocation_in};
ghost use Rattle.cycle_encoding.specs.Encodings.{IsScope};
ghost use Rattle.cycle_encoding.specs.Plans.{IsTooLarge};
ghost use Rattle.graph_meaning.specs.WellFormed.{IsLaunchGraph};
ghost use Rattle.machine_table.specs.Tables.{IsTable};
ghost use Rattle.order_encoding.specs.WholeFormula.{formula_in};
ghost use Rattle.schedule_meaning.specs.Fits.{Fits};
ghost use Rattle.schedule_meaning.specs.declared.schedules.Launch.{Launch as LaunchOf};

use crate::counting::refuted_cycles;
use answer_texts::{Claim, Claimed};
use cnf_core::{Cnf, Lines};
use cycle_encoding::{EncodeFault, Facts, Scope};
use items::NoMemory;
use machine_table::Table;
use order_encoding::{build_formula, each_encoding_says_fits};
use refutation_check::{Marks, Rejected, check, check_lemmas};
use std::alloc::{AllocError, Global};

/// The clauses for k cycles, which are within the limits.
fn clauses(
    alloc: Global,
    facts: &Facts,
    table: &Table,
    scope: &Scope,
    k: u32,
) -> Result<Cnf, NoMemory>
    requires cycles { k ≤ most_cycles }
    requires table { IsTable table.now }
    requires graph { IsLaunchGraph facts.now }
    requires scope { IsScope scope.now.encoding facts.now table.now scope.now }
    requires within { ¬ IsTooLarge (formula_in scope.now facts.now table.now k) }
    ensures formula { IfOk result (λ cnf. cnf ≡ formula_in scope.now facts.now table.now k) }
    ensures each { IfOk result (λ cnf. (ls : List LaunchOf) → Fits facts.now table.now (allocation_in scope.now) k ls
        → (v : ℕ → Bool) × Satisfies v cnf.clauses) }
{
    each_encoding_says_fits();
    match build_formula(alloc, facts, table, scope, k) {
        Ok(encoded) => Ok(encoded.cnf),
        Err(EncodeFault::Memory) => Err(AllocError),
        Err(EncodeFault::Size { .. }) => unreachable!(),
    }
}

/// The first of the lines that is refused as one of a refutation of the clauses for k cycles.
fn refused_line(
    alloc: Global,
    facts: &Facts,
    table: &Table,
    scope: &Scope,
    k: u32,
    lines: &Lines,
) -> Result<Option<Rejected>, NoMemory>
    requires cycles { k ≤ most_cycles }
    requires table { IsTable table.now }
    requires graph { IsLaunchGraph facts.now }
    requires scope { IsScope scope.now.encoding facts.now table.now scope.now }
    requires within { ¬ IsTooLarge (formula_in scope.now facts.now table.now k) }
    requires few { length lines.now.lines < 2 ^ 29 }
    ensures exact { IfOk result (λ found. MatchOption found
        (Refutes (formula_in scope.now facts.now table.now k) lines.now.lines)
        (λ e. IsFirstRefusal (IsEmptyOnlyLast lines.now.lines)
        (formula_in scope.now facts.now table.now k) lines.now.lines
        e.line e.why)) }
    ensures none_fits { IfOk result
        (λ found. IfNone found ((ls : List LaunchOf)
        → Fits facts.now table.now (allocation_in scope.now) k ls → ⊥)) }
{
    let cnf = clauses(alloc, facts, table, scope, k)?;
    let mut marks = Marks::new(alloc, cnf.vars())?;
    match check(&cnf, lines, &mut marks) {
        Ok(()) => Ok(None),
        Err(rejected) => Ok(Some(rejected)),
    }
}

/// The first of the lines that is refused as one of lemmas of the clauses for k cycles.
fn refused_filled(
    alloc: Global,
    facts: &Facts,
    table: &Table,
    scope: &Scope,
    k: u32,
    lines: &Lines,
) -> Result<Option<Rejected>, NoMemory>
    requires cycles { k ≤ most_cycles }
    requires table { IsTable table.now }
    requires graph { IsLaunchGraph facts.now }
    requires scope { IsScope scope.now.encoding facts.now table.now scope.now }
    requires within { ¬ IsTooLarge (formula_in scope.now facts.now table.now k) }
    requires few { length lines.now.lines < 2 ^ 29 }
    ensures { IfOk result (λ found. MatchOption found
        (AreLemmas (formula_in scope.now facts.now table.now k) lines.now.lines)
        (λ e. IsFirstRefusal IsFilled (formula_in scope.now facts.now table.now k) lines.now.lines e.line e.why)) }
{
    let cnf = clauses(alloc, facts, table, scope, k)?;
    let mut marks = Marks::new(alloc, cnf.vars())?;
    match check_lemmas(&cnf, lines, &mut marks) {
        Ok(()) => Ok(None),
        Err(rejected) => Ok(Some(rejected)),
    }
}

/// The first line of a goal's refutation that is refused, where there are lines.
pub(crate) fn refused_below(
    alloc: Global,
    facts: &Facts,
    table: &Table,
    scope: &Scope,
    goal: &Claimed,
) -> Result<Option<Rejected>, NoMemory>
    requires claim { FitsClaim goal.now.claim }
    requires table { IsTable table.now }
    requires graph { IsLaunchGraph facts.now }
    requires scope { IsScope scope.now.encoding facts.now table.now scope.now }
    requires within { IsWithinBelow (formula_in scope.now facts.now table.now) goal.now }
    requires few { IfSome goal.now.refute (λ l. length l.lines < 2 ^ 29) }
    ensures exact { IfOk result (λ found. MatchOption found
        (HasRefutingLines (formula_in scope.now facts.now table.now) goal.now)
        (λ e. IsRefusedBelow (formula_in scope.now facts.now table.now) goal.now
        (format.refuted_cycles goal.now.claim) e.line e.why)) }
    ensures none_fits { IfOk result (λ found. IfNone found (IfSome goal.now.refute
        (λ l. (ls : List LaunchOf)
        → Fits facts.now table.now (allocation_in scope.now) (format.refuted_cycles goal.now.claim) ls → ⊥))) }
{
    match &goal.refute {
        None => Ok(None),
        Some(lines) => refused_line(
            alloc,
            facts,
            table,
            scope,
            refuted_cycles(&goal.claim),
            lines,
        ),
    }
}

/// The first line of a claim's lemmas that is refused, where it has some.
pub(crate) fn refused_lemma(
    alloc: Global,
    facts: &Facts,
    table: &Table,
    scope: &Scope,
    claim: &Claim,
) -> Result<Option<Rejected>, NoMemory>
    requires claim { FitsClaim claim.now }
    requires table { IsTable table.now }
    requires graph { IsLaunchGraph facts.now }
    requires scope { IsScope scope.now.encoding facts.now table.now scope.now }
    requires size { HasRightSize (formula_in scope.now facts.now table.now) claim.now }
    ensures { IfOk result (λ found. MatchOption found (HasLemmas (formula_in scope.now facts.now table.now) claim.now)
        (λ e. HasRefusedLemma (formula_in scope.now facts.now table.now) claim.now
        (format.refuted_below claim.now) e.line e.why)) }
{
    match claim {
        Claim::SpentConflicts { k, lemmas } => {
            refused_filled(alloc, facts, table, scope, *k, lemmas)
        }
        Claim::NoWorld { .. } => Ok(None),
        Claim::Scheduled { .. } => Ok(None),
        Claim::Missing { .. } => Ok(None),
        Claim::SpentSize { .. } => Ok(None),
    }
}
