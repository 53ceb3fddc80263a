// The lines that are given for one launch fewer, tested against clauses that are built from the printed graph and
// table.
ghost use Rattle.std.specs.Prelude.{◌≡◌, ◌≤◌, ◌<◌, ◌^◌, ℕ, Bool, List, length, IfOk, IfNone, MatchOption};
ghost use Rattle.schedule_meaning.specs.Limits.{most_cycles, most_launches};
ghost use Rattle.cnf_core.specs.Formula.{Satisfies};
ghost use Rattle.cnf_core.specs.Refutation.{AreLemmas, IsEmptyOnlyLast, IsFilled, IsFirstRefusal, Refutes};
ghost use Rattle.cycle_encoding.specs.CycleFormula.{allocation_in};
ghost use Rattle.cycle_encoding.specs.Encodings.{IsScope};
ghost use Rattle.cycle_encoding.specs.Plans.{IsTooLarge};
ghost use Rattle.graph_meaning.specs.WellFormed.{IsLaunchGraph};
ghost use Rattle.machine_table.specs.Tables.{IsTable};
ghost use Rattle.schedule_meaning.specs.Fits.{Fits};
ghost use Rattle.schedule_meaning.specs.declared.schedules.Launch.{Launch as LaunchOf};
ghost use Rattle.least_launch.specs.FewerLaunches.{fewer_in};

use crate::encoding::build_fewer;
use crate::laws::fewer_clauses_say_fits;
use cnf_core::{Cnf, Lines};
use cycle_encoding::{EncodeFault, Facts, Scope};
use items::NoMemory;
use machine_table::Table;
use refutation_check::{Marks, Rejected, check, check_lemmas};
use std::alloc::{AllocError, Global};

/// The clauses for at most `n` launches, which are within the limits.
fn clauses(
    alloc: Global,
    facts: &Facts,
    table: &Table,
    scope: &Scope,
    k: u32,
    n: u32,
) -> Result<Cnf, NoMemory>
    requires cycles { k ≤ most_cycles }
    requires launches { n ≤ most_launches }
    requires table { IsTable table.now }
    requires graph { IsLaunchGraph facts.now }
    requires scope { IsScope scope.now.encoding facts.now table.now scope.now }
    requires within { ¬ IsTooLarge (fewer_in scope.now facts.now table.now k n) }
    ensures formula { IfOk result (λ cnf. cnf ≡ fewer_in scope.now facts.now table.now k n) }
    ensures each { IfOk result (λ cnf. (ls : List LaunchOf) → Fits facts.now table.now (allocation_in scope.now) k ls
        → length ls ≤ n → (v : ℕ → Bool) × Satisfies v cnf.clauses) }
{
    fewer_clauses_say_fits();
    match build_fewer(alloc, facts, table, scope, k, n) {
        Ok(encoded) => Ok(encoded.cnf),
        Err(EncodeFault::Memory) => Err(AllocError),
        Err(EncodeFault::Size { .. }) => unreachable!(),
    }
}

/// The first of the lines that is refused as one of a refutation of the clauses for at most `n` launches.
pub(crate) fn refused_line(
    alloc: Global,
    facts: &Facts,
    table: &Table,
    scope: &Scope,
    k: u32,
    n: u32,
    lines: &Lines,
) -> Result<Option<Rejected>, NoMemory>
    requires cycles { k ≤ most_cycles }
    requires launches { n ≤ most_launches }
    requires table { IsTable table.now }
    requires graph { IsLaunchGraph facts.now }
    requires scope { IsScope scope.now.encoding facts.now table.now scope.now }
    requires within { ¬ IsTooLarge (fewer_in scope.now facts.now table.now k n) }
    requires few { length lines.now.lines < 2 ^ 29 }
    ensures exact { IfOk result (λ found. MatchOption found
        (Refutes (fewer_in scope.now facts.now table.now k n) lines.now.lines)
        (λ e. IsFirstRefusal (IsEmptyOnlyLast lines.now.lines) (fewer_in scope.now facts.now table.now k n)
        lines.now.lines e.line e.why)) }
    ensures none_fits { IfOk result (λ found. IfNone found ((ls : List LaunchOf)
        → Fits facts.now table.now (allocation_in scope.now) k ls → ¬ (length ls ≤ n))) }
{
    let cnf = clauses(alloc, facts, table, scope, k, n)?;
    let mut marks = Marks::new(alloc, cnf.vars())?;
    match check(&cnf, lines, &mut marks) {
        Ok(()) => Ok(None),
        Err(rejected) => Ok(Some(rejected)),
    }
}

/// The first of the lines that is refused as one of lemmas of the clauses for at most `n` launches.
pub(crate) fn refused_lemma(
    alloc: Global,
    facts: &Facts,
    table: &Table,
    scope: &Scope,
    k: u32,
    n: u32,
    lines: &Lines,
) -> Result<Option<Rejected>, NoMemory>
    requires cycles { k ≤ most_cycles }
    requires launches { n ≤ most_launches }
    requires table { IsTable table.now }
    requires graph { IsLaunchGraph facts.now }
    requires scope { IsScope scope.now.encoding facts.now table.now scope.now }
    requires within { ¬ IsTooLarge (fewer_in scope.now facts.now table.now k n) }
    requires few { length lines.now.lines < 2 ^ 29 }
    ensures { IfOk result (λ found. MatchOption found
        (AreLemmas (fewer_in scope.now facts.now table.now k n) lines.now.lines)
        (λ e. IsFirstRefusal IsFilled (fewer_in scope.now facts.now table.now k n) lines.now.lines e.line e.why)) }
{
    let cnf = clauses(alloc, facts, table, scope, k, n)?;
    let mut marks = Marks::new(alloc, cnf.vars())?;
    match check_lemmas(&cnf, lines, &mut marks) {
        Ok(()) => Ok(None),
        Err(rejected) => Ok(Some(rejected)),
    }
}
