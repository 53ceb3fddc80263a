// The counts of the clauses of schedules with few launches, found before any clause is built.
ghost use Rattle.std.specs.Prelude.{◌≡◌, ◌*◌, ◌≤◌, ◌<◌, ◌^◌, IfOk, length};
ghost use Rattle.std.specs.List.{sum_by};
ghost use Rattle.schedule_meaning.specs.Limits.{most_cycles, most_launches};
ghost use Rattle.cnf_core.specs.Counter as counter;
ghost use Rattle.cycle_encoding.specs.Counts as counts;
ghost use Rattle.cycle_encoding.specs.CycleFormula as formula;
ghost use Rattle.graph_meaning.specs.WellFormed.{IsLaunchGraph};
ghost use Rattle.machine_table.specs.Tables.{IsTable};
ghost use Rattle.least_launch.specs.FewerLaunches.{fewer_in};

use cnf_core::counters_count;
use cycle_encoding::{Facts, Scope, Sizes, destination_count, row_count};
use items::NoMemory;
use machine_table::Table;
use order_encoding::formula_size;
use std::alloc::Global;

/// How many variables a counter up to `n` takes.
fn counter_vars(n: u32, literals: u64) -> u64
    requires low { n ≤ most_launches }
    requires few { literals < 2 ^ 45 }
    ensures value { result ≡ counter.at_most_vars n literals }
    ensures small { result < 2 ^ 53 }
{
    if literals <= u64::from(n) {
        0
    } else {
        (literals - 1) * u64::from(n)
    }
}

/// How many clauses a counter up to `n` has.
fn counter_size(n: u32, literals: u64) -> u64
    requires low { n ≤ most_launches }
    requires few { literals < 2 ^ 45 }
    ensures value { result ≡ counter.at_most_size n literals }
    ensures small { result < 2 ^ 55 }
{
    if literals <= u64::from(n) {
        return 0;
    }
    if n == 0 {
        return literals;
    }
    let width = u64::from(n);
    let last = literals - 1;
    last + (last - 1) * width + (last - 1) * (width - 1) + last
}

/// How many launches of a row have variables, by where they go.
fn row_launches(facts: &Facts, table: &Table, scope: &Scope, k: u32, row: u32) -> u64
    requires table { IsTable table.now }
    requires cycles { k ≤ most_cycles }
    ensures value { result ≡ counts.row_count facts.now table.now k scope.now row
        * sum_by (λ to. 1) (counts.row_destinations facts.now (formula.allocation_in scope.now) row) }
    ensures few { result ≤ 6400 }
{
    row_count(facts, table, scope, k, row) * destination_count(facts, scope.allocation(), row)
}

/// How many launches have variables.
fn launch_count(facts: &Facts, table: &Table, scope: &Scope, k: u32) -> u64
    requires table { IsTable table.now }
    requires cycles { k ≤ most_cycles }
    requires graph { IsLaunchGraph facts.now }
    ensures value { result ≡ length (formula.listed_in facts.now table.now k scope.now).launches }
    ensures few { result < 2 ^ 45 }
{
    let mut count = 0;
    for row in 0..facts.row_numbers() {
        count += row_launches(facts, table, scope, k, row);
    }
    count
}

/// The two counts of the clauses of schedules with at most `n` launches, over what a scope gives variables; no clause
/// is built. It goes over the graph's rows a few times for each cycle; by live ranges alone it takes memory.
pub(crate) fn count_fewer(
    alloc: Global,
    facts: &Facts,
    table: &Table,
    scope: &Scope,
    k: u32,
    n: u32,
) -> Result<Sizes, NoMemory>
    requires cycles { k ≤ most_cycles }
    requires launches { n ≤ most_launches }
    requires table { IsTable table.now }
    requires graph { IsLaunchGraph facts.now }
    ensures vars { IfOk result (λ sizes. sizes.vars ≡ (fewer_in scope.now facts.now table.now k n).vars) }
    ensures clauses { IfOk result (λ sizes. sizes.clauses
        ≡ length (fewer_in scope.now facts.now table.now k n).clauses) }
{
    counters_count();
    let sizes = formula_size(alloc, facts, table, scope, k)?;
    let launches = launch_count(facts, table, scope, k);
    Ok(Sizes {
        vars: sizes.vars + counter_vars(n, launches),
        clauses: sizes.clauses + counter_size(n, launches),
    })
}
