// Schedules with fewer and fewer launches, until no fewer are found.
ghost use Rattle.std.specs.Prelude.{◌≡◌, ◌+◌, ◌≤◌, IfOk, length};
ghost use Rattle.schedule_meaning.specs.Limits.{most_cycles, most_launches};
ghost use Rattle.cycle_encoding.specs.CycleFormula.{allocation_in};
ghost use Rattle.cycle_encoding.specs.Encodings.{IsScope};
ghost use Rattle.denali_run.specs.Encodings.{encoding_for};
ghost use Rattle.graph_meaning.specs.WellFormed.{IsLaunchGraph};
ghost use Rattle.machine_table.specs.Tables.{IsTable};
ghost use Rattle.register_assign.specs.Assigned.{HaveWords, KeepsWord};
ghost use Rattle.schedule_meaning.specs.Fits.{Fits};
ghost use Rattle.least_launch.specs.Fewest.{IsFewest};
ghost use Rattle.least_launch.specs.Steps.{IsStepsEnd, IsStep};

use crate::encoding::build_fewer;
use crate::laws::fewer_clauses_say_fits;
use crate::results::{Least, Proof};
use cnf_core::refutations_leave_no_solution;
use cycle_encoding::{EncodeFault, Encoded, Facts, Scope};
use denali_run::encoding_for;
use graph_meaning::LaunchGraph;
use items::NoMemory;
use machine_table::Table;
use pick_rule::Pick;
use register_assign::assign;
use sat_core::{Verdict, solve_from};
use schedule_meaning::{
    Allocation, Launch, Schedule, fits_in_any_order, fitting_schedules_are_small,
};
use schedule_reader::read_off;
use std::alloc::{AllocError, Global};

/// What the clauses for fewer launches come to.
#[derive(Drop)]
pub(crate) enum Step {
    Fewer(Schedule),
    Ended(Proof),
}

/// A score for each variable of a formula: 1 for those of a schedule's launches, and 0 for every other. It looks at
/// each launch of the schedule for each launch that has a variable.
fn scores_of(alloc: Global, encoded: &Encoded, schedule: &Schedule) -> Result<Vec<u64>, NoMemory>
    requires { length encoded.now.plan.launches ≤ encoded.now.cnf.vars }
    ensures { IfOk result (λ scores. length scores.items ≡ encoded.now.cnf.vars) }
{
    let mut scores = vec![in alloc; 0u64; encoded.cnf.vars() as usize]?;
    let made = schedule.launches.as_slice();
    for (place, launch) in encoded.plan.launches().iter().enumerate() {
        scores[place] = u64::from(made.contains(launch));
    }
    Ok(scores)
}

/// Looks for a schedule with at most `n` launches, one fewer than this one has, from which the search starts.
fn try_fewer(
    alloc: Global,
    facts: &Facts,
    table: &Table,
    scope: &Scope,
    k: u32,
    n: u32,
    schedule: &Schedule,
    conflicts: u32,
    pick: Pick,
) -> Result<Step, NoMemory>
    requires cycles { k ≤ most_cycles }
    requires launches { n ≤ most_launches }
    requires table { IsTable table.now }
    requires graph { IsLaunchGraph facts.now }
    requires scope { IsScope (encoding_for (allocation_in scope.now)) facts.now table.now scope.now }
    requires conflicts { (1 ≤ conflicts) × (conflicts ≤ 1000000) }
    ensures { IfOk result (IsStep facts.now table.now (allocation_in scope.now) k conflicts n) }
{
    refutations_leave_no_solution();
    fits_in_any_order();
    fewer_clauses_say_fits();
    let encoded = match build_fewer(alloc, facts, table, scope, k, n) {
        Ok(encoded) => encoded,
        Err(EncodeFault::Size { vars, clauses }) => {
            return Ok(Step::Ended(Proof::Size { vars, clauses }));
        }
        Err(EncodeFault::Memory) => return Err(AllocError),
    };
    let scores = scores_of(alloc, &encoded, schedule)?;
    match solve_from(alloc, &encoded.cnf, pick, conflicts, &scores)? {
        Verdict::Sat(values) => {
            let fewer = read_off(alloc, &encoded.plan, values.as_slice())?;
            Ok(Step::Fewer(fewer))
        }
        Verdict::Refuted(lines) => Ok(Step::Ended(Proof::Refuted(lines))),
        Verdict::Spent(lines) => Ok(Step::Ended(Proof::Spent(lines))),
    }
}

/// From a schedule that fits, the last one of those that are found with fewer and fewer launches, and why there is no
/// other.
fn lessen(
    alloc: Global,
    facts: &Facts,
    table: &Table,
    scope: &Scope,
    k: u32,
    given: Schedule,
    conflicts: u32,
    pick: Pick,
) -> Result<(Schedule, Proof), NoMemory>
    requires cycles { k ≤ most_cycles }
    requires table { IsTable table.now }
    requires graph { IsLaunchGraph facts.now }
    requires scope { IsScope (encoding_for (allocation_in scope.now)) facts.now table.now scope.now }
    requires fits { Fits facts.now table.now (allocation_in scope.now) k given.launches }
    requires conflicts { (1 ≤ conflicts) × (conflicts ≤ 1000000) }
    ensures { IfOk result (λ end. IsStepsEnd facts.now table.now (allocation_in scope.now) k conflicts given.launches
        end.0 end.1) }
{
    fitting_schedules_are_small();
    let mut schedule = given;
    loop {
        let count = schedule.launches.len() as u32;
        if count == 0 {
            return Ok((schedule, Proof::None));
        }
        match try_fewer(
            alloc,
            facts,
            table,
            scope,
            k,
            count - 1,
            &schedule,
            conflicts,
            pick,
        )? {
            Step::Fewer(fewer) => schedule = fewer,
            Step::Ended(proof) => return Ok((schedule, proof)),
        }
    }
}

/// Looks for schedules that fit in as many cycles as the given one with fewer launches, one after another, until the
/// clauses for one launch fewer are refuted or too large, or the budget of conflicts for them is spent. Each search
/// starts from the schedule in hand: its launches have the score 1 at first, and all other variables 0.
pub fn least(
    alloc: Global,
    graph: &LaunchGraph,
    table: &Table,
    allocation: Allocation,
    k: u32,
    schedule: Schedule,
    conflicts: u32,
    pick: Pick,
) -> Result<Least, NoMemory>
    requires cycles { k ≤ most_cycles }
    requires table { IsTable table.now }
    requires graph { IsLaunchGraph graph.now }
    requires fits { Fits graph.now table.now allocation k schedule.launches }
    requires conflicts { (1 ≤ conflicts) × (conflicts ≤ 1000000) }
    ensures fewest { IfOk result (IsFewest graph.now table.now allocation k conflicts schedule.launches) }
    ensures words { IfOk result (λ found. HaveWords found.listing.items) }
    ensures keeps { IfOk result (λ found. KeepsWord graph.now table.now k found.listing.items found.listing.wheres) }
{
    let facts = Facts::new(alloc, graph)?;
    let scope = Scope::of(alloc, encoding_for(allocation), &facts, table)?;
    let (schedule, proof) = lessen(alloc, &facts, table, &scope, k, schedule, conflicts, pick)?;
    let listing = assign(alloc, graph, table, allocation, k, &schedule)?;
    Ok(Least {
        schedule,
        listing,
        proof,
    })
}
