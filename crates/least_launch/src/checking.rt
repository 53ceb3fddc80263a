// The tests of what is said of one schedule behind an answer.
ghost use Rattle.std.specs.Prelude.{◌≡◌, ◌↔◌, ◌+◌, ◌<◌, ◌≤◌, ℕ, length, IfOk, IfNone, IfSome, IsTrue, MatchOption, Some, is_some};
ghost use Rattle.schedule_meaning.specs.Limits.{most_cycles, most_launches};
ghost use Rattle.answer_check.specs.Soundness.{IsSound};
ghost use Rattle.answer_check.specs.Verdicts.{IsVerdict};
ghost use Rattle.answer_check.specs.declared.verdicts.Verdict.TheVariants.{Holds};
ghost use Rattle.answer_texts.specs.WellFormed.{FitsClaim, IsClaimed};
ghost use Rattle.answer_texts.specs.declared.answers.Claimed.{Claimed as ClaimedOf};
ghost use Rattle.cnf_core.specs.Formula.{Formula};
ghost use Rattle.cycle_encoding.specs.Allocations.{allocation_of};
ghost use Rattle.cycle_encoding.specs.CycleFormula.{allocation_in};
ghost use Rattle.cycle_encoding.specs.Encodings.{IsScope};
ghost use Rattle.cycle_encoding.specs.Plans.{IsTooLarge, PassesLimit};
ghost use Rattle.cycle_encoding.specs.declared.encodings.Encoding.{Encoding as EncodingOf};
ghost use Rattle.graph_meaning.specs.WellFormed.{IsLaunchGraph};
ghost use Rattle.machine_table.specs.Tables.{IsTable};
ghost use Rattle.least_launch.specs.FewerLaunches.{fewer_in};
ghost use Rattle.least_launch.specs.LeastChecks.{IsTailJudged};
ghost use Rattle.least_launch.specs.TailVerdicts as specs;
ghost use Rattle.least_launch.specs.TailVerdicts.{FitsAsClaimed, HasFewLines, HasRefusedLine, HasTrueLines, HasTrueSize, HoldsOf, IsByClauses, ClaimsSchedule, IsTailOutcome, SaysTrue, TellsNoneFewer};

use crate::counting::count_fewer;
use crate::refusing::{refused_lemma, refused_line};
use crate::tails::Tail;
use crate::verdicts::TailVerdict;
use answer_check::{Verdict, check_goal};
use answer_texts::{Claim, Claimed};
use cycle_encoding::{Encoding, Facts, Scope, Sizes};
use denali_run::encoding_for;
use graph_meaning::LaunchGraph;
use items::NoMemory;
use machine_table::Table;
use refutation_check::Rejected;
use schedule_meaning::{Allocation, fitting_schedules_are_small};
use std::alloc::Global;

/// Of how many launches something is said.
fn launches_of(tail: &Tail) -> u32
    ensures { result ≡ specs.launches_of tail.now }
{
    match tail {
        Tail::Least { launches, .. } => *launches,
        Tail::Spent { launches, .. } => *launches,
        Tail::Size { launches, .. } => *launches,
    }
}

/// The verdict where all tests hold.
fn holds(tail: &Tail) -> TailVerdict
    ensures { HoldsOf tail.now result }
{
    match tail {
        Tail::Least { launches, .. } => TailVerdict::Least {
            launches: *launches,
        },
        Tail::Spent { launches, .. } => TailVerdict::Most {
            launches: *launches,
        },
        Tail::Size { launches, .. } => TailVerdict::Most {
            launches: *launches,
        },
    }
}

/// Whether these are the printed counts, and one of them passes its limit.
fn pass_as_said(sizes: Sizes, vars: u64, clauses: u64) -> bool
    ensures { (f : Formula) → sizes.vars ≡ f.vars → sizes.clauses ≡ length f.clauses
        → IsTrue result ↔ PassesLimit f vars clauses }
{
    if !sizes.pass_limit() {
        return false;
    }
    if sizes.vars != vars {
        return false;
    }
    if sizes.clauses != clauses {
        return false;
    }
    true
}

/// Whether no count passes its limit.
fn are_within(sizes: Sizes) -> bool
    ensures { (f : Formula) → sizes.vars ≡ f.vars → sizes.clauses ≡ length f.clauses → IsTrue result ↔ ¬ IsTooLarge f }
{
    !sizes.pass_limit()
}

/// Whether these counts are right for what is said: lines are for clauses within the limits, and counts are the true
/// ones, of which one passes its limit.
fn are_right(sizes: Sizes, tail: &Tail) -> bool
    ensures { (f : Formula) → sizes.vars ≡ f.vars → sizes.clauses ≡ length f.clauses
        → IsTrue result ↔ HasTrueSize f tail.now }
{
    match tail {
        Tail::Least { .. } => are_within(sizes),
        Tail::Spent { .. } => are_within(sizes),
        Tail::Size { vars, clauses, .. } => pass_as_said(sizes, *vars, *clauses),
    }
}

/// The true counts of the clauses for at most `n` launches, if they are wrong for what is said.
fn wrong_size(
    alloc: Global,
    facts: &Facts,
    table: &Table,
    scope: &Scope,
    k: u32,
    n: u32,
    tail: &Tail,
) -> Result<Option<Sizes>, NoMemory>
    requires cycles { k ≤ most_cycles }
    requires launches { n ≤ most_launches }
    requires table { IsTable table.now }
    requires graph { IsLaunchGraph facts.now }
    ensures { IfOk result (λ found. MatchOption found
        (HasTrueSize (fewer_in scope.now facts.now table.now k n) tail.now)
        (λ s. (¬ HasTrueSize (fewer_in scope.now facts.now table.now k n) tail.now)
        × (s.vars ≡ (fewer_in scope.now facts.now table.now k n).vars)
        × (s.clauses ≡ length (fewer_in scope.now facts.now table.now k n).clauses))) }
{
    let sizes = count_fewer(alloc, facts, table, scope, k, n)?;
    if are_right(sizes, tail) {
        Ok(None)
    } else {
        Ok(Some(sizes))
    }
}

/// The first line that is given for at most `n` launches and is refused, if some are given.
fn refused(
    alloc: Global,
    facts: &Facts,
    table: &Table,
    scope: &Scope,
    k: u32,
    n: u32,
    tail: &Tail,
) -> Result<Option<Rejected>, NoMemory>
    requires cycles { k ≤ most_cycles }
    requires launches { n ≤ most_launches }
    requires table { IsTable table.now }
    requires graph { IsLaunchGraph facts.now }
    requires scope { IsScope scope.now.encoding facts.now table.now scope.now }
    requires size { HasTrueSize (fewer_in scope.now facts.now table.now k n) tail.now }
    requires few { HasFewLines tail.now }
    ensures exact { IfOk result (λ found. MatchOption found
        (HasTrueLines (fewer_in scope.now facts.now table.now k n) tail.now)
        (λ e. HasRefusedLine (fewer_in scope.now facts.now table.now k n) tail.now e.line e.why)) }
    ensures none_fits { IfOk result
        (λ found. IfNone found (TellsNoneFewer facts.now table.now (allocation_in scope.now) k n tail.now)) }
{
    match tail {
        Tail::Least { lines, .. } => refused_line(alloc, facts, table, scope, k, n, lines),
        Tail::Spent { lines, .. } => refused_lemma(alloc, facts, table, scope, k, n, lines),
        Tail::Size { .. } => Ok(None),
    }
}

/// Tests what is said of a schedule by the clauses for one launch fewer, at most `n`.
fn check_clauses(
    alloc: Global,
    facts: &Facts,
    table: &Table,
    scope: &Scope,
    k: u32,
    n: u32,
    tail: &Tail,
) -> Result<TailVerdict, NoMemory>
    requires cycles { k ≤ most_cycles }
    requires launches { n ≤ most_launches }
    requires table { IsTable table.now }
    requires graph { IsLaunchGraph facts.now }
    requires scope { IsScope scope.now.encoding facts.now table.now scope.now }
    requires few { HasFewLines tail.now }
    requires said { specs.launches_of tail.now ≡ n + 1 }
    ensures outcome { IfOk result (λ v. IsByClauses tail.now v (fewer_in scope.now facts.now table.now k n)) }
    ensures sound { IfOk result (SaysTrue facts.now table.now (allocation_in scope.now) k) }
{
    if let Some(sizes) = wrong_size(alloc, facts, table, scope, k, n, tail)? {
        return Ok(TailVerdict::Size {
            vars: sizes.vars,
            clauses: sizes.clauses,
        });
    }
    if let Some(rejected) = refused(alloc, facts, table, scope, k, n, tail)? {
        return Ok(TailVerdict::Fewer {
            line: rejected.line,
            why: rejected.why,
        });
    }
    Ok(holds(tail))
}

/// Tests what is said of a schedule of the graph that fits in k cycles and has so many launches, by the clauses for its
/// allocation.
fn check_tail(
    alloc: Global,
    table: &Table,
    allocation: Allocation,
    graph: &LaunchGraph,
    k: u32,
    count: u32,
    tail: &Tail,
) -> Result<TailVerdict, NoMemory>
    requires cycles { k ≤ most_cycles }
    requires count { count ≤ most_launches }
    requires table { IsTable table.now }
    requires graph { IsLaunchGraph graph.now }
    requires few { HasFewLines tail.now }
    ensures outcome { IfOk result (IsTailOutcome graph.now table.now allocation k count tail.now) }
    ensures sound { IfOk result (SaysTrue graph.now table.now allocation k) }
{
    let launches = launches_of(tail);
    if count != launches {
        return Ok(TailVerdict::Count { launches });
    }
    if count == 0 {
        return Ok(holds(tail));
    }
    let facts = Facts::new(alloc, graph)?;
    let scope = Scope::of(alloc, encoding_for(allocation), &facts, table)?;
    check_clauses(alloc, &facts, table, &scope, k, count - 1, tail)
}

/// Tests what is said of the schedule that is claimed, if one is, where all other tests hold.
fn check_claimed(
    alloc: Global,
    table: &Table,
    allocation: Allocation,
    graph: &LaunchGraph,
    claim: &Claim,
    tail: &Tail,
) -> Result<TailVerdict, NoMemory>
    requires table { IsTable table.now }
    requires graph { IsLaunchGraph graph.now }
    requires few { HasFewLines tail.now }
    requires small { FitsClaim claim.now }
    requires fits { FitsAsClaimed graph.now table.now allocation claim.now }
    ensures { IfOk result (λ v. (e : EncodingOf) (c : ClaimedOf) → allocation_of e ≡ allocation
        → c.graph ≡ Some graph.now → c.claim ≡ claim.now
        → IsVerdict e table.now c Holds → IsSound e table.now c → IsTailJudged e table.now c (Some tail.now) v) }
{
    fitting_schedules_are_small();
    match claim {
        Claim::Scheduled { k, schedule, .. } => {
            let count = schedule.launches.len() as u32;
            check_tail(alloc, table, allocation, graph, *k, count, tail)
        }
        Claim::NoWorld { .. } => Ok(TailVerdict::Plain(Verdict::Holds)),
        Claim::Missing { .. } => Ok(TailVerdict::Plain(Verdict::Holds)),
        Claim::SpentConflicts { .. } => Ok(TailVerdict::Plain(Verdict::Holds)),
        Claim::SpentSize { .. } => Ok(TailVerdict::Plain(Verdict::Holds)),
    }
}

/// Tests what is said of a goal's schedule, if it has one, where all other tests hold.
fn check_held(
    alloc: Global,
    table: &Table,
    allocation: Allocation,
    goal: &Claimed,
    said: &Option<Tail>,
) -> Result<TailVerdict, NoMemory>
    requires table { IsTable table.now }
    requires goal { (version : ℕ) × IsClaimed version goal.now }
    requires said { ClaimsSchedule goal.now.claim → IsTrue (is_some said.now) }
    requires few { IfSome said.now HasFewLines }
    requires sound { (e : EncodingOf) × (allocation_of e ≡ allocation) × IsSound e table.now goal.now }
    ensures { IfOk result (λ v. (e : EncodingOf) → allocation_of e ≡ allocation
        → IsVerdict e table.now goal.now Holds → IsSound e table.now goal.now
        → IsTailJudged e table.now goal.now said.now v) }
{
    match said {
        None => Ok(TailVerdict::Plain(Verdict::Holds)),
        Some(tail) => match &goal.graph {
            None => Ok(TailVerdict::Plain(Verdict::Holds)),
            Some(graph) => check_claimed(alloc, table, allocation, graph, &goal.claim, tail),
        },
    }
}

/// Tests what an answer claims of a goal, and if it is scheduled and all these tests hold, what is said of its
/// schedule.
pub fn check_said(
    alloc: Global,
    encoding: Encoding,
    table: &Table,
    goal: &Claimed,
    said: &Option<Tail>,
) -> Result<TailVerdict, NoMemory>
    requires table { IsTable table.now }
    requires goal { (version : ℕ) × IsClaimed version goal.now }
    requires said { ClaimsSchedule goal.now.claim → IsTrue (is_some said.now) }
    requires few { IfSome said.now HasFewLines }
    ensures { IfOk result (IsTailJudged encoding table.now goal.now said.now) }
{
    let verdict = check_goal(alloc, encoding, table, goal)?;
    match verdict {
        Verdict::Holds => check_held(alloc, table, encoding.allocation(), goal, said),
        _ => Ok(TailVerdict::Plain(verdict)),
    }
}
