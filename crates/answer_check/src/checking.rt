// The tests of one goal, in their order.
ghost use Rattle.std.specs.Prelude.{◌≡◌, ◌≢◌, ℕ, IfOk};
ghost use Rattle.answer_check.specs.Soundness.{IsSound, IsTrueClaim};
ghost use Rattle.answer_check.specs.Verdicts.{IsOutcome, IsVerdict};
ghost use Rattle.answer_check.specs.declared.verdicts.Verdict.TheVariants.{Holds};
ghost use Rattle.answer_texts.specs.AnswerLines as format;
ghost use Rattle.answer_texts.specs.WellFormed.{FitsClaim, HasRefutation, IsClaimed};
ghost use Rattle.answer_texts.specs.declared.answers.Claim.TheVariants.{NoWorld};
ghost use Rattle.cycle_encoding.specs.CycleFormula.{allocation_in};
ghost use Rattle.cycle_encoding.specs.Encodings.{IsScope};
ghost use Rattle.graph_meaning.specs.WellFormed.{IsLaunchGraph};
ghost use Rattle.machine_table.specs.Tables.{IsTable};
ghost use Rattle.order_encoding.specs.WholeFormula.{formula_in};

use crate::Verdict;
use crate::counting::{refuted_below, refuted_cycles, wrong_size};
use crate::listed::{fits_as_claimed, is_listed};
use crate::refusing::{refused_below, refused_lemma};
use answer_texts::Claimed;
use cycle_encoding::{Encoding, Facts, Scope};
use graph_meaning::LaunchGraph;
use items::NoMemory;
use machine_table::Table;
use schedule_meaning::schedules_fit_or_break;
use std::alloc::Global;

/// Tests what is claimed of a goal with a graph.
fn check_claim(
    alloc: Global,
    graph: &LaunchGraph,
    facts: &Facts,
    table: &Table,
    scope: &Scope,
    goal: &Claimed,
) -> Result<Verdict, NoMemory>
    requires table { IsTable table.now }
    requires graph { IsLaunchGraph graph.now }
    requires facts { facts.now ≡ graph.now }
    requires scope { IsScope scope.now.encoding facts.now table.now scope.now }
    requires claim { FitsClaim goal.now.claim }
    requires world { (class a b : ℕ) → goal.now.claim ≢ NoWorld class a b }
    requires refute { HasRefutation (format.refuted_below goal.now.claim) goal.now.refute }
    ensures outcome { IfOk result
        (IsOutcome table.now (allocation_in scope.now) graph.now (formula_in scope.now facts.now table.now) goal.now) }
    ensures sound { IfOk result (λ v. v ≡ Holds
        → IsTrueClaim table.now (allocation_in scope.now) graph.now (formula_in scope.now facts.now table.now)
        goal.now.claim) }
{
    schedules_fit_or_break();
    let allocation = scope.allocation();
    if let Err(broken) = fits_as_claimed(graph, table, allocation, &goal.claim) {
        return Ok(Verdict::Broken {
            launch: broken.launch,
            rule: broken.rule,
        });
    }
    if !is_listed(alloc, graph, table, allocation, &goal.claim)? {
        return Ok(Verdict::Listing);
    }
    if let Some(sizes) = wrong_size(alloc, facts, table, scope, goal)? {
        return Ok(Verdict::Size {
            vars: sizes.vars,
            clauses: sizes.clauses,
        });
    }
    if let Some(rejected) = refused_below(alloc, facts, table, scope, goal)? {
        return Ok(Verdict::Refutation {
            k: refuted_cycles(&goal.claim),
            line: rejected.line,
            why: rejected.why,
        });
    }
    if let Some(rejected) = refused_lemma(alloc, facts, table, scope, &goal.claim)? {
        return Ok(Verdict::Lemmas {
            k: refuted_below(&goal.claim),
            line: rejected.line,
            why: rejected.why,
        });
    }
    Ok(Verdict::Holds)
}

/// Tests a goal's claim, whoever made it, against the clauses of an encoding. If every test holds, the claim is true.
/// The clauses for one number of cycles are built at a time; the cost is that of building them, and of looking once at
/// each clause that a hint names.
pub fn check_goal(
    alloc: Global,
    encoding: Encoding,
    table: &Table,
    goal: &Claimed,
) -> Result<Verdict, NoMemory>
    requires table { IsTable table.now }
    requires goal { (version : ℕ) × IsClaimed version goal.now }
    ensures verdict { IfOk result (IsVerdict encoding table.now goal.now) }
    ensures sound { IfOk result (λ v. v ≡ Holds → IsSound encoding table.now goal.now) }
{
    match &goal.graph {
        None => Ok(Verdict::Seen),
        Some(graph) => {
            let facts = Facts::new(alloc, graph)?;
            let scope = Scope::of(alloc, encoding, &facts, table)?;
            check_claim(alloc, graph, &facts, table, &scope, goal)
        }
    }
}
