// The search: propagation, decisions, and a lemma for each conflict.
ghost use Rattle.std.specs.Prelude.{◌≡◌, ◌+◌, ◌^◌, ◌<◌, ◌≤◌, [], length, map, OnOk, IfOk, MatchOption, unwrap_or, false};
ghost use Rattle.cnf_core.specs.Formula.{AreOver};
ghost use Rattle.cnf_core.specs.Values.{IsClosed};
ghost use Rattle.cnf_core.specs.Outcome.{IsSolved, IsRefuted, IsSpent};
ghost use Rattle.sat_core.specs.Steps.{truth_value, assignment_of, var_count, IsTrailState, AreClosedBefore};
ghost use Rattle.sat_core.specs.FalseClauses.{IsFalsified};
ghost use Rattle.sat_core.specs.Picks.{free_list, Offers};
ghost use Rattle.sat_core.specs.Watches.{AreWatched};
ghost use Rattle.sat_core.specs.Verdicts.{IfSat, IfRefuted, IfSpent};

use crate::conflict::learn;
use crate::decision::Decider;
use crate::notes::Notes;
use crate::propagation::propagate;
use crate::restarts::Restarts;
use crate::trail::{Trail, Value};
use crate::watches::Watches;
use cnf_core::{Clauses, Cnf, Lines, refutations_leave_no_solution};
use items::{Items, NoMemory};
use pick_rule::Pick;
use std::alloc::Global;

/// What a search came to.
#[derive(Drop)]
pub enum Verdict {
    /// A value for each variable, that of variable x at the place x - 1, and they satisfy every clause.
    Sat(Items<bool>),
    /// Lines that refute the formula.
    Refuted(Lines),
    /// As many lemmas as the budget allows; none of them could be found by unit propagation from the clauses and lemmas
    /// before it.
    Spent(Lines),
}

/// Searches for values that satisfy the formula, with at most `conflicts` conflicts: `solve_from` with the score 0 for
/// each variable.
pub fn solve(alloc: Global, cnf: &Cnf, pick: Pick, conflicts: u32) -> Result<Verdict, NoMemory>
    requires conflicts { (1 ≤ conflicts) × (conflicts ≤ 1000000) }
    ensures solved { IfOk result (λ verdict. IfSat verdict (IsSolved cnf.now)) }
    ensures refuted { IfOk result (λ verdict. IfRefuted verdict (IsRefuted cnf.now conflicts)) }
    ensures spent { IfOk result (λ verdict. IfSpent verdict (IsSpent cnf.now conflicts)) }
{
    let scores = vec![in alloc; 0u64; cnf.vars() as usize]?;
    solve_from(alloc, cnf, pick, conflicts, &scores)
}

/// Searches for values that satisfy the formula, with at most `conflicts` conflicts, from a score for each variable, that
/// of variable x at the place x - 1. Each decision is the free variable that the strategy picks. For `Busy` its score is
/// the given one plus the number of lemmas so far that have the variable, and ends at 2^64 - 1; for `Activity` the given
/// one is where its activity starts; `First` and `Last` don't look at scores. Each conflict adds one line: the lemma of the
/// first unique implication point, without the literals that its other literals imply, and as hints the clauses that it
/// was resolved from. A decision takes time that grows with the logarithm of the number of variables. Memory grows with
/// the formula and with what is learnt, not with `conflicts`.
pub fn solve_from(
    alloc: Global,
    cnf: &Cnf,
    pick: Pick,
    conflicts: u32,
    scores: &[u64],
) -> Result<Verdict, NoMemory>
    requires conflicts { (1 ≤ conflicts) × (conflicts ≤ 1000000) }
    requires scores { length scores.now ≡ cnf.now.vars }
    ensures solved { IfOk result (λ verdict. IfSat verdict (IsSolved cnf.now)) }
    ensures refuted { IfOk result (λ verdict. IfRefuted verdict (IsRefuted cnf.now conflicts)) }
    ensures spent { IfOk result (λ verdict. IfSpent verdict (IsSpent cnf.now conflicts)) }
{
    let mut trail = Trail::new(alloc, cnf.vars())?;
    let mut watches = Watches::new(alloc, cnf.vars())?;
    let mut decider = Decider::new(alloc, pick, scores)?;
    let mut notes = Notes::new(alloc, cnf.vars(), pick == Pick::Activity)?;
    let mut restarts = Restarts::new();
    let mut seen = vec![in alloc; false; cnf.vars() as usize]?;
    let mut clauses = clauses_of(alloc, cnf)?;
    let mut lines = Items::new(alloc);
    for made in 0..conflicts {
        match search(&clauses, &mut decider, &mut trail, &mut watches)? {
            None => return Ok(Verdict::Sat(all_values(alloc, trail.values.as_slice())?)),
            Some(id) => {
                let restart = pick == Pick::Activity && restarts.is_due();
                let line = learn(
                    alloc,
                    &clauses,
                    &mut trail,
                    &mut seen,
                    &mut notes,
                    &mut decider,
                    id,
                    restart,
                )?;
                watches.qhead = watches.qhead.min(trail.steps.len());
                let refuted = line.lits.is_empty();
                clauses.push(line.lits.as_slice())?;
                lines.push(line)?;
                if refuted {
                    refutations_leave_no_solution();
                    return Ok(Verdict::Refuted(Lines { lines }));
                }
            }
        }
    }
    Ok(Verdict::Spent(Lines { lines }))
}

/// The formula's clauses, in a list to which lemmas are added.
fn clauses_of(alloc: Global, cnf: &Cnf) -> Result<Clauses, NoMemory>
    ensures same { IfOk result (λ clauses. clauses ≡ cnf.now.clauses) }
    ensures few { OnOk result (length cnf.now.clauses ≤ 2 ^ 30) }
{
    let mut clauses = Clauses::new(alloc);
    for index in 0..cnf.clauses() {
        clauses.push(cnf.clause(index + 1))?;
    }
    Ok(clauses)
}

/// Propagates and decides until a clause is false, whose id is the answer, or every variable has a value.
fn search(
    clauses: &Clauses,
    decider: &mut Decider,
    trail: &mut Trail,
    watches: &mut Watches,
) -> Result<Option<u32>, NoMemory>
    requires few { length clauses.now < 2 ^ 31 }
    requires few_vars { var_count trail.old < 2 ^ 29 }
    requires exist { AreOver (var_count trail.old) clauses.now }
    requires state { IsTrailState clauses.now (var_count trail.old) trail.old }
    requires before { AreClosedBefore clauses.now trail.old.steps.items }
    requires watched { AreWatched clauses.now (var_count trail.old) trail.old.steps.items watches.old }
    requires offers { Offers trail.old.values.items decider.old }
    ensures state { OnOk result (IsTrailState clauses.now (var_count trail.old) trail.new) }
    ensures before { OnOk result (AreClosedBefore clauses.now trail.new.steps.items) }
    ensures watched { OnOk result (AreWatched clauses.now (var_count trail.old) trail.new.steps.items watches.new) }
    ensures offers { OnOk result (Offers trail.new.values.items decider.new) }
    ensures pick { OnOk result (decider.new.pick ≡ decider.old.pick) }
    ensures scores { OnOk result (decider.new.scores ≡ decider.old.scores) }
    ensures done { IfOk result (λ o. MatchOption o
        (IsClosed (assignment_of trail.new.values.items) clauses.now × (free_list trail.new.values.items ≡ []))
        (IsFalsified (assignment_of trail.new.values.items) clauses.now)) }
{
    loop {
        if let Some(id) = propagate(clauses, trail, watches)? {
            return Ok(Some(id));
        }
        if !decider.decide(trail)? {
            return Ok(None);
        }
    }
}

/// The values, where all are there.
fn all_values(alloc: Global, values: &[Value]) -> Result<Items<bool>, NoMemory>
    ensures { IfOk result (λ all. all ≡ map (λ v. unwrap_or (truth_value v) false) values.now) }
{
    let mut all = Items::new(alloc);
    for value in values {
        all.push(value.as_option().unwrap_or(false))?;
    }
    Ok(all)
}
