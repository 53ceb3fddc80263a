// The line of a conflict: the first unique implication point, and how far the trail is taken back.
ghost use Rattle.std.specs.Prelude.{◌≡◌, ◌≢◌, ◌⊎◌, ℕ, ◌+◌, ◌-◌, ◌^◌, ◌<◌, ◌≤◌, ◌↔◌, [], ◌∷◌, ◌++◌, List, Bool, Some, None, true, false, length, reverse, slice_set, IsTrue, OnOk, IfOk, MatchOption, slice_index};
ghost use Rattle.std.specs.List.{All, Contains, slice_index_or};
ghost use Rattle.sat_core.specs.declared.trail.Step.{Step as Taken};
ghost use Rattle.pick_rule.specs.declared.pick.Pick.TheVariants.{Busy};
ghost use Rattle.sat_core.specs.Notes.{AreNotes};
ghost use Rattle.sat_core.specs.Picks.{has_var, next_score, Offers};
ghost use Rattle.cnf_core.specs.declared.literal.Lit.{Lit as Literal};
ghost use Rattle.cnf_core.specs.Formula.{AreOver, IsLitOf};
ghost use Rattle.cnf_core.specs.Refutation.{clause_at, IsAccepted};
ghost use Rattle.sat_core.specs.Steps.{assignment_of, var_count, IsTrailState, AreClosedBefore};
ghost use Rattle.sat_core.specs.FalseClauses.{IsFalsified};
ghost use Rattle.sat_core.specs.Conflicts.{GoesOnWith};
ghost use Rattle.sat_core.specs.Walks.{is_marked, last_level_count, IsStepOf, MarksClause, IsLastDecision, IsDecisionOrEnd, IsKeptAt, IsTakenBack, KeepsStep, Resolves, IsWalked, LeadsBy, IsBackjump, IsSpareStep, IsImpliedStep, AddsNoStep, AddsNoLiteral, IsMinimalAt, AreNoMarks, trail_index, backjump_after, backjump_at_end};

use crate::decision::Decider;
use crate::notes::Notes;
use crate::trail::{Step, Trail};
use cnf_core::{Clauses, Line, Lit};
use items::{Items, NoMemory};
use std::alloc::Global;
use std::mem;

/// What is known of a conflict while the trail is walked back from its end.
#[derive(Drop)]
pub(crate) struct Analysis {
    /// Of each step, whether its literal is needed and not yet resolved or kept. No mark is left between conflicts.
    pub(crate) seen: Vec<bool>,
    /// How many steps of the current decision level are needed.
    at_last_level: usize,
    /// Where the current decision level begins: the trail index of the last decision, or the number of steps.
    pub(crate) last: usize,
    /// The literals of the lemma.
    lits: Vec<Lit>,
    /// The clauses that were resolved, the last first.
    hints: Vec<u32>,
    /// No step before this index is needed.
    pub(crate) lowest: usize,
    /// How many steps a backjump leaves: those before the first decision under which the lemma is unit already.
    backjump: usize,
}

/// The line of a conflict, whose false clause has this id. If its lemma isn't empty, the trail goes back to the first
/// decision before which the lemma is unit already, or, for a restart, to the first of all. No mark is set before and
/// after.
pub(crate) fn learn(
    alloc: Global,
    clauses: &Clauses,
    trail: &mut Trail,
    seen: &mut Vec<bool>,
    notes: &mut Notes,
    decider: &mut Decider,
    id: u32,
    restarts: bool,
) -> Result<Line, NoMemory>
    requires few { length clauses.now < 2 ^ 31 }
    requires exist { AreOver (var_count trail.old) clauses.now }
    requires state { IsTrailState clauses.now (var_count trail.old) trail.old }
    requires before { AreClosedBefore clauses.now trail.old.steps.items }
    requires falsified { IsFalsified (assignment_of trail.old.values.items) clauses.now id }
    requires unmarked { AreNoMarks (var_count trail.old) seen.old.items }
    requires notes { AreNotes (var_count trail.old) notes.old }
    requires offers { Offers trail.old.values.items decider.old }
    ensures shown { IfOk result (IsAccepted (record { vars = var_count trail.old; clauses = clauses.now }) []) }
    ensures size { OnOk result (var_count trail.new ≡ var_count trail.old) }
    ensures back { OnOk result (IsTakenBack trail.old.steps.items trail.new.steps.items) }
    ensures unmarked { OnOk result (AreNoMarks (var_count trail.old) seen.new.items) }
    ensures notes { OnOk result (AreNotes (var_count trail.old) notes.new) }
    ensures offers { OnOk result (Offers trail.new.values.items decider.new) }
    ensures pick { OnOk result (decider.new.pick ≡ decider.old.pick) }
    ensures busy { IfOk result (λ line. decider.old.pick ≡ Busy → (x : ℕ) → 1 ≤ x → x ≤ var_count trail.old
        → slice_index decider.new.scores.items (x - 1)
        ≡ next_score (has_var line.lits x) (slice_index decider.old.scores.items (x - 1))) }
    ensures goes_on { IfOk result (λ line. line.lits ≢ []
        → GoesOnWith clauses.now (var_count trail.old) line.lits trail.new) }
{
    let marks = mem::replace(seen, Vec::new(alloc));
    let analysis = analyze(alloc, clauses, trail, marks, notes, id, restarts)?;
    decider.take_back(trail, analysis.backjump);
    decider.count(&analysis.lits, &notes.met);
    *seen = analysis.seen;
    let mut hints = analysis.hints;
    hints.reverse();
    hints.push(id)?;
    Ok(Line {
        id: clauses.len() as u32 + 1,
        lits: Items::from(analysis.lits),
        hints: Items::from(hints),
    })
}

/// Walks the trail back to the first step that is needed.
fn analyze(
    alloc: Global,
    clauses: &Clauses,
    trail: &Trail,
    seen: Vec<bool>,
    notes: &mut Notes,
    id: u32,
    restarts: bool,
) -> Result<Analysis, NoMemory>
    requires few { length clauses.now < 2 ^ 31 }
    requires exist { AreOver (var_count trail.now) clauses.now }
    requires state { IsTrailState clauses.now (var_count trail.now) trail.now }
    requires before { AreClosedBefore clauses.now trail.now.steps.items }
    requires falsified { IsFalsified (assignment_of trail.now.values.items) clauses.now id }
    requires unmarked { AreNoMarks (var_count trail.now) seen.items }
    requires notes { AreNotes (var_count trail.now) notes.old }
    ensures notes { OnOk result (AreNotes (var_count trail.now) notes.new) }
    ensures last { IfOk result (λ a. IsLastDecision trail.now.steps.items a.last) }
    ensures walked { IfOk result (IsWalked clauses.now (var_count trail.now) trail.now.steps.items 0) }
    ensures leads { IfOk result (λ a. LeadsBy clauses.now trail.now.steps.items 0 a (clause_at clauses.now id)) }
    ensures stays { IfOk result (λ a. IsBackjump trail.now.steps.items 0 a.backjump a.lits.items) }
    ensures back { IfOk result (λ a. IsDecisionOrEnd trail.now.steps.items a.backjump) }
{
    let count = trail.steps.len();
    let first = trail.first_decision();
    notes.clear();
    let mut analysis = start(alloc, clauses, trail, seen, id);
    let mut index = count;
    while analysis.lowest < index {
        index -= 1;
        analysis.resolve_or_keep(clauses, trail, index, first, notes)?;
        analysis.set_backjump(trail.steps[index], index);
    }
    analysis.end(first, restarts);
    Ok(analysis)
}

/// What is known at the end of the trail: the steps of the false clause's literals are needed.
fn start(alloc: Global, clauses: &Clauses, trail: &Trail, mut seen: Vec<bool>, id: u32) -> Analysis
    requires exist { AreOver (var_count trail.now) clauses.now }
    requires state { IsTrailState clauses.now (var_count trail.now) trail.now }
    requires before { AreClosedBefore clauses.now trail.now.steps.items }
    requires falsified { IsFalsified (assignment_of trail.now.values.items) clauses.now id }
    requires unmarked { AreNoMarks (var_count trail.now) seen.items }
    ensures last { IsLastDecision trail.now.steps.items result.last }
    ensures walked { IsWalked clauses.now (var_count trail.now) trail.now.steps.items
        (length trail.now.steps.items) result }
    ensures leads { LeadsBy clauses.now trail.now.steps.items (length trail.now.steps.items) result
        (clause_at clauses.now id) }
    ensures stays { result.backjump ≡ length trail.now.steps.items }
{
    let count = trail.steps.len();
    let last = trail.last_decision();
    let clause = clauses.get((id - 1) as usize);
    let at_last_level = mark_clause(clause, &trail.indices, last, seen.as_mut_slice());
    let lowest = lowest_index(clause, &trail.indices, count);
    Analysis {
        seen,
        at_last_level,
        last,
        lowest,
        lits: Vec::new(alloc),
        hints: Vec::new(alloc),
        backjump: count,
    }
}

/// Marks the steps of a clause's literals, and counts those of the last level that weren't marked before.
fn mark_clause(clause: &[Lit], indices: &[usize], last: usize, seen: &mut [bool]) -> usize
    requires steps { All (IsStepOf indices.now (length seen.old)) clause.now }
    ensures needs { MarksClause indices.now clause.now clause.now last seen.old seen.new result }
{
    let mut added = 0;
    for lit in clause {
        let index = indices[(lit.var - 1) as usize];
        if last <= index && !seen[index] {
            added += 1;
        }
        seen[index] = true;
    }
    added
}

/// The trail index of the first step of a clause's literals, or the given one where that is before it.
fn lowest_index(clause: &[Lit], indices: &[usize], most: usize) -> usize
    requires exist { All (IsLitOf (length indices.now)) clause.now }
    ensures most { result ≤ most }
    ensures each { All (λ l. result ≤ trail_index indices.now l) clause.now }
    ensures reached { (result ≡ most)
        ⊎ ((l : Literal) × Contains clause.now l × (result ≡ trail_index indices.now l)) }
{
    let mut lowest = most;
    for lit in clause {
        lowest = lowest.min(indices[(lit.var - 1) as usize]);
    }
    lowest
}

/// Takes the mark of a step: 1 where it is of the last level.
fn unmark(seen: &mut [bool], index: usize, last: usize) -> usize
    requires within { index < length seen.old }
    requires marked { is_marked seen.old index ≡ true }
    ensures marks { seen.new ≡ slice_set seen.old index false }
    ensures count { last_level_count last seen.old ≡ last_level_count last seen.new + result }
{
    seen[index] = false;
    if last <= index {
        return 1;
    }
    0
}

impl Analysis {
    /// Resolves or keeps the step where it is needed.
    fn resolve_or_keep(
        &mut self,
        clauses: &Clauses,
        trail: &Trail,
        index: usize,
        first: usize,
        notes: &mut Notes,
    ) -> Result<(), NoMemory>
        requires few { length clauses.now < 2 ^ 31 }
        requires exist { AreOver (var_count trail.now) clauses.now }
        requires state { IsTrailState clauses.now (var_count trail.now) trail.now }
        requires first { IsDecisionOrEnd trail.now.steps.items first }
        requires last { IsLastDecision trail.now.steps.items self.old.last }
        requires within { index < length trail.now.steps.items }
        requires walked { IsWalked clauses.now (var_count trail.now) trail.now.steps.items (index + 1) self.old }
        requires notes { AreNotes (var_count trail.now) notes.old }
        ensures notes { OnOk result (AreNotes (var_count trail.now) notes.new) }
        ensures whole { OnOk result (notes.new.whole ≡ notes.old.whole) }
        ensures last { OnOk result (self.new.last ≡ self.old.last) }
        ensures backjump { OnOk result (self.new.backjump ≡ self.old.backjump) }
        ensures grows { OnOk result ((more : List Literal) × (self.new.lits.items ≡ self.old.lits.items ++ more)) }
        ensures minimal { notes.old.whole ≡ false → OnOk result (IsMinimalAt clauses.now trail.now.steps.items trail.now.indices.items
            first index self.old self.new) }
        ensures walked { OnOk result (IsWalked clauses.now (var_count trail.now) trail.now.steps.items index self.new) }
        ensures leads { OnOk result ((conflict : List Literal)
            → LeadsBy clauses.now trail.now.steps.items (index + 1) self.old conflict
            → LeadsBy clauses.now trail.now.steps.items index self.new conflict) }
    {
        if !self.seen[index] {
            return Ok(());
        }
        let step = trail.steps[index];
        let spare = notes.is_spare(clauses, trail, self, index, first)?;
        notes.meet(step.lit.var, spare)?;
        match self.resolvent(step, index, first, spare) {
            Some(id) => self.resolve(clauses, trail, id, index),
            None => self.keep(step.lit, index),
        }
    }

    /// Whether a step of an earlier level is implied by its reason, where the literals of the reason that aren't needed
    /// yet are implied by needed ones in turn: then the lemma follows without the step's literal too. The time grows
    /// with the sum of the lengths of the reasons of the reason's literals.
    pub(crate) fn is_redundant(
        &self,
        clauses: &Clauses,
        trail: &Trail,
        index: usize,
        first: usize,
    ) -> bool
        requires exist { AreOver (var_count trail.now) clauses.now }
        requires state { IsTrailState clauses.now (var_count trail.now) trail.now }
        requires within { index < length trail.now.steps.items }
        requires size { length trail.now.steps.items ≤ length self.now.seen.items }
        ensures { IsTrue result ↔ IsSpareStep clauses.now trail.now.steps.items trail.now.indices.items
            first index self.now }
    {
        if self.last <= index {
            return false;
        }
        match trail.steps[index].reason {
            None => false,
            Some(id) => {
                let clause = clauses.get((id - 1) as usize);
                self.are_implied(clauses, trail, clause, index, first)
            }
        }
    }

    /// Whether each literal's step is the one at an index, or needed, or before the first decision, or implied by such.
    fn are_implied(
        &self,
        clauses: &Clauses,
        trail: &Trail,
        clause: &[Lit],
        index: usize,
        first: usize,
    ) -> bool
        requires exist { AreOver (var_count trail.now) clauses.now }
        requires state { IsTrailState clauses.now (var_count trail.now) trail.now }
        requires size { length trail.now.steps.items ≤ length self.now.seen.items }
        requires steps { All (IsStepOf trail.now.indices.items (length trail.now.steps.items)) clause.now }
        ensures { IsTrue result ↔ All (AddsNoLiteral clauses.now trail.now.steps.items trail.now.indices.items
            self.now.seen.items first index) clause.now }
    {
        for lit in clause {
            let other = trail.indices[(lit.var - 1) as usize];
            if other != index
                && first <= other
                && !self.seen[other]
                && !self.is_implied(clauses, trail, other, first)
            {
                return false;
            }
        }
        true
    }

    /// Whether a step has a reason all other literals of which are needed, or of steps before any decision.
    fn is_implied(&self, clauses: &Clauses, trail: &Trail, index: usize, first: usize) -> bool
        requires exist { AreOver (var_count trail.now) clauses.now }
        requires state { IsTrailState clauses.now (var_count trail.now) trail.now }
        requires within { index < length trail.now.steps.items }
        requires size { length trail.now.steps.items ≤ length self.now.seen.items }
        ensures { IsTrue result ↔ IsImpliedStep clauses.now trail.now.steps.items trail.now.indices.items
            self.now.seen.items first index }
    {
        match trail.steps[index].reason {
            None => false,
            Some(id) => {
                let clause = clauses.get((id - 1) as usize);
                self.are_seen(clause, &trail.indices, index, first)
            }
        }
    }

    /// Whether each literal's step is the one at an index, or needed, or before the first decision.
    fn are_seen(&self, clause: &[Lit], indices: &[usize], index: usize, first: usize) -> bool
        requires steps { All (IsStepOf indices.now (length self.now.seen.items)) clause.now }
        ensures { IsTrue result ↔ All (AddsNoStep indices.now self.now.seen.items first index) clause.now }
    {
        for lit in clause {
            let other = indices[(lit.var - 1) as usize];
            if other != index && first <= other && !self.seen[other] {
                return false;
            }
        }
        true
    }

    /// The clause with which a needed step is resolved, or none where its literal is kept. Kept are the last needed
    /// step of the current level, and those needed steps of earlier levels that are neither spare nor before every
    /// decision.
    fn resolvent(&self, step: Step, index: usize, first: usize, spare: bool) -> Option<u32>
        ensures { MatchOption result
            ((step.reason ≡ None) ⊎ IsKeptAt first self.now.last self.now.at_last_level index spare)
            (λ id. (step.reason ≡ Some id)
            × (IsKeptAt first self.now.last self.now.at_last_level index spare → ⊥)) }
    {
        let keeps = if self.last <= index {
            self.at_last_level == 1
        } else {
            first <= index && !spare
        };
        if keeps { None } else { step.reason }
    }

    fn resolve(
        &mut self,
        clauses: &Clauses,
        trail: &Trail,
        id: u32,
        index: usize,
    ) -> Result<(), NoMemory>
        requires low { 1 ≤ id }
        requires high { id ≤ length clauses.now }
        requires steps { All (IsStepOf trail.now.indices.items (length self.old.seen.items))
            (clause_at clauses.now id) }
        requires within { index < length self.old.seen.items }
        requires marked { is_marked self.old.seen.items index ≡ true }
        requires at_last_level { self.old.at_last_level ≡ last_level_count self.old.last self.old.seen.items }
        ensures { OnOk result (Resolves clauses.now trail.now.indices.items id index self.old self.new) }
    {
        let clause = clauses.get((id - 1) as usize);
        let added = mark_clause(clause, &trail.indices, self.last, self.seen.as_mut_slice());
        self.lowest = lowest_index(clause, &trail.indices, self.lowest);
        self.hints.push(id)?;
        let done = unmark(self.seen.as_mut_slice(), index, self.last);
        self.at_last_level = self.at_last_level + added - done;
        Ok(())
    }

    fn keep(&mut self, lit: Lit, index: usize) -> Result<(), NoMemory>
        requires within { index < length self.old.seen.items }
        requires marked { is_marked self.old.seen.items index ≡ true }
        requires at_last_level { self.old.at_last_level ≡ last_level_count self.old.last self.old.seen.items }
        ensures { OnOk result (KeepsStep index lit self.old self.new) }
    {
        self.lits.push(lit.negated())?;
        let done = unmark(self.seen.as_mut_slice(), index, self.last);
        self.at_last_level -= done;
        Ok(())
    }

    /// The end of the walk: a lemma of one literal, and an empty one, is unit before the first decision, and a restart takes
    /// all decisions back.
    fn end(&mut self, first: usize, restarts: bool)
        ensures { self.new ≡ record self.old
            { backjump = backjump_at_end first restarts (length self.old.lits.items) self.old.backjump } }
    {
        if restarts || self.lits.len() <= 1 {
            self.backjump = first;
        }
    }

    /// Where the step is a decision before which the lemma is unit, all from it on is to be taken back.
    fn set_backjump(&mut self, step: Step, index: usize)
        ensures { self.new ≡ record self.old
            { backjump = backjump_after step (length self.old.lits.items) index self.old.backjump } }
    {
        if step.reason.is_none() && self.lits.len() <= 1 {
            self.backjump = index;
        }
    }
}
