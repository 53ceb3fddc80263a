// What is noted of steps in one conflict: which were met, and which are implied by needed ones (Sörensson and Biere,
// Minimizing Learned Clauses, 2009).
ghost use Rattle.std.specs.Prelude.{◌≡◌, ℕ, ◌^◌, ◌<◌, ◌≤◌, ◌↔◌, [], List, length, IsTrue, IfOk, OnOk, MatchOption, false};
ghost use Rattle.std.specs.List.{All};
ghost use Rattle.cnf_core.specs.Formula.{AreOver};
ghost use Rattle.sat_core.specs.Steps.{var_count, IsTrailState};
ghost use Rattle.sat_core.specs.Walks.{IsStepOf, IsSpareStep};
ghost use Rattle.sat_core.specs.Notes.{AreNotes, AreFrames};

use crate::conflict::Analysis;
use crate::trail::Trail;
use cnf_core::{Clauses, Lit};
use items::NoMemory;
use std::alloc::Global;

/// What was found of a step.
#[derive(Clone, Copy, PartialEq, Eq)]
pub(crate) enum Finding {
    Unknown,
    Implied,
    NotImplied,
}

/// A step whose reason is looked through, and the place in it of the literal that comes next.
#[derive(Clone, Copy)]
pub(crate) struct Frame {
    pub(crate) index: usize,
    pub(crate) place: usize,
}

/// How many looks at steps one search for what implies a step may take; after them it counts as not implied.
const MOST_LOOKS: u32 = 100_000;

/// What is noted of steps in one conflict. Its memory serves for all conflicts.
#[derive(Drop)]
pub(crate) struct Notes {
    /// Whether a step may be implied through any number of reasons, or through no more than two.
    pub(crate) whole: bool,
    /// What was found of each step, by its trail index.
    pub(crate) findings: Vec<Finding>,
    /// The steps of which something was found.
    pub(crate) found: Vec<usize>,
    /// The steps that are looked through, each for the one before it.
    stack: Vec<Frame>,
    /// The variables of the steps that were kept, or resolved at the last level.
    pub(crate) met: Vec<u32>,
}

impl Notes {
    pub(crate) fn new(alloc: Global, vars: u32, whole: bool) -> Result<Notes, NoMemory>
        ensures notes { IfOk result (AreNotes vars) }
        ensures whole { IfOk result (λ notes. notes.whole ≡ whole) }
    {
        let findings = vec![in alloc; Finding::Unknown; vars as usize]?;
        Ok(Notes {
            whole,
            findings,
            found: Vec::new(alloc),
            stack: Vec::new(alloc),
            met: Vec::new(alloc),
        })
    }

    /// Forgets what was noted.
    pub(crate) fn clear(&mut self)
        requires { AreNotes (length self.old.findings.items) self.old }
        ensures notes { AreNotes (length self.old.findings.items) self.new }
        ensures whole { self.new.whole ≡ self.old.whole }
        ensures met { self.new.met.items ≡ [] }
    {
        self.met.clear();
        while let Some(index) = self.found.pop() {
            self.findings[index] = Finding::Unknown;
        }
    }

    /// Notes the variable of a step that was met, unless it is spare.
    pub(crate) fn meet(&mut self, var: u32, spare: bool) -> Result<(), NoMemory>
        requires above { 1 ≤ var }
        requires within { var ≤ length self.old.findings.items }
        requires notes { AreNotes (length self.old.findings.items) self.old }
        ensures notes { OnOk result (AreNotes (length self.old.findings.items) self.new) }
        ensures whole { OnOk result (self.new.whole ≡ self.old.whole) }
    {
        if !spare {
            self.met.push(var)?;
        }
        Ok(())
    }

    /// Whether a needed step of an earlier level is implied by other needed steps and by those before the first decision:
    /// then the lemma follows without its literal. In the whole implication graph each step is looked through once in a
    /// conflict, so the time grows with the sum of the lengths of the reasons of all of them.
    pub(crate) fn is_spare(
        &mut self,
        clauses: &Clauses,
        trail: &Trail,
        analysis: &Analysis,
        index: usize,
        first: usize,
    ) -> Result<bool, NoMemory>
        requires exist { AreOver (var_count trail.now) clauses.now }
        requires state { IsTrailState clauses.now (var_count trail.now) trail.now }
        requires within { index < length trail.now.steps.items }
        requires size { length trail.now.steps.items ≤ length analysis.now.seen.items }
        requires notes { AreNotes (var_count trail.now) self.old }
        ensures notes { OnOk result (AreNotes (var_count trail.now) self.new) }
        ensures whole { OnOk result (self.new.whole ≡ self.old.whole) }
        ensures spare { self.old.whole ≡ false → IfOk result (λ spare. IsTrue spare ↔ IsSpareStep clauses.now
            trail.now.steps.items trail.now.indices.items first index analysis.now) }
    {
        if !self.whole {
            return Ok(analysis.is_redundant(clauses, trail, index, first));
        }
        if analysis.last <= index {
            return Ok(false);
        }
        self.is_implied(clauses, trail, analysis, index, first)
    }

    /// The same, through any number of reasons.
    fn is_implied(
        &mut self,
        clauses: &Clauses,
        trail: &Trail,
        analysis: &Analysis,
        index: usize,
        first: usize,
    ) -> Result<bool, NoMemory>
        requires exist { AreOver (var_count trail.now) clauses.now }
        requires state { IsTrailState clauses.now (var_count trail.now) trail.now }
        requires within { index < length trail.now.steps.items }
        requires size { length trail.now.steps.items ≤ length analysis.now.seen.items }
        requires notes { AreNotes (var_count trail.now) self.old }
        ensures notes { OnOk result (AreNotes (var_count trail.now) self.new) }
        ensures whole { OnOk result (self.new.whole ≡ self.old.whole) }
    {
        match self.findings[index] {
            Finding::Implied => return Ok(true),
            Finding::NotImplied => return Ok(false),
            Finding::Unknown => {}
        }
        self.stack.clear();
        self.stack.push(Frame { index, place: 0 })?;
        for _ in 0..MOST_LOOKS {
            let Some(frame) = self.stack.pop() else {
                return Ok(true);
            };
            if !self.look(clauses, trail, analysis, frame, first)? {
                break;
            }
        }
        self.give_up()?;
        Ok(false)
    }

    /// Looks through the reason of a step from a place on, as far as what is known implies its literals. Answers no where
    /// one isn't implied.
    fn look(
        &mut self,
        clauses: &Clauses,
        trail: &Trail,
        analysis: &Analysis,
        frame: Frame,
        first: usize,
    ) -> Result<bool, NoMemory>
        requires exist { AreOver (var_count trail.now) clauses.now }
        requires state { IsTrailState clauses.now (var_count trail.now) trail.now }
        requires within { frame.index < length trail.now.steps.items }
        requires size { length trail.now.steps.items ≤ length analysis.now.seen.items }
        requires notes { AreNotes (var_count trail.now) self.old }
        requires frames { AreFrames (length trail.now.steps.items) self.old.stack.items }
        ensures notes { OnOk result (AreNotes (var_count trail.now) self.new) }
        ensures frames { OnOk result (AreFrames (length trail.now.steps.items) self.new.stack.items) }
        ensures whole { OnOk result (self.new.whole ≡ self.old.whole) }
    {
        let Some(id) = trail.steps[frame.index].reason else {
            self.note(frame.index, Finding::NotImplied)?;
            return Ok(false);
        };
        let clause = clauses.get((id - 1) as usize);
        let Some(next) = self.next_open(clause, trail, analysis, frame, first) else {
            self.note(frame.index, Finding::Implied)?;
            return Ok(true);
        };
        self.stack.push(Frame {
            index: frame.index,
            place: next.place + 1,
        })?;
        self.stack.push(Frame {
            index: next.index,
            place: 0,
        })?;
        Ok(analysis.lowest <= next.index && self.findings[next.index] != Finding::NotImplied)
    }

    /// The first literal of a step's reason, from a place on, of whose step it isn't known that it is implied: that step,
    /// and the literal's place.
    fn next_open(
        &self,
        clause: &[Lit],
        trail: &Trail,
        analysis: &Analysis,
        frame: Frame,
        first: usize,
    ) -> Option<Frame>
        requires steps { All (IsStepOf trail.now.indices.items (length trail.now.steps.items)) clause.now }
        requires size { length trail.now.steps.items ≤ length analysis.now.seen.items }
        requires room { length trail.now.steps.items ≤ length self.now.findings.items }
        ensures { MatchOption result (Unit {0}) (λ next. (next.index < length trail.now.steps.items)
            × (next.place < length clause.now)) }
    {
        for place in frame.place..clause.len() {
            let index = trail.indices[(clause[place].var - 1) as usize];
            let implied = index < first
                || index == frame.index
                || analysis.seen[index]
                || self.findings[index] == Finding::Implied;
            if !implied {
                return Some(Frame { index, place });
            }
        }
        None
    }

    /// Notes of all steps that are looked through that they aren't implied.
    fn give_up(&mut self) -> Result<(), NoMemory>
        requires notes { AreNotes (length self.old.findings.items) self.old }
        requires frames { AreFrames (length self.old.findings.items) self.old.stack.items }
        ensures notes { OnOk result (AreNotes (length self.old.findings.items) self.new) }
        ensures whole { OnOk result (self.new.whole ≡ self.old.whole) }
    {
        while let Some(frame) = self.stack.pop() {
            self.note(frame.index, Finding::NotImplied)?;
        }
        Ok(())
    }

    fn note(&mut self, index: usize, finding: Finding) -> Result<(), NoMemory>
        requires within { index < length self.old.findings.items }
        ensures notes { OnOk result (AreNotes (length self.old.findings.items) self.old
            → AreNotes (length self.old.findings.items) self.new) }
        ensures whole { OnOk result (self.new.whole ≡ self.old.whole) }
        ensures stack { OnOk result (self.new.stack ≡ self.old.stack) }
    {
        self.findings[index] = finding;
        self.found.push(index)?;
        Ok(())
    }
}
