// The literals that were made true, in order, and the value of each variable.
ghost use Rattle.std.specs.Prelude.{◌≡◌, ◌≢◌, ℕ, ◌<◌, ◌≤◌, ◌↔◌, [], ◌∷◌, ◌++◌, List, length, IsTrue, take, OnOk, IfOk, Some, None, slice_set, MatchOption};
ghost use Rattle.std.specs.List.{All, slice_index_or};
ghost use Rattle.sat_core.specs.declared.trail.Step.{Step as Taken};
ghost use Rattle.cnf_core.specs.declared.literal.Lit.{Lit as Literal};
ghost use Rattle.cnf_core.specs.Formula.{IsLitOf};
ghost use Rattle.cnf_core.specs.Values.{IsHeld, IsFalse};
ghost use Rattle.sat_core.specs.Steps.{truth_value, is_unassigned, assignment_of, with_decision, decision_indices, IsTrailState, IsRightStep, var_count};
ghost use Rattle.sat_core.specs.Walks.{IsLastDecision, IsDecisionOrEnd};
ghost use Rattle.sat_core.specs.Watches.{IsFalseFrom};

use cnf_core::{Lit, Values};
use items::NoMemory;
use std::alloc::Global;

/// The value of a variable, in one byte.
#[derive(Clone, Copy)]
pub(crate) enum Value {
    Unassigned,
    False,
    True,
}

impl Value {
    /// The value of a variable under which a literal of this sign is true.
    pub(crate) fn of(positive: bool) -> Value
        ensures { truth_value result ≡ Some positive }
    {
        if positive { Value::True } else { Value::False }
    }

    /// Whether a literal of this sign is true.
    pub(crate) fn makes_true(self, positive: bool) -> bool
        ensures { IsTrue result ↔ (truth_value self ≡ Some positive) }
    {
        self as u8 == 1 + positive as u8
    }

    pub(crate) fn as_option(self) -> Option<bool>
        ensures { result ≡ truth_value self }
    {
        match self {
            Value::Unassigned => None,
            Value::False => Some(false),
            Value::True => Some(true),
        }
    }
}

/// A literal that was made true by the clause or lemma with this id, or by decision where there is none.
#[derive(Clone, Copy)]
pub(crate) struct Step {
    pub(crate) lit: Lit,
    pub(crate) reason: Option<u32>,
}

/// The steps so far, the value of each variable, and the trail index of its step, which stays when the step is taken
/// back.
#[derive(Drop)]
pub(crate) struct Trail {
    pub(crate) steps: Vec<Step>,
    pub(crate) values: Vec<Value>,
    pub(crate) indices: Vec<usize>,
    /// The trail indices of the decisions, rising: where each decision level begins.
    pub(crate) decisions: Vec<usize>,
}

impl Values for Trail {
    ghost last = { λ trail. length trail.values.items };

    ghost partial = { λ trail. assignment_of trail.values.items };

    #[tactic(auto, unfolding(crate::specs::Steps::assignment_of))]
    fn value(&self, var: u32) -> Option<bool> {
        self.values[(var - 1) as usize].as_option()
    }
}

impl Trail {
    /// No step, over this many variables.
    pub(crate) fn new(alloc: Global, vars: u32) -> Result<Trail, NoMemory>
        ensures state { IfOk result (λ trail. (clauses : List (List Literal)) → IsTrailState clauses vars trail) }
        ensures none { IfOk result (λ trail. trail.steps.items ≡ []) }
    {
        let values = vec![in alloc; Value::Unassigned; vars as usize]?;
        let indices = vec![in alloc; 0usize; vars as usize]?;
        Ok(Trail {
            steps: Vec::new(alloc),
            values,
            indices,
            decisions: Vec::new(alloc),
        })
    }

    /// Whether a literal is true.
    #[tactic(auto, unfolding(crate::specs::Steps::assignment_of))]
    pub(crate) fn is_true(&self, lit: Lit) -> bool
        requires exist { IsLitOf (var_count self.now) lit }
        ensures { IsTrue result ↔ IsHeld (assignment_of self.now.values.items) lit }
    {
        self.values[(lit.var - 1) as usize].makes_true(lit.positive)
    }

    /// Whether a variable has no value.
    #[tactic(auto, unfolding(crate::specs::Steps::assignment_of))]
    pub(crate) fn is_free(&self, var: u32) -> bool
        requires above { 1 ≤ var }
        requires within { var ≤ var_count self.now }
        ensures { IsTrue result ↔ (assignment_of self.now.values.items var ≡ None) }
    {
        self.values[(var - 1) as usize].as_option().is_none()
    }

    /// Whether a literal is false.
    #[tactic(auto, unfolding(crate::specs::Steps::assignment_of))]
    pub(crate) fn is_false(&self, lit: Lit) -> bool
        requires exist { IsLitOf (var_count self.now) lit }
        ensures { IsTrue result ↔ IsFalse (assignment_of self.now.values.items) lit }
    {
        self.values[(lit.var - 1) as usize].makes_true(!lit.positive)
    }

    /// How many steps there are before the one that made a literal false, or all of them where it isn't false.
    pub(crate) fn false_from(&self, lit: Lit) -> usize
        requires exist { IsLitOf (var_count self.now) lit }
        requires slots { length self.now.indices.items ≡ var_count self.now }
        ensures { (clauses : List (List Literal)) → IsTrailState clauses (var_count self.now) self.now
            → IsFalseFrom self.now.steps.items lit result }
    {
        if self.is_false(lit) {
            self.indices[(lit.var - 1) as usize]
        } else {
            self.steps.len()
        }
    }

    /// The trail index of the first decision, or the number of steps.
    pub(crate) fn first_decision(&self) -> usize
        requires decided { self.now.decisions.items ≡ decision_indices self.now.steps.items }
        ensures decides { IsDecisionOrEnd self.now.steps.items result }
        ensures before { (k : ℕ) (d : Taken) → k < result
            → (slice_index_or self.now.steps.items k d).reason ≢ None }
    {
        if self.decisions.is_empty() {
            self.steps.len()
        } else {
            self.decisions[0]
        }
    }

    /// The trail index of the last decision, or the number of steps.
    pub(crate) fn last_decision(&self) -> usize
        requires decided { self.now.decisions.items ≡ decision_indices self.now.steps.items }
        ensures { IsLastDecision self.now.steps.items result }
    {
        let count = self.decisions.len();
        if count == 0 {
            self.steps.len()
        } else {
            self.decisions[count - 1]
        }
    }

    /// Makes a free literal true.
    pub(crate) fn assign(&mut self, step: Step) -> Result<(), NoMemory>
        requires exist { IsLitOf (var_count self.old) step.lit }
        requires slots { length self.old.indices.items ≡ var_count self.old }
        ensures state { OnOk result ((clauses : List (List Literal))
            → IsTrailState clauses (var_count self.old) self.old → IsRightStep clauses self.old.steps.items step
            → IsTrailState clauses (var_count self.old) self.new) }
        ensures steps { OnOk result (self.new.steps.items ≡ self.old.steps.items ++ step ∷ []) }
    {
        let place = self.steps.len();
        self.steps.push(step)?;
        let index = (step.lit.var - 1) as usize;
        self.values[index] = Value::of(step.lit.positive);
        self.indices[index] = place;
        if step.reason.is_none() {
            self.decisions.push(place)?;
        }
        Ok(())
    }

    /// Takes all steps back but the first, as many as `count`.
    pub(crate) fn backtrack(&mut self, count: usize)
        requires exist { All (λ s. IsLitOf (var_count self.old) s.lit) self.old.steps.items }
        ensures state { (clauses : List (List Literal)) → IsTrailState clauses (var_count self.old) self.old
            → IsTrailState clauses (var_count self.old) self.new }
        ensures steps { self.new.steps.items ≡ take count self.old.steps.items }
    {
        while self.steps.len() > count {
            if let Some(step) = self.steps.pop() {
                self.values[(step.lit.var - 1) as usize] = Value::Unassigned;
                if step.reason.is_none() {
                    self.decisions.pop();
                }
            }
        }
    }
}
