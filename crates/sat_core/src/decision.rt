// Decisions: which free variable is next, and with which value.
ghost use Rattle.std.specs.Prelude.{◌≡◌, ◌≢◌, ℕ, ◌+◌, ◌-◌, ◌^◌, ◌<◌, ◌≤◌, [], List, length, take, OnOk, IfOk, MatchBool, slice_index, slice_set};
ghost use Rattle.std.specs.List.{All};
ghost use Rattle.pick_rule.specs.declared.pick.Pick.TheVariants.{First, Last, Busy, Activity};
ghost use Rattle.cnf_core.specs.declared.literal.Lit.{Lit as Literal};
ghost use Rattle.cnf_core.specs.Formula.{IsLitOf};
ghost use Rattle.cnf_core.specs.Refutation.{HaveDifferentVars};
ghost use Rattle.sat_core.specs.declared.trail.Value.{Value as Assigned};
ghost use Rattle.sat_core.specs.Notes.{AreVars};
ghost use Rattle.sat_core.specs.Steps.{assignment_of, var_count, IsTrailState};
ghost use Rattle.sat_core.specs.Picks.{free_list, has_var, next_score, IsDecidedBy, own_player, AreFixed, AreFreed, IsCounting, Offers};
ghost use Rattle.sat_core.specs.Tournament.{player_at};

use crate::tournament::Tournament;
use crate::trail::{Step, Trail};
use cnf_core::Lit;
use items::NoMemory;
use pick_rule::Pick;
use std::alloc::Global;

/// The first amount by which a conflict raises the activity of its variables.
const FIRST_RAISE: u64 = 1 << 16;
/// Beyond this amount all activities are scaled down.
const GREATEST_RAISE: u64 = 1 << 56;
/// The binary logarithm of the factor by which they are scaled down.
const SCALE: u32 = 40;
/// An activity decays by one part in so many with each conflict: what it is measured by grows instead.
const DECAY: u64 = 19;

/// What decisions go by.
#[derive(Drop)]
pub(crate) struct Decider {
    pub(crate) pick: Pick,
    /// The score of variable x at the place x - 1.
    pub(crate) scores: Vec<u64>,
    /// Each free variable plays, others may.
    pub(crate) tournament: Tournament,
    /// The value of variable x at the place x - 1: under `Activity` the last one that it had.
    pub(crate) phases: Vec<bool>,
    /// How much a conflict raises the activity of its variables.
    raise: u64,
}

/// The score with which a variable begins, by its place and the given one. `First` and `Last` find their variable by fixed
/// scores.
fn first_score(pick: Pick, place: usize, given: u64) -> u64
    ensures first { pick ≡ First → result ≡ 0 }
    ensures last { pick ≡ Last → result ≡ place }
    ensures busy { pick ≡ Busy → result ≡ given }
{
    match pick {
        Pick::First => 0,
        Pick::Last => place as u64,
        Pick::Busy => given,
        Pick::Activity => given.saturating_mul(FIRST_RAISE),
    }
}

/// The scores with which the search begins.
fn first_scores(alloc: Global, pick: Pick, given: &[u64]) -> Result<Vec<u64>, NoMemory>
    ensures size { IfOk result (λ scores. length scores.items ≡ length given.now) }
    ensures fixed { IfOk result (λ scores. AreFixed pick scores.items) }
    ensures busy { IfOk result (λ scores. pick ≡ Busy → scores.items ≡ given.now) }
{
    let mut scores = Vec::new(alloc);
    for place in 0..given.len() {
        scores.push(first_score(pick, place, given[place]))?;
    }
    Ok(scores)
}

impl Decider {
    pub(crate) fn new(alloc: Global, pick: Pick, given: &[u64]) -> Result<Decider, NoMemory>
        requires few { length given.now < 2 ^ 29 }
        ensures offers { IfOk result (λ d. (values : List Assigned) → length values ≡ length given.now → Offers values d) }
        ensures pick { IfOk result (λ d. d.pick ≡ pick) }
        ensures busy { IfOk result (λ d. pick ≡ Busy → d.scores.items ≡ given.now) }
    {
        let scores = first_scores(alloc, pick, given)?;
        let tournament = Tournament::new(alloc, &scores)?;
        let phases = vec![in alloc; false; given.len()]?;
        Ok(Decider {
            pick,
            scores,
            tournament,
            phases,
            raise: FIRST_RAISE,
        })
    }

    /// Gives a free variable its value, as a decision: the one that the strategy picks. Answers no where no variable is
    /// free.
    pub(crate) fn decide(&mut self, trail: &mut Trail) -> Result<bool, NoMemory>
        requires slots { length trail.old.indices.items ≡ var_count trail.old }
        requires offers { Offers trail.old.values.items self.old }
        ensures decided { IfOk result (λ more. MatchBool more
            (IsDecidedBy self.old.pick self.old.scores.items trail.old trail.new)
            ((free_list trail.old.values.items ≡ []) × (trail.new ≡ trail.old))) }
        ensures offers { OnOk result ((clauses : List (List Literal)) → IsTrailState clauses (var_count trail.old) trail.old
            → Offers trail.new.values.items self.new) }
        ensures pick { OnOk result (self.new.pick ≡ self.old.pick) }
        ensures scores { OnOk result (self.new.scores ≡ self.old.scores) }
    {
        while let Some(var) = self.tournament.best() {
            self.tournament.remove(var);
            if trail.is_free(var) {
                let lit = Lit {
                    var,
                    positive: self.phases[(var - 1) as usize],
                };
                trail.assign(Step { lit, reason: None })?;
                return Ok(true);
            }
        }
        Ok(false)
    }

    /// Offers the variable of a step that is taken back.
    fn offer(&mut self, lit: Lit)
        requires exist { IsLitOf (length self.old.scores.items) lit }
        requires players { length self.old.tournament ≡ length self.old.scores.items }
        requires phases { length self.old.phases.items ≡ length self.old.scores.items }
        ensures players { length self.new.tournament ≡ length self.old.tournament }
        ensures phases { length self.new.phases.items ≡ length self.old.phases.items }
        ensures pick { self.new.pick ≡ self.old.pick }
        ensures scores { self.new.scores ≡ self.old.scores }
        ensures offers { (values : List Assigned) → Offers values self.old → Offers values self.new }
        ensures plays { (values : List Assigned) → Offers values self.old
            → player_at self.new.tournament (lit.var - 1) ≡ own_player self.old.scores.items lit.var }
        ensures others { (k : ℕ) → k ≢ lit.var - 1
            → player_at self.new.tournament k ≡ player_at self.old.tournament k }
    {
        let place = (lit.var - 1) as usize;
        if self.pick == Pick::Activity {
            self.phases[place] = lit.positive;
        }
        if !self.tournament.plays(lit.var) {
            self.tournament.put(lit.var, self.scores[place]);
        }
    }

    /// Offers the variables of the steps from an index on.
    fn offer_all(&mut self, steps: &[Step], from: usize)
        requires exist { All (λ s. IsLitOf (length self.old.scores.items) s.lit) steps.now }
        requires players { length self.old.tournament ≡ length self.old.scores.items }
        requires phases { length self.old.phases.items ≡ length self.old.scores.items }
        ensures offers { (old new : List Assigned) → Offers old self.old → AreFreed steps.now from old new
            → Offers new self.new }
        ensures pick { self.new.pick ≡ self.old.pick }
        ensures scores { self.new.scores ≡ self.old.scores }
    {
        for index in from..steps.len() {
            self.offer(steps[index].lit);
        }
    }

    /// Takes all steps back but the first, as many as `count`, and offers their variables again.
    pub(crate) fn take_back(&mut self, trail: &mut Trail, count: usize)
        requires exist { All (λ s. IsLitOf (var_count trail.old) s.lit) trail.old.steps.items }
        requires offers { Offers trail.old.values.items self.old }
        ensures state { (clauses : List (List Literal)) → IsTrailState clauses (var_count trail.old) trail.old
            → IsTrailState clauses (var_count trail.old) trail.new }
        ensures steps { trail.new.steps.items ≡ take count trail.old.steps.items }
        ensures offers { (clauses : List (List Literal)) → IsTrailState clauses (var_count trail.old) trail.old
            → Offers trail.new.values.items self.new }
        ensures pick { self.new.pick ≡ self.old.pick }
        ensures scores { self.new.scores ≡ self.old.scores }
    {
        self.offer_all(&trail.steps, count);
        trail.backtrack(count);
    }

    /// Counts a conflict with its lemma and the variables that it met: `Busy` counts the lemma's variables, and `Activity`
    /// raises those that were met, by more at each conflict, which is as if the others decayed.
    pub(crate) fn count(&mut self, lemma: &[Lit], met: &[u32])
        requires exist { All (IsLitOf (length self.old.scores.items)) lemma.now }
        requires differ { HaveDifferentVars lemma.now }
        requires met { AreVars (length self.old.scores.items) met.now }
        requires few { length self.old.scores.items < 2 ^ 29 }
        requires players { length self.old.tournament ≡ length self.old.scores.items }
        ensures offers { (values : List Assigned) → Offers values self.old → Offers values self.new }
        ensures pick { self.new.pick ≡ self.old.pick }
        ensures size { length self.new.scores.items ≡ length self.old.scores.items }
        ensures busy { self.old.pick ≡ Busy → (x : ℕ) → 1 ≤ x → x ≤ length self.old.scores.items
            → slice_index self.new.scores.items (x - 1)
            ≡ next_score (has_var lemma.now x) (slice_index self.old.scores.items (x - 1)) }
    {
        match self.pick {
            Pick::First | Pick::Last => {}
            Pick::Busy => self.count_lemma(lemma),
            Pick::Activity => self.raise_activity(met),
        }
    }

    /// Counts one lemma more for each of its variables. A score that is at the end of its type stays.
    fn count_lemma(&mut self, lemma: &[Lit])
        requires exist { All (IsLitOf (length self.old.scores.items)) lemma.now }
        requires differ { HaveDifferentVars lemma.now }
        requires players { length self.old.tournament ≡ length self.old.scores.items }
        requires pick { self.old.pick ≡ Busy }
        ensures offers { (values : List Assigned) → Offers values self.old → Offers values self.new }
        ensures pick { self.new.pick ≡ self.old.pick }
        ensures size { length self.new.scores.items ≡ length self.old.scores.items }
        ensures counts { (x : ℕ) → 1 ≤ x → x ≤ length self.old.scores.items
            → slice_index self.new.scores.items (x - 1)
            ≡ next_score (has_var lemma.now x) (slice_index self.old.scores.items (x - 1)) }
    {
        for lit in lemma {
            let score = self.scores[(lit.var - 1) as usize];
            self.rescore(lit.var, score.saturating_add(1));
        }
    }

    fn raise_activity(&mut self, met: &[u32])
        requires met { AreVars (length self.old.scores.items) met.now }
        requires few { length self.old.scores.items < 2 ^ 29 }
        requires players { length self.old.tournament ≡ length self.old.scores.items }
        requires pick { self.old.pick ≡ Activity }
        ensures offers { (values : List Assigned) → Offers values self.old → Offers values self.new }
        ensures pick { self.new.pick ≡ self.old.pick }
        ensures size { length self.new.scores.items ≡ length self.old.scores.items }
    {
        for var in met {
            let score = self.scores[(*var - 1) as usize];
            self.rescore(*var, score.saturating_add(self.raise));
        }
        self.raise = self.raise.saturating_add(self.raise / DECAY);
        if self.raise > GREATEST_RAISE {
            self.scale_down();
        }
    }

    /// Divides all activities by one power of two, so that there is room above them.
    fn scale_down(&mut self)
        requires few { length self.old.scores.items < 2 ^ 29 }
        requires players { length self.old.tournament ≡ length self.old.scores.items }
        requires pick { self.old.pick ≡ Activity }
        ensures offers { (values : List Assigned) → Offers values self.old → Offers values self.new }
        ensures pick { self.new.pick ≡ self.old.pick }
        ensures size { length self.new.scores.items ≡ length self.old.scores.items }
    {
        self.raise >>= SCALE;
        for place in 0..self.scores.len() {
            let score = self.scores[place] >> SCALE;
            self.rescore(place as u32 + 1, score);
        }
    }

    /// Gives a variable another score.
    fn rescore(&mut self, var: u32, score: u64)
        requires above { 1 ≤ var }
        requires within { var ≤ length self.old.scores.items }
        requires players { length self.old.tournament ≡ length self.old.scores.items }
        ensures scores { self.new.scores.items ≡ slice_set self.old.scores.items (var - 1) score }
        ensures players { length self.new.tournament ≡ length self.old.tournament }
        ensures pick { self.new.pick ≡ self.old.pick }
        ensures offers { IsCounting self.old.pick → (values : List Assigned) → Offers values self.old
            → Offers values self.new }
    {
        self.scores[(var - 1) as usize] = score;
        if self.tournament.plays(var) {
            self.tournament.put(var, score);
        }
    }
}
