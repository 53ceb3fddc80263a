// Unit propagation by two watched literals.
ghost use Rattle.std.specs.Prelude.{◌≡◌, ◌≢◌, ◌⊎◌, ◌+◌, ◌^◌, ◌<◌, ◌≤◌, [], length, OnOk, IfOk, MatchOption, None, slice_index_or};
ghost use Rattle.std.specs.List.{All, AllWithin, Contains};
ghost use Rattle.cnf_core.specs.Formula.{AreOver, IsLitOf};
ghost use Rattle.cnf_core.specs.Values.{IsClosed, IsOpenClause, IsHeld, IsFalse};
ghost use Rattle.sat_core.specs.Steps.{assignment_of, var_count, IsTrailState, Propagates, AreClosedBefore};
ghost use Rattle.sat_core.specs.FalseClauses.{IsFalsified};
ghost use Rattle.sat_core.specs.Watches.{list_of, watchers, AreWatched, ArePassed, IsFalsifiedAt, IsPassedOver, IsFirstWithin, IsNextReplacement, VisitSays, SettleSays, AreVisited};

use crate::choice::watched_pair;
use crate::trail::{Step, Trail};
use crate::watches::{Packed, Pair, Watches, list_place};
use cnf_core::{ClauseStatus, Clauses, Lit, status_of};
use items::NoMemory;

/// Result of a visit to one watcher.
#[derive(Clone, Copy)]
pub(crate) enum Visit {
    /// It is still there: its clause has a true literal.
    Stays,
    /// Its clause watches another literal, and another watcher may be there.
    Moved,
    /// The clause with this id is false.
    Falsified(u32),
}

/// Unit propagation: makes literals true, each by a clause that is unit under those before it, until no clause is unit,
/// or a clause is false, whose id is the answer. Each new clause is visited once, and after it only the clauses that
/// watch a literal that became false.
pub(crate) fn propagate(
    clauses: &Clauses,
    trail: &mut Trail,
    watches: &mut Watches,
) -> Result<Option<u32>, NoMemory>
    requires few { length clauses.now < 2 ^ 31 }
    requires exist { AreOver (var_count trail.old) clauses.now }
    requires state { IsTrailState clauses.now (var_count trail.old) trail.old }
    requires before { AreClosedBefore clauses.now trail.old.steps.items }
    requires watched { AreWatched clauses.now (var_count trail.old) trail.old.steps.items watches.old }
    ensures state { OnOk result (IsTrailState clauses.now (var_count trail.old) trail.new) }
    ensures adds { OnOk result (Propagates trail.old.steps.items trail.new.steps.items) }
    ensures done { IfOk result (λ o. MatchOption o (IsClosed (assignment_of trail.new.values.items) clauses.now)
        (IsFalsified (assignment_of trail.new.values.items) clauses.now)) }
    ensures watched { OnOk result (AreWatched clauses.now (var_count trail.old) trail.new.steps.items watches.new) }
    ensures visited { IfOk result (λ o. o ≡ None → AreVisited clauses.now trail.new.steps.items watches.new) }
{
    if let Some(id) = attach_new(clauses, trail, watches)? {
        return Ok(Some(id));
    }
    while watches.qhead < trail.steps.len() {
        if let Some(id) = visit_list(clauses, trail, watches)? {
            return Ok(Some(id));
        }
    }
    Ok(None)
}

/// Gives each clause that wasn't visited its watched literals, and makes its literal true where it is unit.
fn attach_new(
    clauses: &Clauses,
    trail: &mut Trail,
    watches: &mut Watches,
) -> Result<Option<u32>, NoMemory>
    requires few { length clauses.now < 2 ^ 31 }
    requires exist { AreOver (var_count trail.old) clauses.now }
    requires state { IsTrailState clauses.now (var_count trail.old) trail.old }
    requires before { AreClosedBefore clauses.now trail.old.steps.items }
    requires watched { AreWatched clauses.now (var_count trail.old) trail.old.steps.items watches.old }
    ensures state { OnOk result (IsTrailState clauses.now (var_count trail.old) trail.new) }
    ensures adds { OnOk result (Propagates trail.old.steps.items trail.new.steps.items) }
    ensures watched { OnOk result (AreWatched clauses.now (var_count trail.old) trail.new.steps.items watches.new) }
    ensures done { IfOk result (λ o. MatchOption o (length watches.new.pairs.items ≡ length clauses.now)
        (IsFalsified (assignment_of trail.new.values.items) clauses.now)) }
{
    while watches.pairs.len() < clauses.len() {
        if let Some(id) = assert_unit(clauses, trail, watches.pairs.len())? {
            return Ok(Some(id));
        }
        attach(clauses, trail, watches)?;
    }
    Ok(None)
}

/// Makes the literal of a clause true where the clause is unit. Otherwise the clause is open, or it is false, and its
/// id is the answer.
fn assert_unit(clauses: &Clauses, trail: &mut Trail, place: usize) -> Result<Option<u32>, NoMemory>
    requires few { length clauses.now < 2 ^ 31 }
    requires exist { AreOver (var_count trail.old) clauses.now }
    requires state { IsTrailState clauses.now (var_count trail.old) trail.old }
    requires place { place < length clauses.now }
    ensures state { OnOk result (IsTrailState clauses.now (var_count trail.old) trail.new) }
    ensures adds { OnOk result (Propagates trail.old.steps.items trail.new.steps.items) }
    ensures done { IfOk result (λ o. MatchOption o
        (IsOpenClause (assignment_of trail.new.values.items) (slice_index_or clauses.now place []))
        (IsFalsified (assignment_of trail.new.values.items) clauses.now)) }
{
    let id = place as u32 + 1;
    match status_of(clauses.get(place), trail) {
        ClauseStatus::Unit(lit) => {
            trail.assign(Step {
                lit,
                reason: Some(id),
            })?;
            Ok(None)
        }
        ClauseStatus::Falsified => Ok(Some(id)),
        ClauseStatus::Open => Ok(None),
    }
}

/// Gives the next clause its watched literals: those that become false last.
fn attach(clauses: &Clauses, trail: &Trail, watches: &mut Watches) -> Result<(), NoMemory>
    requires few { length clauses.now < 2 ^ 31 }
    requires exist { AreOver (var_count trail.now) clauses.now }
    requires state { IsTrailState clauses.now (var_count trail.now) trail.now }
    requires before { AreClosedBefore clauses.now trail.now.steps.items }
    requires watched { AreWatched clauses.now (var_count trail.now) trail.now.steps.items watches.old }
    requires more { length watches.old.pairs.items < length clauses.now }
    requires opens { IsOpenClause (assignment_of trail.now.values.items)
        (slice_index_or clauses.now (length watches.old.pairs.items) []) }
    ensures watched { OnOk result (AreWatched clauses.now (var_count trail.now) trail.now.steps.items watches.new) }
    ensures count { OnOk result (length watches.new.pairs.items ≡ length watches.old.pairs.items + 1) }
{
    let clause = clauses.get(watches.pairs.len());
    let pair = watched_pair(clause, trail);
    watches.add(clause, pair)?;
    Ok(())
}

/// Visits each clause that watches the literal that the step at the head made false, and moves the head on.
fn visit_list(
    clauses: &Clauses,
    trail: &mut Trail,
    watches: &mut Watches,
) -> Result<Option<u32>, NoMemory>
    requires few { length clauses.now < 2 ^ 31 }
    requires exist { AreOver (var_count trail.old) clauses.now }
    requires state { IsTrailState clauses.now (var_count trail.old) trail.old }
    requires watched { AreWatched clauses.now (var_count trail.old) trail.old.steps.items watches.old }
    requires qhead { watches.old.qhead < length trail.old.steps.items }
    ensures state { OnOk result (IsTrailState clauses.now (var_count trail.old) trail.new) }
    ensures adds { OnOk result (Propagates trail.old.steps.items trail.new.steps.items) }
    ensures watched { OnOk result (AreWatched clauses.now (var_count trail.old) trail.new.steps.items watches.new) }
    ensures attached { OnOk result (length watches.new.pairs.items ≡ length watches.old.pairs.items) }
    ensures done { IfOk result (λ o. MatchOption o (watches.new.qhead ≡ watches.old.qhead + 1)
        (IsFalsified (assignment_of trail.new.values.items) clauses.now)) }
{
    let lit = trail.steps[watches.qhead].lit.negated();
    let list = list_place(lit);
    let mut place = 0;
    while place < watches.lists[list].len() {
        match visit_watcher(clauses, trail, watches, lit, place)? {
            Visit::Stays => place += 1,
            Visit::Moved => {}
            Visit::Falsified(id) => return Ok(Some(id)),
        }
    }
    watches.qhead += 1;
    Ok(None)
}

/// Visits the clause of the watcher at a place of the list of a literal that the step at the head made false.
fn visit_watcher(
    clauses: &Clauses,
    trail: &mut Trail,
    watches: &mut Watches,
    lit: Lit,
    place: usize,
) -> Result<Visit, NoMemory>
    requires few { length clauses.now < 2 ^ 31 }
    requires exist { AreOver (var_count trail.old) clauses.now }
    requires state { IsTrailState clauses.now (var_count trail.old) trail.old }
    requires watched { AreWatched clauses.now (var_count trail.old) trail.old.steps.items watches.old }
    requires qhead { IsFalsifiedAt trail.old.steps.items watches.old.qhead lit }
    requires lit { IsLitOf (var_count trail.old) lit }
    requires place { place < length (watchers watches.old.lists.items (list_of lit)) }
    requires passed { ArePassed clauses.now trail.old.steps.items watches.old lit place }
    ensures state { OnOk result (IsTrailState clauses.now (var_count trail.old) trail.new) }
    ensures adds { OnOk result (Propagates trail.old.steps.items trail.new.steps.items) }
    ensures watched { OnOk result (AreWatched clauses.now (var_count trail.old) trail.new.steps.items watches.new) }
    ensures attached { OnOk result (length watches.new.pairs.items ≡ length watches.old.pairs.items) }
    ensures qhead { OnOk result (watches.new.qhead ≡ watches.old.qhead) }
    ensures says { IfOk result (VisitSays clauses.now trail.new.steps.items (assignment_of trail.new.values.items)
        lit place (length (watchers watches.old.lists.items (list_of lit))) watches.new) }
{
    let list = list_place(lit);
    let watcher = watches.lists[list].get(place);
    if trail.is_true(watcher.blocker) {
        return Ok(Visit::Stays);
    }
    if watcher.binary {
        return settle(clauses, trail, watcher.clause, watcher.blocker);
    }
    let old = watches.pairs.pair(watcher.clause as usize);
    let other = other_than(old, lit);
    if trail.is_true(other) {
        watches.renew(list, place, other);
        return Ok(Visit::Stays);
    }
    let clause = watches.pairs.lits(watcher.clause as usize);
    match replacement(clause, other, trail, old.saved) {
        Some(at) => {
            let found = clause[at].lit();
            let pair = Pair {
                a: other,
                b: found,
                saved: at,
            };
            watches.move_watch(list, place, watcher.clause, pair)?;
            Ok(Visit::Moved)
        }
        None => settle(clauses, trail, watcher.clause, other),
    }
}

/// Settles the clause at a place, all of whose literals but this one are false, while this one isn't true: makes it true,
/// or the clause is false.
fn settle(clauses: &Clauses, trail: &mut Trail, place: u32, lit: Lit) -> Result<Visit, NoMemory>
    requires few { length clauses.now < 2 ^ 31 }
    requires exist { AreOver (var_count trail.old) clauses.now }
    requires state { IsTrailState clauses.now (var_count trail.old) trail.old }
    requires place { place < length clauses.now }
    requires among { Contains (slice_index_or clauses.now place []) lit }
    requires others { All (IsPassedOver (assignment_of trail.old.values.items) lit)
        (slice_index_or clauses.now place []) }
    requires not_true { IsHeld (assignment_of trail.old.values.items) lit → ⊥ }
    ensures state { OnOk result (IsTrailState clauses.now (var_count trail.old) trail.new) }
    ensures says { IfOk result (SettleSays clauses.now place lit (assignment_of trail.new.values.items)
        trail.old.steps.items trail.new.steps.items) }
{
    let id = place + 1;
    if trail.is_false(lit) {
        return Ok(Visit::Falsified(id));
    }
    trail.assign(Step {
        lit,
        reason: Some(id),
    })?;
    Ok(Visit::Stays)
}

/// The other one of two watched literals.
fn other_than(pair: Pair, lit: Lit) -> Lit
    ensures { ((pair.a ≡ lit) × (result ≡ pair.b)) ⊎ ((pair.a ≢ lit) × (result ≡ pair.a)) }
{
    if pair.a == lit { pair.b } else { pair.a }
}

/// The place of a literal of the clause that isn't false, other than this one: the first from a place on, or else the
/// first before it.
fn replacement(clause: &[Packed], other: Lit, trail: &Trail, saved: usize) -> Option<usize>
    requires exist { All (IsLitOf (var_count trail.now)) clause.now }
    ensures { MatchOption result (All (IsPassedOver (assignment_of trail.now.values.items) other) clause.now)
        (IsNextReplacement (assignment_of trail.now.values.items) clause.now other saved) }
{
    let middle = saved.min(clause.len());
    match first_between(clause, other, trail, middle, clause.len()) {
        Some(at) => Some(at),
        None => first_between(clause, other, trail, 0, middle),
    }
}

/// The first place of such a literal between two places.
fn first_between(
    clause: &[Packed],
    other: Lit,
    trail: &Trail,
    start: usize,
    end: usize,
) -> Option<usize>
    requires exist { All (IsLitOf (var_count trail.now)) clause.now }
    requires end { end ≤ length clause.now }
    ensures { MatchOption result
        (AllWithin (IsPassedOver (assignment_of trail.now.values.items) other) clause.now start end)
        (IsFirstWithin (assignment_of trail.now.values.items) clause.now other start end) }
{
    for at in start..end {
        let lit = clause[at].lit();
        if lit != other && !trail.is_false(lit) {
            return Some(at);
        }
    }
    None
}
