// The memory that is held in a cycle: its variables, and the clauses that say which it is at first and at last.
ghost use Rattle.std.specs.Prelude.{◌≡◌, ◌==◌, ◌+◌, ◌<◌, ◌≤◌, ◌^◌, ◌∷◌, [], length, All, IfOk, OnOk, option_to_list};
ghost use Rattle.schedule_meaning.specs.Limits.{most_cycles};
ghost use Rattle.cnf_core.specs.Formula.{IsLitOf};
ghost use Rattle.graph_meaning.specs.WellFormed.{IsLaunchGraph};
ghost use Rattle.graph_meaning.specs.WellFormed as wellformed;
ghost use Rattle.cycle_encoding.specs.Shapes.{numbered, negative, implied, vars_of, counters_vars, counters_size};
ghost use Rattle.cycle_encoding.specs.Steps.{of_thing, with_clauses, with_counters};
ghost use Rattle.order_encoding.specs.OrderVariables as variables;
ghost use Rattle.order_encoding.specs.OrderVariables.{all_held};
ghost use Rattle.order_encoding.specs.OrderFamilies.{is_held_at, entry_clauses, held_groups, last_memory_clauses};
ghost use Rattle.order_encoding.specs.OrderFamilies.{not_at_entry};
ghost use Rattle.order_encoding.specs.OrderSteps.{AreHeldVars, held_at};

use cnf_core::{Cnf, Lit, at_most_one, counters_count};
use cycle_encoding::{Facts, add_implied, next_class};
use items::NoMemory;
use std::alloc::Global;

/// The variables of memories that are held in the cycles from 0 to `cycles`: by class, then by cycle, after `first`.
/// `starts` has for each class of a memory how many are held of smaller ones.
#[derive(Drop)]
pub struct HeldVars {
    pub first: u32,
    pub cycles: u32,
    pub classes: Vec<u32>,
    pub starts: Vec<Option<usize>>,
}

/// Whether some row of the class gives a memory: that is so where none gives a word.
#[tactic(auto, using(crate::proofs::MemoryClasses::not_word))]
pub fn is_memory_class(facts: &Facts, class: u32) -> bool
    requires graph { IsLaunchGraph facts.now }
    requires class { class < wellformed.next_class facts.now.rows }
    ensures { result ≡ variables.is_memory_class facts.now class }
{
    !facts.is_word_class(class)
}

/// The variables of what is held in the cycles up to k.
#[tactic(auto, using(crate::proofs::HeldPlaces::below_yes, crate::proofs::HeldPlaces::below_no, crate::proofs::HeldPlaces::classes_yes, crate::proofs::HeldPlaces::classes_no, crate::proofs::HeldPlaces::starts_yes, crate::proofs::HeldPlaces::starts_no))]
pub fn held_vars(alloc: Global, facts: &Facts, k: u32, first: u32) -> Result<HeldVars, NoMemory>
    requires graph { IsLaunchGraph facts.now }
    requires cycles { k ≤ most_cycles }
    ensures first { IfOk result (λ held. held.first ≡ first) }
    ensures cycles { IfOk result (λ held. held.cycles ≡ k) }
    ensures held { IfOk result (λ held. AreHeldVars facts.now k held.classes.items held.starts.items) }
{
    let mut classes = Vec::new(alloc);
    let mut starts = Vec::new(alloc);
    let mut start = 0;
    for class in 0..next_class(facts.graph()) {
        if is_memory_class(facts, class) {
            classes.push(class)?;
            starts.push(Some(start))?;
            start += k as usize + 1;
        } else {
            starts.push(None)?;
        }
    }
    Ok(HeldVars {
        first,
        cycles: k,
        classes,
        starts,
    })
}

/// The variable of a class that is held in a cycle, if it has one.
pub fn held_var(held: &HeldVars, facts: &Facts, class: u32, cycle: u32) -> Option<Lit>
    requires held { AreHeldVars facts.now held.now.cycles held.now.classes.items held.now.starts.items }
    requires few { held.now.first + length (all_held facts.now held.now.cycles) < 2 ^ 29 }
    ensures { option_to_list result ≡ vars_of (is_held_at class cycle)
        (numbered held.now.first (all_held facts.now held.now.cycles)) }
{
    if cycle > held.cycles {
        return None;
    }
    let starts = held.starts.as_slice();
    if class as usize >= starts.len() {
        return None;
    }
    match starts[class as usize] {
        Some(start) => Some(Lit {
            var: held.first + start as u32 + cycle + 1,
            positive: true,
        }),
        None => None,
    }
}

/// The variable of a class that is held in the cycle after this one, if it has one.
pub fn held_after(held: &HeldVars, facts: &Facts, class: u32, cycle: u32) -> Option<Lit>
    requires held { AreHeldVars facts.now held.now.cycles held.now.classes.items held.now.starts.items }
    requires few { held.now.first + length (all_held facts.now held.now.cycles) < 2 ^ 29 }
    ensures { option_to_list result
        ≡ vars_of (is_held_at class (cycle + 1)) (numbered held.now.first (all_held facts.now held.now.cycles)) }
{
    if cycle >= held.cycles {
        None
    } else {
        held_var(held, facts, class, cycle + 1)
    }
}

/// Adds the clauses that the memory at entry is held at first, and no other.
pub fn add_entry(cnf: &mut Cnf, facts: &Facts, held: &HeldVars) -> Result<(), NoMemory>
    requires held { AreHeldVars facts.now held.now.cycles held.now.classes.items held.now.starts.items }
    requires exist { held.now.first + length (all_held facts.now held.now.cycles) ≤ cnf.old.vars }
    requires few { cnf.old.vars < 2 ^ 29 }
    requires room { length cnf.old.clauses
        + length (entry_clauses facts.now (numbered held.now.first (all_held facts.now held.now.cycles))) < 2 ^ 30 }
    ensures { OnOk result (cnf.new ≡ with_clauses cnf.old
        (entry_clauses facts.now (numbered held.now.first (all_held facts.now held.now.cycles)))) }
{
    add_option(cnf, held_var(held, facts, facts.graph().entry, 0))?;
    add_others(cnf, facts, held)
}

/// Adds the clause of a literal, or the empty one where there is none.
fn add_option(cnf: &mut Cnf, lit: Option<Lit>) -> Result<(), NoMemory>
    requires lit { All (IsLitOf cnf.old.vars) (option_to_list lit) }
    requires room { length cnf.old.clauses < 2 ^ 30 }
    ensures { OnOk result (cnf.new ≡ with_clauses cnf.old (option_to_list lit ∷ [])) }
{
    match lit {
        Some(lit) => cnf.add(&[lit]),
        None => cnf.add(&[]),
    }
}

/// Adds the clauses that no other memory than the one at entry is held at first.
fn add_others(cnf: &mut Cnf, facts: &Facts, held: &HeldVars) -> Result<(), NoMemory>
    requires held { AreHeldVars facts.now held.now.cycles held.now.classes.items held.now.starts.items }
    requires exist { held.now.first + length (all_held facts.now held.now.cycles) ≤ cnf.old.vars }
    requires few { cnf.old.vars < 2 ^ 29 }
    requires room { length cnf.old.clauses + length
        (implied (numbered held.now.first (all_held facts.now held.now.cycles)) (not_at_entry facts.now)) < 2 ^ 30 }
    ensures { OnOk result (cnf.new ≡ with_clauses cnf.old
        (implied (numbered held.now.first (all_held facts.now held.now.cycles)) (not_at_entry facts.now))) }
{
    let mut var = held.first + 1;
    for class in held.classes.as_slice() {
        add_other(cnf, facts, *class, var)?;
        var += held.cycles + 1;
    }
    Ok(())
}

/// Adds the clause that a variable is false, where it is that of a class that isn't the memory's at entry.
fn add_other(cnf: &mut Cnf, facts: &Facts, class: u32, var: u32) -> Result<(), NoMemory>
    requires var { IsLitOf cnf.old.vars (negative var) }
    requires room { length cnf.old.clauses + length (not_at_entry facts.now (held_at class 0)) < 2 ^ 30 }
    ensures { OnOk result (cnf.new ≡ with_clauses cnf.old (of_thing var (not_at_entry facts.now (held_at class 0)))) }
{
    if class == facts.graph().entry {
        return Ok(());
    }
    add_implied(cnf, var, None)
}

/// Adds the clause that the memory of the target is held after the last cycle.
pub fn add_last(cnf: &mut Cnf, facts: &Facts, held: &HeldVars) -> Result<(), NoMemory>
    requires held { AreHeldVars facts.now held.now.cycles held.now.classes.items held.now.starts.items }
    requires exist { held.now.first + length (all_held facts.now held.now.cycles) ≤ cnf.old.vars }
    requires few { cnf.old.vars < 2 ^ 29 }
    requires room { length cnf.old.clauses < 2 ^ 30 }
    ensures { OnOk result (cnf.new ≡ with_clauses cnf.old
        (last_memory_clauses facts.now held.now.cycles (numbered held.now.first (all_held facts.now held.now.cycles)))) }
{
    let target = facts.graph().memory_target();
    add_option(cnf, held_var(held, facts, target, held.cycles))
}

/// Adds a counter for each cycle: at most one memory is held.
pub fn add_held_counters(
    alloc: Global,
    cnf: &mut Cnf,
    facts: &Facts,
    held: &HeldVars,
) -> Result<(), NoMemory>
    requires held { AreHeldVars facts.now held.now.cycles held.now.classes.items held.now.starts.items }
    requires cycles { held.now.cycles ≤ most_cycles }
    requires exist { held.now.first + length (all_held facts.now held.now.cycles) ≤ cnf.old.vars }
    requires vars { cnf.old.vars + counters_vars 1 (held_groups held.now.cycles
        (numbered held.now.first (all_held facts.now held.now.cycles))) < 2 ^ 29 }
    requires room { length cnf.old.clauses + counters_size 1 (held_groups held.now.cycles
        (numbered held.now.first (all_held facts.now held.now.cycles))) < 2 ^ 30 }
    ensures { OnOk result (cnf.new ≡ with_counters cnf.old
        (held_groups held.now.cycles (numbered held.now.first (all_held facts.now held.now.cycles)))) }
{
    counters_count();
    for cycle in 0..held.cycles + 1 {
        let lits = held_in(alloc, facts, held, cycle)?;
        at_most_one(cnf, &lits)?;
    }
    Ok(())
}

/// The variables of what may be held in a cycle.
fn held_in(alloc: Global, facts: &Facts, held: &HeldVars, cycle: u32) -> Result<Vec<Lit>, NoMemory>
    requires held { AreHeldVars facts.now held.now.cycles held.now.classes.items held.now.starts.items }
    requires few { held.now.first + length (all_held facts.now held.now.cycles) < 2 ^ 29 }
    requires cycle { cycle ≤ held.now.cycles }
    requires cycles { held.now.cycles ≤ most_cycles }
    ensures { IfOk result (λ lits. lits.items
        ≡ vars_of (λ m. m.cycle == cycle) (numbered held.now.first (all_held facts.now held.now.cycles))) }
{
    let mut lits = Vec::new(alloc);
    let mut var = held.first + cycle + 1;
    for _class in held.classes.as_slice() {
        lits.push(Lit {
            var,
            positive: true,
        })?;
        var += held.cycles + 1;
    }
    Ok(lits)
}
