// What is overwritten: below which cycle a launch went to a set that is pinned to an input's register.
ghost use Rattle.std.specs.Prelude.{◌≡◌, ◌+◌, ◌*◌, ◌<◌, ◌≤◌, ◌^◌, ◌∷◌, [], ◌++◌, if◌then◌else◌, length, IfOk, OnOk};
ghost use Rattle.schedule_meaning.specs.Limits.{most_cycles};
ghost use Rattle.schedule_meaning.specs.Launches as launches;
ghost use Rattle.cycle_encoding.specs.Families.{is_lost};
ghost use Rattle.cycle_encoding.specs.Variables.{all_overwritten, overwriting_sets};
ghost use Rattle.cycle_encoding.specs.Shapes.{negated, numbered};
ghost use Rattle.cycle_encoding.specs.Steps.{AreOverwrittenVars, set_overwritten};

use crate::Facts;
use crate::needs_counts::takes_input;
use crate::sizes::is_overwriting;
use cnf_core::Lit;
use items::NoMemory;
use schedule_meaning::{Launch, overwrites};
use std::alloc::Global;

/// What is overwritten, with its variables: that of the set at a place in a cycle is `first` + 1 and the cycle, and the
/// place so many times as there are cycles, which are from 0 to `cycles`.
#[derive(Drop)]
pub struct OverwrittenVars {
    pub first: u32,
    pub cycles: u32,
    pub sets: Vec<u32>,
}

/// The variables of one set: that of its first cycle is the one after `first`.
#[derive(Clone, Copy)]
struct SetVars {
    first: u32,
    cycles: u32,
    set: u32,
}

/// All that may be overwritten in k cycles: by set, those alone that are pinned to an input's register, then by cycle.
pub fn overwritten_vars(
    alloc: Global,
    facts: &Facts,
    k: u32,
    first: u32,
) -> Result<OverwrittenVars, NoMemory>
    ensures first { IfOk result (λ vars. vars.first ≡ first) }
    ensures cycles { IfOk result (λ vars. vars.cycles ≡ k) }
    ensures sets { IfOk result (λ vars. vars.sets.items ≡ overwriting_sets facts.now) }
    ensures few { IfOk result (λ vars. length vars.sets.items ≤ 31) }
{
    let mut sets = Vec::new(alloc);
    for set in facts.pins() {
        if is_overwriting(facts, *set) {
            sets.push(*set)?;
        }
    }
    Ok(OverwrittenVars {
        first,
        cycles: k,
        sets,
    })
}

impl OverwrittenVars {
    /// How many variables they are.
    pub fn count(&self) -> u32
        requires sets { length self.now.sets.items ≤ 31 }
        requires cycles { self.now.cycles ≤ most_cycles }
        ensures value { result ≡ length self.now.sets.items * (self.now.cycles + 1) }
        ensures few { result ≤ 775 }
    {
        self.sets.as_slice().len() as u32 * (self.cycles + 1)
    }
}

/// The first cycle in which others may write what the launch reads.
pub fn reads_until(facts: &Facts, launch: Launch) -> u64
    ensures { result ≡ launches.reads_until facts.now launch }
{
    if overwrites(facts.graph(), launch) {
        u64::from(launch.cycle) + 1
    } else {
        u64::from(launch.cycle)
    }
}

/// Adds for each register of an input of the class that may be overwritten the literal that it isn't below the cycle.
pub fn push_lost(
    clause: &mut Vec<Lit>,
    facts: &Facts,
    vars: &OverwrittenVars,
    class: u32,
    cycle: u64,
) -> Result<(), NoMemory>
    requires vars { AreOverwrittenVars facts.now vars.now.cycles vars.now.first vars.now.sets.items }
    ensures { OnOk result (clause.new.items ≡ clause.old.items ++ negated (is_lost facts.now class cycle)
        (numbered vars.now.first (all_overwritten facts.now vars.now.cycles))) }
{
    for (place, set) in vars.sets.as_slice().iter().enumerate() {
        let first = vars.first + place as u32 * (vars.cycles + 1);
        let one = SetVars {
            first,
            cycles: vars.cycles,
            set: *set,
        };
        push_lost_of(clause, facts, one, class, cycle)?;
    }
    Ok(())
}

/// The same for the register of one set.
fn push_lost_of(
    clause: &mut Vec<Lit>,
    facts: &Facts,
    one: SetVars,
    class: u32,
    cycle: u64,
) -> Result<(), NoMemory>
    requires few { one.first + one.cycles + 1 < 2 ^ 29 }
    ensures { OnOk result (clause.new.items ≡ clause.old.items
        ++ negated (is_lost facts.now class cycle) (numbered one.first (set_overwritten one.cycles one.set))) }
{
    if cycle > u64::from(one.cycles) {
        return Ok(());
    }
    if !takes_input(facts, class, one.set) {
        return Ok(());
    }
    clause.push(Lit {
        var: one.first + cycle as u32 + 1,
        positive: false,
    })?;
    Ok(())
}
