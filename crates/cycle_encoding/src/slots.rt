// At most one launch in a slot and cycle.
ghost use Rattle.std.specs.Prelude.{◌≡◌, ◌==◌, ◌+◌, ◌^◌, ◌<◌, ◌≤◌, ◌++◌, if◌then◌else◌, length, map, IfOk, OnOk};
ghost use Rattle.std.specs.List.{range_with_len};
ghost use Rattle.cycle_encoding.specs.Shapes.{numbered, counters, counters_vars, counters_size};
ghost use Rattle.cycle_encoding.specs.Families.{slot_row, slot_rows};
ghost use Rattle.cycle_encoding.specs.Steps.{at_in, put_at};

use crate::buckets::{empty_lists, put_into};
use crate::families::variables;
use cnf_core::{Cnf, at_most_one, counters_count};
use items::{Items, NoMemory};
use schedule_meaning::Launch;
use std::alloc::Global;

/// Adds a counter for each slot and cycle. The launches have the first variables.
#[tactic(auto)]
pub fn add_slots(
    alloc: Global,
    cnf: &mut Cnf,
    launches: &[Launch],
    slots: u32,
    k: u32,
) -> Result<(), NoMemory>
    requires exist { length launches.now ≤ cnf.old.vars }
    requires vars { cnf.old.vars + counters_vars 1 (slot_rows slots k (numbered 0 launches.now)) < 2 ^ 29 }
    requires room { length cnf.old.clauses + counters_size 1 (slot_rows slots k (numbered 0 launches.now)) < 2 ^ 30 }
    ensures { OnOk result (cnf.new ≡ record {
      vars = cnf.old.vars + counters_vars 1 (slot_rows slots k (numbered 0 launches.now));
      clauses = cnf.old.clauses ++ counters cnf.old.vars 1 (slot_rows slots k (numbered 0 launches.now));
    }) }
{
    counters_count();
    for slot in 0..slots {
        add_slot(alloc, cnf, launches, slot, k)?;
    }
    Ok(())
}

/// Adds a counter for each cycle of one slot.
#[tactic(auto)]
fn add_slot(
    alloc: Global,
    cnf: &mut Cnf,
    launches: &[Launch],
    slot: u32,
    k: u32,
) -> Result<(), NoMemory>
    requires exist { length launches.now ≤ cnf.old.vars }
    requires vars { cnf.old.vars + counters_vars 1 (slot_row slot k (numbered 0 launches.now)) < 2 ^ 29 }
    requires room { length cnf.old.clauses + counters_size 1 (slot_row slot k (numbered 0 launches.now)) < 2 ^ 30 }
    ensures { OnOk result (cnf.new ≡ record {
      vars = cnf.old.vars + counters_vars 1 (slot_row slot k (numbered 0 launches.now));
      clauses = cnf.old.clauses ++ counters cnf.old.vars 1 (slot_row slot k (numbered 0 launches.now));
    }) }
{
    counters_count();
    let lists = slot_lists(alloc, launches, slot, k)?;
    for cycle in 0..k {
        let lits = variables(alloc, lists.as_slice()[cycle as usize].as_slice())?;
        at_most_one(cnf, &lits)?;
    }
    Ok(())
}

/// For each cycle the launches of a slot, in one pass over all launches.
fn slot_lists(
    alloc: Global,
    launches: &[Launch],
    slot: u32,
    k: u32,
) -> Result<Vec<Items<(u32, Launch)>>, NoMemory>
    requires { length launches.now < 2 ^ 29 }
    ensures { IfOk result (λ lists. lists.items ≡ map (λ t. at_in slot t launches.now) (range_with_len 0 k)) }
{
    let mut lists = empty_lists(alloc, k)?;
    for (index, launch) in launches.iter().enumerate() {
        put_in_slot(&mut lists, slot, index as u32 + 1, *launch)?;
    }
    Ok(lists)
}

/// Puts a launch with its variable at the end of the list of its cycle, if it is in the slot.
fn put_in_slot(
    lists: &mut Vec<Items<(u32, Launch)>>,
    slot: u32,
    var: u32,
    launch: Launch,
) -> Result<(), NoMemory>
    ensures { OnOk result (lists.new.items ≡ (if launch.slot == slot
        then put_at lists.old.items launch.cycle (var, launch) else lists.old.items)) }
{
    if launch.slot == slot {
        put_into(lists, launch.cycle, (var, launch))?;
    }
    Ok(())
}
