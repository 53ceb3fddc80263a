// What the launches of a row need from other launches.
ghost use Rattle.std.specs.Prelude.{◌≡◌, ◌∷◌, [], ◌++◌, ◌<◌, ◌^◌, length, map, IfOk, OnOk, slice_get};
ghost use Rattle.schedule_meaning.specs.Launches as launches;
ghost use Rattle.cycle_encoding.specs.Facts.{one_or_none};
ghost use Rattle.cycle_encoding.specs.Lacking as lacking;
ghost use Rattle.cycle_encoding.specs.Lacking.{lacked_among, needs_of};
ghost use Rattle.cycle_encoding.specs.Variables.{row_numbers};
ghost use Rattle.cycle_encoding.specs.Coming.{memory_needs, start_needs};
ghost use Rattle.cycle_encoding.specs.Counts.{row_is};
ghost use Rattle.cycle_encoding.specs.Narrow.{accesses};

use crate::Facts;
use items::{Items, NoMemory};
use machine_table::InstrKind;
use schedule_meaning::{Allocation, Operand, memory_class_at, operand_at, operand_count};
use std::alloc::Global;

/// Which classes are there without a launch.
#[derive(Clone, Copy, PartialEq, Eq)]
pub enum There {
    /// Those of inputs, which are there at entry.
    AtEntry,
    /// Those of inputs whose registers no launch writes.
    Always,
}

/// For each row's number the classes that a launch of it needs from other launches.
#[tactic(auto, using(crate::proofs::Tables::table_more))]
pub fn needs(alloc: Global, facts: &Facts, there: There) -> Result<Vec<Items<u32>>, NoMemory>
    requires rows { length facts.now.rows < 2 ^ 30 }
    ensures { IfOk result (λ needs. needs.items ≡ map (needs_of there facts.now) (row_numbers facts.now)) }
{
    let mut needs = Vec::new(alloc);
    for row in 0..facts.row_numbers() {
        needs.push(Items::from(lacked_operands(alloc, facts, there, row)?))?;
    }
    Ok(needs)
}

/// For each row's number the classes that have to come before a launch of it can start.
#[tactic(auto, using(crate::proofs::Tables::table_more))]
pub fn awaited(
    alloc: Global,
    facts: &Facts,
    allocation: Allocation,
) -> Result<Vec<Items<u32>>, NoMemory>
    requires rows { length facts.now.rows < 2 ^ 30 }
    ensures { IfOk result (λ awaited. awaited.items ≡ map (start_needs facts.now allocation) (row_numbers facts.now)) }
{
    let mut awaited = Vec::new(alloc);
    for row in 0..facts.row_numbers() {
        let mut classes = lacked_operands(alloc, facts, There::AtEntry, row)?;
        push_memory(&mut classes, facts, allocation, row)?;
        awaited.push(Items::from(classes))?;
    }
    Ok(awaited)
}

/// Adds the class of the memory that a launch of the row awaits, if it awaits one.
fn push_memory(
    awaited: &mut Vec<u32>,
    facts: &Facts,
    allocation: Allocation,
    row: u32,
) -> Result<(), NoMemory>
    ensures { OnOk result (awaited.new.items ≡ awaited.old.items ++ memory_needs facts.now allocation row) }
{
    let class = memory_class_at(facts.graph(), row);
    if allocation == Allocation::Live && accesses(facts, row) && class != facts.graph().entry {
        awaited.push(class)?;
    }
    Ok(())
}

/// Whether the row is a load or a store.
fn accesses(facts: &Facts, row: u32) -> bool
    ensures { result ≡ row_is facts.now accesses row }
{
    match facts.instr_at(row) {
        Some(InstrKind::Load(_) | InstrKind::Store(_)) => true,
        _ => false,
    }
}

/// The classes of a row's word operands that a launch of it needs from other launches, in order; the branch has the
/// guard's class, and a copy that of its set.
fn lacked_operands(
    alloc: Global,
    facts: &Facts,
    there: There,
    row: u32,
) -> Result<Vec<u32>, NoMemory>
    ensures { IfOk result (λ lacked. lacked.items ≡ needs_of there facts.now row) }
{
    let mut lacked = Vec::new(alloc);
    for at in 0..operand_count(facts.graph(), row) {
        push_lacked_at(&mut lacked, facts, there, row, at)?;
    }
    Ok(lacked)
}

/// Adds the class of the operand at a place, if there is one that is needed.
fn push_lacked_at(
    lacked: &mut Vec<u32>,
    facts: &Facts,
    there: There,
    row: u32,
    at: usize,
) -> Result<(), NoMemory>
    ensures { OnOk result (lacked.new.items ≡ lacked.old.items
        ++ lacked_among there facts.now (one_or_none (slice_get (launches.operands_at facts.now row) at))) }
{
    let Some(operand) = operand_at(facts.graph(), row, at) else {
        return Ok(());
    };
    if !facts.is_free(operand.class, operand.second) && !is_there(facts, there, operand.class) {
        lacked.push(operand.class)?;
    }
    Ok(())
}

/// Whether the class is there without a launch.
fn is_there(facts: &Facts, there: There, class: u32) -> bool
    ensures { result ≡ lacking.is_there there facts.now class }
{
    match there {
        There::AtEntry => facts.is_input(class),
        There::Always => facts.is_safe(class),
    }
}
