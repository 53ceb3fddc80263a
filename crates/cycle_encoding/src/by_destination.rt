// The launches that have variables, by where they go.
ghost use Rattle.std.specs.Prelude.{◌≡◌, ◌+◌, ◌<◌, ◌≤◌, ◌^◌, ◌++◌, IfOk, OnOk, length};
ghost use Rattle.cycle_encoding.specs.Framed.{IsFrame};
ghost use Rattle.cycle_encoding.specs.CycleFormula.{allocation_in, first_cycle_in};
ghost use Rattle.cycle_encoding.specs.Facts as specs;
ghost use Rattle.cycle_encoding.specs.Variables.{launches_from, row_launches};

use crate::Frame;
use crate::launches::{cycles, may_use};
use crate::reaching::destinations;
use items::NoMemory;
use schedule_meaning::{Launch, To};
use std::alloc::Global;

/// The launches of each row from its first cycle that end by k: by row, then by slot, then by cycle, then by where they
/// go, the pool first. Behind the branch each set has the row of its copy.
#[tactic(auto, using(crate::proofs::Destined::rows_more))]
pub fn launches_from(alloc: Global, frame: &Frame) -> Result<Vec<Launch>, NoMemory>
    requires frame { IsFrame frame.now }
    ensures { IfOk result (λ launches. launches.items ≡ launches_from frame.now.facts.now frame.now.table.now
        (allocation_in frame.now.scope.now) frame.now.k (first_cycle_in frame.now.scope.now)) }
{
    let mut launches = Vec::new(alloc);
    for row in 0..frame.facts.row_numbers() {
        let first = frame.scope.first(row);
        push_row(alloc, &mut launches, frame, first, row)?;
    }
    Ok(launches)
}

/// The launches of a row from a first cycle, if it has any.
#[tactic(auto, using(crate::proofs::Destined::row_is, crate::proofs::Destined::row_without_first, crate::proofs::Destined::row_without_use, crate::proofs::Destined::row_without_instr))]
fn push_row(
    alloc: Global,
    launches: &mut Vec<Launch>,
    frame: &Frame,
    first: Option<u32>,
    row: u32,
) -> Result<(), NoMemory>
    requires frame { IsFrame frame.now }
    ensures { OnOk result (launches.new.items ≡ launches.old.items ++ row_launches frame.now.facts.now
        frame.now.table.now (allocation_in frame.now.scope.now) frame.now.k first row) }
{
    let Some(instr) = frame.facts.instr_at(row) else {
        return Ok(());
    };
    let Some(latency) = frame.table.latency(instr) else {
        return Ok(());
    };
    let Some(first) = first else {
        return Ok(());
    };
    let tos = destinations(alloc, frame.facts, frame.scope.allocation(), row)?;
    let cycles = cycles(frame.k, latency, first);
    for slot in 0..frame.table.slots.len() as u32 {
        if may_use(frame.table, instr, slot) {
            push_slot(launches, Place { row, slot }, first, cycles, &tos)?;
        }
    }
    Ok(())
}

/// A row and a slot for it.
#[derive(Clone, Copy)]
struct Place {
    row: u32,
    slot: u32,
}

/// The launches of a row in a slot.
fn push_slot(
    launches: &mut Vec<Launch>,
    place: Place,
    first: u32,
    cycles: u32,
    tos: &[To],
) -> Result<(), NoMemory>
    requires { first + cycles < 2 ^ 32 }
    ensures { OnOk result (launches.new.items
        ≡ launches.old.items ++ specs.destined_slot place.row first cycles tos.now place.slot) }
{
    for step in 0..cycles {
        push_cycle(launches, place.row, place.slot, first + step, tos)?;
    }
    Ok(())
}

/// The launches of a row in a slot and cycle.
fn push_cycle(
    launches: &mut Vec<Launch>,
    row: u32,
    slot: u32,
    cycle: u32,
    tos: &[To],
) -> Result<(), NoMemory>
    ensures { OnOk result (launches.new.items ≡ launches.old.items ++ specs.cycle_launches row slot tos.now cycle) }
{
    for to in tos {
        launches.push(Launch {
            cycle,
            slot,
            row,
            to: *to,
        })?;
    }
    Ok(())
}
