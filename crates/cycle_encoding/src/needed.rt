// The word operands of a launch that need a clause.
ghost use Rattle.std.specs.Prelude.{◌≡◌, ◌∷◌, [], ◌++◌, IfOk, OnOk, slice_get};
ghost use Rattle.schedule_meaning.specs.Launches as launches;
ghost use Rattle.cycle_encoding.specs.Facts.{one_or_none};
ghost use Rattle.cycle_encoding.specs.Steps.{needed_among};

use crate::Facts;
use crate::needs_counts::needs_clause;
use items::NoMemory;
use schedule_meaning::{Launch, Operand, operand_at, operand_count};
use std::alloc::Global;

/// The classes of a launch's word operands that it has to see, or to read of an input's register before another launch
/// overwrites it: in order.
pub fn needed_operands(alloc: Global, facts: &Facts, launch: Launch) -> Result<Vec<u32>, NoMemory>
    ensures { IfOk result (λ needed. needed.items
        ≡ needed_among facts.now launch (launches.operands_at facts.now launch.row)) }
{
    let mut needed = Vec::new(alloc);
    for at in 0..operand_count(facts.graph(), launch.row) {
        push_at(&mut needed, facts, launch, at)?;
    }
    Ok(needed)
}

/// Adds the class of the operand at a place, if there is one that needs a clause.
fn push_at(needed: &mut Vec<u32>, facts: &Facts, launch: Launch, at: usize) -> Result<(), NoMemory>
    ensures { OnOk result (needed.new.items ≡ needed.old.items
        ++ needed_among facts.now launch (one_or_none (slice_get (launches.operands_at facts.now launch.row) at))) }
{
    let Some(operand) = operand_at(facts.graph(), launch.row, at) else {
        return Ok(());
    };
    if needs_clause(facts, launch.to, operand.class, operand.second) {
        needed.push(operand.class)?;
    }
    Ok(())
}
