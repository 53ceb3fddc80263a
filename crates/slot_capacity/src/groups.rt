// The sets of slots that a table allows for instructions.
ghost use Rattle.std.specs.Prelude.{◌≡◌, ◌||◌, not, IfOk, bytes_eq};
ghost use Rattle.std.specs.List.{list_any};
ghost use Rattle.machine_table.specs.Tables.{IsTable};
ghost use Rattle.cycle_encoding.specs.Variables.{slots_of};
ghost use Rattle.cycle_encoding.specs.Facts as facts;
ghost use Rattle.slot_capacity.specs.Limits as specs;
ghost use Rattle.slot_capacity.specs.Makers as reads;
ghost use Rattle.slot_capacity.specs.MakersOf.{AreMakersOf};

use crate::makers::{Makers, has, rows_of};
use cycle_encoding::{Facts, may_use};
use items::{Items, NoMemory};
use machine_table::{InstrKind, Table, Use};
use std::alloc::Global;

/// The slots of a use, rising.
fn slots_of(alloc: Global, table: &Table, one: &Use) -> Result<Vec<u32>, NoMemory>
    requires { IsTable table.now }
    ensures { IfOk result (λ slots. slots.items ≡ slots_of table.now one.now) }
{
    let mut slots = Vec::new(alloc);
    for slot in 0..table.slots.len() as u32 {
        if has(one.slots.as_slice(), slot) {
            slots.push(slot)?;
        }
    }
    Ok(slots)
}

/// Whether some group has exactly these slots.
fn has_group(groups: &[Items<u32>], slots: &[u32]) -> bool
    ensures { result ≡ list_any (λ group. bytes_eq group slots.now) groups.now }
{
    groups.iter().any(|group| group.as_slice() == slots)
}

/// The sets of slots that the table allows for instructions, each once, in the order of the instructions.
pub fn groups(alloc: Global, table: &Table) -> Result<Vec<Items<u32>>, NoMemory>
    requires { IsTable table.now }
    ensures { IfOk result (λ groups. groups.items ≡ specs.groups_of table.now) }
{
    let mut groups = Vec::new(alloc);
    for one in table.uses.as_slice() {
        let slots = slots_of(alloc, table, one)?;
        if !has_group(&groups, &slots) {
            groups.push(Items::from(slots))?;
        }
    }
    Ok(groups)
}

/// Whether the slot is one of the group, if the table allows it for the instruction.
fn slot_belongs(table: &Table, instr: InstrKind, group: &[u32], slot: u32) -> bool
    ensures { result ≡ (not (facts.may_use table.now instr slot) || reads.has group.now slot) }
{
    !may_use(table, instr, slot) || has(group, slot)
}

/// Whether each slot that the table allows for the row is one of the group.
fn row_belongs(facts: &Facts, table: &Table, group: &[u32], row: u32) -> bool
    requires { IsTable table.now }
    ensures { result ≡ specs.row_belongs facts.now table.now group.now row }
{
    let Some(instr) = facts.instr_at(row) else {
        return true;
    };
    for slot in 0..table.slots.len() as u32 {
        if !slot_belongs(table, instr, group, slot) {
            return false;
        }
    }
    true
}

/// Whether that holds of each row that makes the class.
pub fn belongs(makers: &Makers, group: &[u32], class: u32) -> bool
    requires table { IsTable makers.now.frame.table.now }
    requires makers { AreMakersOf makers.now }
    ensures { result ≡ specs.belongs makers.now.frame.facts.now makers.now.frame.table.now makers.now.spans.items
        group.now class }
{
    rows_of(makers, class).iter().all(|row| row_belongs(
        makers.frame.facts,
        makers.frame.table,
        group,
        *row,
    ))
}
