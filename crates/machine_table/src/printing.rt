// The canonical text of a table.
ghost use Rattle.std.specs.Prelude.{◌≡◌, ◌+◌, ◌∷◌, ◌++◌, OnOk, IfOk, decimal, drop, length, map, codes};
ghost use Rattle.std.specs.List.{flat_map};
ghost use Rattle.forms.specs.Printing.{others_of, plains_from, plain_text, plains_text};
ghost use Rattle.machine_table.specs.Printing.{slot_plain, slot_name_plain, use_plain, table_text};

use crate::names::instr_name;
use crate::tables::{Slot, Table, Use};
use items::NoMemory;
use itoa::Buffer;
use std::alloc::Global;

fn put_number(text: &mut Vec<u8>, number: u32) -> Result<(), NoMemory>
    ensures { OnOk result (text.new.items ≡ text.old.items ++ decimal number) }
{
    let mut buffer = Buffer::new();
    text.extend_from_slice(buffer.format(number).as_bytes())?;
    Ok(())
}

fn put_slot(text: &mut Vec<u8>, slot: &Slot) -> Result<(), NoMemory>
    ensures { OnOk result (text.new.items ≡ text.old.items ++ plain_text (slot_plain slot.now)) }
{
    text.extend_from_slice(b"(")?;
    text.extend_from_slice(slot.name.bytes())?;
    text.extend_from_slice(b" ")?;
    put_number(text, u32::from(slot.cluster))?;
    text.extend_from_slice(b")")?;
    Ok(())
}

/// Each slot with a space before it.
#[tactic(auto, using(crate::proofs::Printed::each_more, crate::proofs::Printed::others_each))]
fn put_slots(text: &mut Vec<u8>, slots: &[Slot]) -> Result<(), NoMemory>
    ensures { OnOk result (text.new.items ≡ text.old.items ++ others_of (plains_from (map slot_plain slots.now))) }
{
    for slot in slots {
        text.extend_from_slice(b" ")?;
        put_slot(text, slot)?;
    }
    Ok(())
}

/// The name of the slot with this number; none where the table has no such slot.
fn put_slot_name(text: &mut Vec<u8>, table: &Table, at: u32) -> Result<(), NoMemory>
    ensures { OnOk result (text.new.items ≡ text.old.items ++ plain_text (slot_name_plain table.now at)) }
{
    if let Some(slot) = table.slots.as_slice().get(at as usize) {
        text.extend_from_slice(slot.name.bytes())?;
    }
    Ok(())
}

/// The names of slots, one space between them.
fn put_slot_names(text: &mut Vec<u8>, table: &Table, slots: &[u32]) -> Result<(), NoMemory>
    ensures { OnOk result (text.new.items ≡ text.old.items
        ++ plains_text (plains_from (map (slot_name_plain table.now) slots.now))) }
{
    if slots.is_empty() {
        return Ok(());
    }
    put_slot_name(text, table, slots[0])?;
    put_more_names(text, table, &slots[1..])
}

#[tactic(auto, using(crate::proofs::Printed::each_more, crate::proofs::Printed::others_each))]
fn put_more_names(text: &mut Vec<u8>, table: &Table, slots: &[u32]) -> Result<(), NoMemory>
    ensures { OnOk result (text.new.items ≡ text.old.items
        ++ others_of (plains_from (map (slot_name_plain table.now) slots.now))) }
{
    for slot in slots {
        text.extend_from_slice(b" ")?;
        put_slot_name(text, table, *slot)?;
    }
    Ok(())
}

fn put_use(text: &mut Vec<u8>, table: &Table, one: &Use) -> Result<(), NoMemory>
    ensures { OnOk result (text.new.items ≡ text.old.items ++ plain_text (use_plain table.now one.now)) }
{
    text.extend_from_slice(b"(ops ")?;
    put_number(text, one.latency)?;
    text.extend_from_slice(b" (")?;
    put_slot_names(text, table, one.slots.as_slice())?;
    text.extend_from_slice(b") ")?;
    text.extend_from_slice(instr_name(one.instr))?;
    text.extend_from_slice(b")")?;
    Ok(())
}

/// Each use with a space before it.
#[tactic(auto, using(crate::proofs::Printed::each_more, crate::proofs::Printed::others_each))]
fn put_uses(text: &mut Vec<u8>, table: &Table, uses: &[Use]) -> Result<(), NoMemory>
    ensures { OnOk result (text.new.items ≡ text.old.items
        ++ others_of (plains_from (map (use_plain table.now) uses.now))) }
{
    for one in uses {
        text.extend_from_slice(b" ")?;
        put_use(text, table, one)?;
    }
    Ok(())
}

/// The canonical text of a table: a line with one `ops` for each use.
pub fn print(alloc: Global, table: &Table) -> Result<Vec<u8>, NoMemory>
    ensures { IfOk result (λ text. text.items ≡ table_text table.now) }
{
    let mut text = Vec::from_slice(alloc, b"(machine (slots")?;
    put_slots(&mut text, table.slots.as_slice())?;
    text.extend_from_slice(b") (cross ")?;
    put_number(&mut text, table.cross)?;
    text.extend_from_slice(b")")?;
    put_uses(&mut text, table, table.uses.as_slice())?;
    text.extend_from_slice(b")\n")?;
    Ok(text)
}
