// Tables of machines: their texts, and what they say of instructions.
ghost use Rattle.std.specs.Prelude.{◌<◌, ◌≤◌, ◌^◌, length, IfOk};
ghost use Rattle.machine_table.specs.Tables.{IsTable};

use case_files::{Trouble, faulty, put, put_number, put_numbers, split_line};
use forms::trees;
use machine_table::{InstrKind, Table, ev6, instr_name, instr_of, tables_keep_limits};
use std::alloc::Global;
use text_core::TextFault;

/// The table that a machine form writes; of an empty text `ev6`.
fn table_of(alloc: Global, text: &[u8]) -> Result<Table, TextFault>
    requires { length text.now ≤ 2 ^ 24 }
    ensures { IfOk result IsTable }
{
    tables_keep_limits();
    if text.is_empty() {
        return Ok(ev6(alloc)?);
    }
    let forms = trees(alloc, text)?;
    match forms.first() {
        Some(form) => machine_table::read(alloc, form, text),
        None => Err(TextFault::Memory),
    }
}

/// The canonical text of a machine form, or its fault.
pub(crate) fn tables(alloc: Global, input: &[u8]) -> Result<Vec<u8>, Trouble>
    requires { length input.now ≤ 2 ^ 24 }
{
    match table_of(alloc, input) {
        Ok(table) => Ok(machine_table::print(alloc, &table)?),
        Err(fault) => faulty(alloc, fault),
    }
}

/// The name of an instruction, its latency on the table, or `none`, and whether each slot may launch it, with the
/// slot's cluster.
fn put_instruction(report: &mut Vec<u8>, table: &Table, instr: InstrKind) -> Result<(), Trouble> {
    put(report, instr_name(instr))?;
    match table.latency(instr) {
        Some(latency) => put_number(report, u64::from(latency))?,
        None => put(report, b" none")?,
    }
    for slot in 0..8u32 {
        if (slot as usize) < table.slots.len() && table.may_use(instr, slot) {
            put(report, b" slot")?;
            put_number(report, u64::from(slot))?;
            put_number(report, u64::from(table.cluster(slot)))?;
        }
    }
    put(report, b"\n")
}

/// Input: a line with the name of an instruction, and a machine form behind it where the table isn't `ev6`. Answers
/// with what the table says of the instruction, and its cross delay.
pub(crate) fn instructions(alloc: Global, input: &[u8]) -> Result<Vec<u8>, Trouble>
    requires { length input.now ≤ 2 ^ 24 }
{
    let mut report = Vec::new(alloc);
    let (name, form) = split_line(input);
    let table = match table_of(alloc, form) {
        Ok(table) => table,
        Err(fault) => return faulty(alloc, fault),
    };
    match instr_of(name) {
        Some(instr) => put_instruction(&mut report, &table, instr)?,
        None => put(&mut report, b"no instruction\n")?,
    }
    put_numbers(&mut report, b"cross", &[u64::from(table.cross())])?;
    Ok(report)
}
