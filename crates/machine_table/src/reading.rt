// Reading a machine form.
ghost use Rattle.std.specs.Prelude.{◌≡◌, ◌≤◌, IfOk, IfErr, IsPermutation};
ghost use Rattle.forms.specs.Forms.{sexp_form};
ghost use Rattle.forms.specs.Reading.{IsSexpOf};
ghost use Rattle.machine_table.specs.Grammar.{IsNumberOf, WritesTable};
ghost use Rattle.machine_table.specs.Reading.{DontFall, IsClearTableForm, IsCrossRead, IsTableFault};
ghost use Rattle.machine_table.specs.Roles as roles;
ghost use Rattle.machine_table.specs.Roles.{IsMachineFault};
ghost use Rattle.machine_table.specs.Tables.{IsTable};
ghost use Rattle.machine_table.specs.declared.tables.Table.{Table as TableOf};
ghost use Rattle.text_core.specs.Faults.{GivesUnlessMemory, IsFaultBy, IsFirst};

use crate::names::instr_number;
use crate::slots::{has_keyword, slots};
use crate::tables::{Slot, Table, Use};
use crate::uses::ops;
use forms::{at, number, parts, place, sexps_are_forms};
use items::Items;
use std::alloc::Global;
use text_core::{Kind, Sexp, TextFault};

/// The number of cycles between clusters.
fn delay(form: &Sexp, text: &[u8]) -> Result<u32, TextFault>
    requires of { IsSexpOf text.now form.now }
    ensures delay { IfOk result (λ n. IsNumberOf n (sexp_form text.now form.now)) }
    ensures below { IfOk result (λ n. n ≤ 4) }
    ensures clear { IfOk result (λ _. IsClearTableForm roles.delay (sexp_form text.now form.now)) }
    ensures fault { IfErr result (IsFaultBy (IsFirst (IsTableFault roles.delay (sexp_form text.now form.now)))) }
{
    sexps_are_forms();
    let Some(delay) = number(form) else {
        return Err(at(place(form), Kind::BadForm));
    };
    if delay > 4 {
        return Err(at(place(form), Kind::BadLatency));
    }
    Ok(delay as u32)
}

/// Reads `( cross NUMBER )`.
fn cross(form: &Sexp, text: &[u8]) -> Result<u32, TextFault>
    requires of { IsSexpOf text.now form.now }
    ensures cross { IfOk result (IsCrossRead (sexp_form text.now form.now)) }
    ensures fault { IfErr result (IsFaultBy (IsFirst (IsTableFault roles.cross (sexp_form text.now form.now)))) }
{
    sexps_are_forms();
    if !has_keyword(form, text, b"cross") {
        return Err(at(place(form), Kind::BadForm));
    }
    let Some(parts) = parts(form) else {
        return Err(at(place(form), Kind::BadForm));
    };
    if parts.len() < 2 {
        return Err(at(place(form), Kind::BadForm));
    }
    let delay = delay(&parts[1], text)?;
    if parts.len() > 2 {
        return Err(at(place(&parts[2]), Kind::BadForm));
    }
    Ok(delay)
}

/// The uses in the order of their instructions.
fn in_order(uses: Items<Use>) -> Items<Use>
    ensures same { IsPermutation uses result }
    ensures order { DontFall result }
{
    let mut sorted = uses.into_vec();
    sorted.sort_unstable_by_key(|one| instr_number(one.instr));
    Items::from(sorted)
}

fn read_table(alloc: Global, form: &Sexp, text: &[u8]) -> Result<Table, TextFault>
    requires of { IsSexpOf text.now form.now }
    ensures table { IfOk result (WritesTable (sexp_form text.now form.now)) }
    ensures is_table { IfOk result IsTable }
    ensures clear { IfOk result (λ _. IsClearTableForm roles.machine (sexp_form text.now form.now)) }
    ensures fault { IfErr result (IsFaultBy (IsFirst (IsMachineFault (sexp_form text.now form.now)))) }
{
    sexps_are_forms();
    if !has_keyword(form, text, b"machine") {
        return Err(at(place(form), Kind::BadForm));
    }
    let Some(parts) = parts(form) else {
        return Err(at(place(form), Kind::BadForm));
    };
    if parts.len() < 3 {
        return Err(at(place(form), Kind::BadForm));
    }
    let slots = slots(alloc, &parts[1], text)?;
    let cross = cross(&parts[2], text)?;
    let mut uses = Items::new(alloc);
    let slots_read = slots.as_slice();
    for index in 3..parts.len() {
        let part = &parts[index];
        ops(alloc, part, text, slots_read, &mut uses)?;
    }
    Ok(Table {
        slots,
        cross,
        uses: in_order(uses),
    })
}

/// Reads a machine form. The cost is the square of the slots and instructions that it names, which are few.
pub fn read(alloc: Global, form: &Sexp, text: &[u8]) -> Result<Table, TextFault>
    requires of { IsSexpOf text.now form.now }

    // What is read is in the grammar and within the limits, and what is in the grammar is read.
    ensures table { IfOk result (WritesTable (sexp_form text.now form.now)) }
    ensures is_table { IfOk result IsTable }
    ensures read { (table : TableOf) → WritesTable (sexp_form text.now form.now) table
        → GivesUnlessMemory (λ read. read ≡ table) result }

    // A form that is read has no fault, and of another form the first fault is answered.
    ensures clear { IfOk result (λ _. IsClearTableForm roles.machine (sexp_form text.now form.now)) }
    ensures fault { IfErr result (IsFaultBy (IsFirst (IsMachineFault (sexp_form text.now form.now)))) }
{
    read_table(alloc, form, text)
}
