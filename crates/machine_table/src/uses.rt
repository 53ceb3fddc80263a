// Reading the `ops` lists of a machine form.
ghost use Rattle.std.specs.Prelude.{◌≡◌, ◌≤◌, IfOk, IfErr, OnOk, MatchOption, false};
ghost use Rattle.forms.specs.Forms.{sexp_form};
ghost use Rattle.forms.specs.Reading.{IsSexpOf};
ghost use Rattle.machine_table.specs.Grammar.{IsNumberOf};
ghost use Rattle.machine_table.specs.InstrOrder.{instr_name};
ghost use Rattle.machine_table.specs.Reading.{AreSlotNumbers, AreOpsRead, AreSlots, AreUsedRead, AreUses, IsClearTableForm, IsTableFault, IsInstrRead, IsNameAt, IsUsedRead, slot_names, names_of_uses, slot_names_used};
ghost use Rattle.machine_table.specs.Roles as roles;
ghost use Rattle.text_core.specs.Names.{is_among};
ghost use Rattle.text_core.specs.Faults.{IsFaultBy, IsFirst};

use crate::names::{instr_name, instr_of};
use crate::slots::has_keyword;
use crate::tables::{InstrKind, Slot, Use};
use forms::{at, name, number, parts, place, sexps_are_forms};
use items::Items;
use std::alloc::Global;
use text_core::{Kind, Sexp, TextFault};

/// How many cycles an instruction takes.
fn latency(form: &Sexp, text: &[u8]) -> Result<u32, TextFault>
    requires of { IsSexpOf text.now form.now }
    ensures latency { IfOk result (λ n. IsNumberOf n (sexp_form text.now form.now)) }
    ensures within { IfOk result (λ n. (1 ≤ n) × (n ≤ 16)) }
    ensures clear { IfOk result (λ _. IsClearTableForm roles.latency (sexp_form text.now form.now)) }
    ensures fault { IfErr result (IsFaultBy (IsFirst (IsTableFault roles.latency (sexp_form text.now form.now)))) }
{
    sexps_are_forms();
    let Some(latency) = number(form) else {
        return Err(at(place(form), Kind::BadForm));
    };
    if latency == 0 || latency > 16 {
        return Err(at(place(form), Kind::BadLatency));
    }
    Ok(latency as u32)
}

/// The number of the first slot of this name.
fn slot_of(slots: &[Slot], name: &[u8]) -> Option<u32>
    requires { AreSlots slots.now }
    ensures { MatchOption result (is_among (slot_names slots.now) name.now ≡ false) (IsNameAt slots.now name.now) }
{
    for number in 0..slots.len() {
        if slots[number].name.bytes() == name {
            return Some(number as u32);
        }
    }
    None
}

/// The number of a slot, behind these.
fn used_slot(form: &Sexp, text: &[u8], slots: &[Slot], used: &[u32]) -> Result<u32, TextFault>
    requires of { IsSexpOf text.now form.now }
    requires slots { AreSlots slots.now }
    requires used { AreSlotNumbers slots.now used.now }
    ensures used { IfOk result (IsUsedRead slots.now used.now (sexp_form text.now form.now)) }
    ensures fault { IfErr result (IsFaultBy (IsFirst (IsTableFault
        (roles.used_slot (slot_names slots.now) (slot_names_used slots.now used.now)) (sexp_form text.now form.now)))) }
{
    sexps_are_forms();
    let Some(bytes) = name(form, text) else {
        return Err(at(place(form), Kind::BadForm));
    };
    let Some(slot) = slot_of(slots, bytes) else {
        return Err(at(place(form), Kind::BadSlot));
    };
    if used.contains(&slot) {
        return Err(at(place(form), Kind::BadSlot));
    }
    Ok(slot)
}

/// Reads `( {NAME} )`, the slots that the instructions of an `ops` list may be launched in.
fn used_slots(
    alloc: Global,
    form: &Sexp,
    text: &[u8],
    slots: &[Slot],
) -> Result<Items<u32>, TextFault>
    requires of { IsSexpOf text.now form.now }
    requires slots { AreSlots slots.now }
    ensures used { IfOk result (AreUsedRead slots.now (sexp_form text.now form.now)) }
    ensures fault { IfErr result (IsFaultBy (IsFirst
        (IsTableFault (roles.used_slots (slot_names slots.now)) (sexp_form text.now form.now)))) }
{
    sexps_are_forms();
    let Some(parts) = parts(form) else {
        return Err(at(place(form), Kind::BadForm));
    };
    if parts.is_empty() {
        return Err(at(place(form), Kind::BadSlot));
    }
    let mut used = Items::new(alloc);
    for index in 0..parts.len() {
        let part = &parts[index];
        let slot = used_slot(part, text, slots, used.as_slice())?;
        used.push(slot)?;
    }
    Ok(used)
}

fn is_named(uses: &[Use], name: &[u8]) -> bool
    ensures { result ≡ is_among (names_of_uses uses.now) name.now }
{
    for one in uses {
        if instr_name(one.instr) == name {
            return true;
        }
    }
    false
}

/// The instruction of a name, behind these uses.
fn instr(form: &Sexp, text: &[u8], uses: &[Use]) -> Result<InstrKind, TextFault>
    requires of { IsSexpOf text.now form.now }
    ensures instr { IfOk result (IsInstrRead (names_of_uses uses.now) (sexp_form text.now form.now)) }
    ensures fault { IfErr result (IsFaultBy (IsFirst
        (IsTableFault (roles.instr (names_of_uses uses.now)) (sexp_form text.now form.now)))) }
{
    sexps_are_forms();
    let Some(bytes) = name(form, text) else {
        return Err(at(place(form), Kind::BadForm));
    };
    let Some(instr) = instr_of(bytes) else {
        return Err(at(place(form), Kind::UnknownName));
    };
    if is_named(uses, bytes) {
        return Err(at(place(form), Kind::OpTwice));
    }
    Ok(instr)
}

/// Reads `( ops NUMBER ( {NAME} ) NAME {NAME} )`, given the uses before it, and adds a use for each of its
/// instructions.
pub fn ops(
    alloc: Global,
    form: &Sexp,
    text: &[u8],
    slots: &[Slot],
    uses: &mut Items<Use>,
) -> Result<(), TextFault>
    requires of { IsSexpOf text.now form.now }
    requires slots { AreSlots slots.now }
    requires uses { AreUses slots.now uses.old }
    ensures ops { OnOk result (AreOpsRead slots.now uses.old (sexp_form text.now form.now) uses.new) }
    ensures fault { IfErr result (IsFaultBy (IsFirst
        (IsTableFault (roles.ops (slot_names slots.now) (names_of_uses uses.old)) (sexp_form text.now form.now)))) }
{
    sexps_are_forms();
    if !has_keyword(form, text, b"ops") {
        return Err(at(place(form), Kind::BadForm));
    }
    let Some(parts) = parts(form) else {
        return Err(at(place(form), Kind::BadForm));
    };
    if parts.len() < 4 {
        return Err(at(place(form), Kind::BadForm));
    }
    let latency = latency(&parts[1], text)?;
    let used = used_slots(alloc, &parts[2], text, slots)?;
    let numbers = used.as_slice();
    for index in 3..parts.len() {
        let part = &parts[index];
        let instr = instr(part, text, uses.as_slice())?;
        uses.push(Use {
            instr,
            latency,
            slots: Items::from_slice(alloc, numbers)?,
        })?;
    }
    Ok(())
}
