// Reading the slots of a machine form.
ghost use Rattle.std.specs.Prelude.{◌≡◌, ◌≤◌, IfOk, IfErr};
ghost use Rattle.forms.specs.Forms.{sexp_form};
ghost use Rattle.forms.specs.Reading.{IsSexpOf};
ghost use Rattle.machine_table.specs.Grammar.{IsNumberOf};
ghost use Rattle.machine_table.specs.Reading.{AreSlotsRead, IsClearTableForm, IsTableFault, IsSlotRead, slot_names};
ghost use Rattle.machine_table.specs.Roles as roles;
ghost use Rattle.text_core.specs.Names.{is_among};
ghost use Rattle.machine_table.specs.Roles.{has_head};
ghost use Rattle.text_core.specs.Faults.{IsFaultBy, IsFirst};

use crate::tables::Slot;
use forms::{at, name, number, parts, place, sexps_are_forms};
use items::Items;
use std::alloc::Global;
use text_core::{Kind, Name, Sexp, TextFault};

/// Whether the form is a list that begins with this name.
pub fn has_keyword(form: &Sexp, text: &[u8], keyword: &[u8]) -> bool
    requires of { IsSexpOf text.now form.now }
    ensures { result ≡ has_head keyword.now (sexp_form text.now form.now) }
{
    let Some(parts) = parts(form) else {
        return false;
    };
    if parts.is_empty() {
        return false;
    }
    match name(&parts[0], text) {
        Some(bytes) => bytes == keyword,
        None => false,
    }
}

fn is_slot(slots: &[Slot], name: &[u8]) -> bool
    ensures { result ≡ is_among (slot_names slots.now) name.now }
{
    for slot in slots {
        if slot.name.bytes() == name {
            return true;
        }
    }
    false
}

/// The number of a slot's cluster.
fn cluster(form: &Sexp, text: &[u8]) -> Result<u8, TextFault>
    requires of { IsSexpOf text.now form.now }
    ensures cluster { IfOk result (λ n. IsNumberOf n (sexp_form text.now form.now)) }
    ensures below { IfOk result (λ n. n ≤ 3) }
    ensures clear { IfOk result (λ _. IsClearTableForm roles.cluster (sexp_form text.now form.now)) }
    ensures fault { IfErr result (IsFaultBy (IsFirst (IsTableFault roles.cluster (sexp_form text.now form.now)))) }
{
    sexps_are_forms();
    let Some(cluster) = number(form) else {
        return Err(at(place(form), Kind::BadForm));
    };
    if cluster > 3 {
        return Err(at(place(form), Kind::BadSlot));
    }
    Ok(cluster as u8)
}

/// Reads `( NAME NUMBER )`, given the slots before it.
fn slot(alloc: Global, form: &Sexp, text: &[u8], slots: &[Slot]) -> Result<Slot, TextFault>
    requires of { IsSexpOf text.now form.now }
    ensures slot { IfOk result (IsSlotRead (slot_names slots.now) (sexp_form text.now form.now)) }
    ensures fault { IfErr result (IsFaultBy (IsFirst
        (IsTableFault (roles.slot (slot_names slots.now)) (sexp_form text.now form.now)))) }
{
    sexps_are_forms();
    let Some(parts) = parts(form) else {
        return Err(at(place(form), Kind::BadForm));
    };
    if parts.len() < 2 {
        return Err(at(place(form), Kind::BadForm));
    }
    let first = &parts[0];
    let Some(bytes) = name(first, text) else {
        return Err(at(place(first), Kind::BadForm));
    };
    if is_slot(slots, bytes) {
        return Err(at(place(form), Kind::BadSlot));
    }
    let cluster = cluster(&parts[1], text)?;
    if parts.len() > 2 {
        return Err(at(place(&parts[2]), Kind::BadForm));
    }
    let name = Name::new(alloc, bytes)?;
    Ok(Slot { name, cluster })
}

/// The fault of what stands behind eight slots.
fn ninth_slot(form: &Sexp, text: &[u8]) -> TextFault
    requires of { IsSexpOf text.now form.now }
    ensures { IsFaultBy (IsFirst (IsTableFault roles.ninth_slot (sexp_form text.now form.now))) result }
{
    sexps_are_forms();
    match parts(form) {
        Some(_parts) => at(place(form), Kind::BadSlot),
        None => at(place(form), Kind::BadForm),
    }
}

/// Reads `( slots {slot} )`.
pub fn slots(alloc: Global, form: &Sexp, text: &[u8]) -> Result<Items<Slot>, TextFault>
    requires of { IsSexpOf text.now form.now }
    ensures slots { IfOk result (AreSlotsRead (sexp_form text.now form.now)) }
    ensures fault { IfErr result (IsFaultBy (IsFirst (IsTableFault roles.slots (sexp_form text.now form.now)))) }
{
    sexps_are_forms();
    if !has_keyword(form, text, b"slots") {
        return Err(at(place(form), Kind::BadForm));
    }
    let Some(parts) = parts(form) else {
        return Err(at(place(form), Kind::BadForm));
    };
    if parts.len() < 2 {
        return Err(at(place(form), Kind::BadSlot));
    }
    let mut slots = Items::new(alloc);
    for index in 1..parts.len() {
        let part = &parts[index];
        if index > 8 {
            return Err(ninth_slot(part, text));
        }
        let slot = slot(alloc, part, text, slots.as_slice())?;
        slots.push(slot)?;
    }
    Ok(slots)
}
