// Reading the registers in which a code leaves the targets.
ghost use Rattle.std.specs.Prelude.{◌≡◌, ◌<◌, ◌^◌, ℕ, List, All, codes, length, map, false, Option, None, Some, IfOk, IfErr, MatchOption};
ghost use Rattle.text_core.specs.Faults.{IsFaultBy};
ghost use Rattle.text_core.specs.Names.{is_among};
ghost use Rattle.forms.specs.Forms.{sexp_form, sexp_forms};
ghost use Rattle.forms.specs.Reading.{IsSexpOf};
ghost use Rattle.goal_meaning.specs.Views.{target_view};
ghost use Rattle.goal_reader.specs.Grammar.{IsRegister};
ghost use Rattle.machine_table.specs.Grammar.{Each};
ghost use Rattle.code_check.specs.CodeGrammar.{WritesPlace};
ghost use Rattle.code_check.specs.CodeReading.{ArePlacesClear, IsClearCode, IsFirstCodeFault, IsFirstPlaceFault, IsFoundAt, IsFreshTarget};
ghost use Rattle.code_check.specs.CodeRoles as roles;
ghost use Rattle.code_check.specs.CodeRoles.{place_role, pin_named, target_in, targets_named, word_named};
ghost use Rattle.code_check.specs.Codes as rules;

use crate::codes::At;
use crate::comparing::is_memory_set;
use crate::heads::has_head;
use forms::{at, name, parts, place, register, sexps_are_forms};
use goal_meaning::Set;
use goal_reader::register_number;
use items::Items;
use std::alloc::Global;
use text_core::{Kind, Sexp, TextFault};

/// The number of the target of this name that is a word.
fn word_target(sets: &[Set], name: &[u8]) -> Option<u32>
    requires few { length sets.now < 2 ^ 32 }
    ensures { MatchOption result (word_named (map target_view sets.now) name.now ≡ None)
        (IsFoundAt (word_named (map target_view sets.now) name.now) (map target_view sets.now)) }
{
    for number in 0..sets.len() {
        let set = &sets[number];
        if !is_memory_set(set) && set.name.bytes() == name {
            return Some(number as u32);
        }
    }
    None
}

/// The name in the list of a place, where the list has all its parts.
fn named_target<'a>(form: &Sexp, text: &'a [u8]) -> Option<&'a [u8]>
    requires of { IsSexpOf text.now form.now }
    ensures { MatchOption result (target_in (sexp_form text.now form.now) ≡ None)
        (λ bytes. target_in (sexp_form text.now form.now) ≡ Some bytes.now) }
{
    sexps_are_forms();
    let Some(parts) = parts(form) else {
        return None;
    };
    if parts.len() < 3 {
        return None;
    }
    if !has_head(form, text, b"at") {
        return None;
    }
    name(&parts[1], text)
}

/// Whether some list of a place has the name.
fn is_named(forms: &[Sexp], text: &[u8], name: &[u8]) -> bool
    requires of { All (IsSexpOf text.now) forms.now }
    ensures { result ≡ is_among (targets_named (sexp_forms text.now forms.now)) name.now }
{
    for form in forms {
        if named_target(form, text) == Some(name) {
            return true;
        }
    }
    false
}

/// Whether some target that is a word has no place.
pub(crate) fn lacks_place(sets: &[Set], forms: &[Sexp], text: &[u8]) -> bool
    requires of { All (IsSexpOf text.now) forms.now }
    ensures { result ≡ roles.lacks_place (map target_view sets.now) (sexp_forms text.now forms.now) }
{
    for set in sets {
        if !is_memory_set(set) && !is_named(forms, text, set.name.bytes()) {
            return true;
        }
    }
    false
}

/// The number of a target that is a word and that none of the lists before names.
fn fresh_target(form: &Sexp, text: &[u8], sets: &[Set], before: &[Sexp]) -> Result<u32, TextFault>
    requires of { IsSexpOf text.now form.now }
    requires few { length sets.now < 2 ^ 32 }
    requires before { All (IsSexpOf text.now) before.now }
    ensures target { IfOk result (IsFreshTarget (map target_view sets.now) (sexp_forms text.now before.now)
        (sexp_form text.now form.now)) }
    ensures fault { IfErr result (IsFaultBy (IsFirstCodeFault (roles.target_name (map target_view sets.now)
        (targets_named (sexp_forms text.now before.now))) (sexp_form text.now form.now))) }
{
    sexps_are_forms();
    let Some(bytes) = name(form, text) else {
        return Err(at(place(form), Kind::BadForm));
    };
    let Some(set) = word_target(sets, bytes) else {
        return Err(at(place(form), Kind::UnknownName));
    };
    if is_named(before, text, bytes) {
        return Err(at(place(form), Kind::Twice));
    }
    Ok(set)
}

/// A register from 0 to 30, which is the pin where there is one.
fn place_register(form: &Sexp, text: &[u8], pin: Option<u8>) -> Result<u8, TextFault>
    requires of { IsSexpOf text.now form.now }
    ensures register { IfOk result (λ r. IsRegister r (sexp_form text.now form.now)) }
    ensures pinned { IfOk result (λ r. rules.is_other pin r ≡ false) }
    ensures fault { IfErr result (IsFaultBy (IsFirstCodeFault (roles.a_register pin) (sexp_form text.now form.now))) }
{
    sexps_are_forms();
    let Some(bytes) = register(form, text) else {
        return Err(at(place(form), Kind::BadForm));
    };
    let Some(number) = register_number(bytes) else {
        return Err(at(place(form), Kind::BadRegister));
    };
    match pin {
        Some(pin) if pin != number => Err(at(place(form), Kind::BadRegister)),
        _ => Ok(number),
    }
}

/// Reads `( at NAME REGISTER )`, behind other places.
fn read_place(form: &Sexp, text: &[u8], sets: &[Set], before: &[Sexp]) -> Result<At, TextFault>
    requires of { IsSexpOf text.now form.now }
    requires few { length sets.now < 2 ^ 32 }
    requires before { All (IsSexpOf text.now) before.now }
    ensures place { IfOk result (WritesPlace (map target_view sets.now) (sexp_form text.now form.now)) }
    ensures clear { IfOk result (λ _. IsClearCode (place_role (map target_view sets.now)
        (sexp_forms text.now before.now) (sexp_form text.now form.now)) (sexp_form text.now form.now)) }
    ensures fault { IfErr result (IsFaultBy (IsFirstCodeFault (place_role (map target_view sets.now)
        (sexp_forms text.now before.now) (sexp_form text.now form.now)) (sexp_form text.now form.now))) }
{
    sexps_are_forms();
    let Some(parts) = parts(form) else {
        return Err(at(place(form), Kind::BadForm));
    };
    if parts.len() < 3 {
        return Err(at(place(form), Kind::BadForm));
    }
    if !has_head(form, text, b"at") {
        return Err(at(place(form), Kind::BadForm));
    }
    let set = fresh_target(&parts[1], text, sets, before)?;
    let reg = place_register(&parts[2], text, sets[set as usize].pin)?;
    if parts.len() > 3 {
        return Err(at(place(&parts[3]), Kind::BadForm));
    }
    Ok(At { set, reg })
}

/// Reads the places of a code, which stand behind its words.
pub(crate) fn places(
    alloc: Global,
    forms: &[Sexp],
    text: &[u8],
    sets: &[Set],
) -> Result<Items<At>, TextFault>
    requires of { All (IsSexpOf text.now) forms.now }
    requires few { length sets.now < 2 ^ 32 }
    ensures places { IfOk result (Each (WritesPlace (map target_view sets.now)) (sexp_forms text.now forms.now)) }
    ensures clear { IfOk result (λ _. ArePlacesClear (map target_view sets.now) (sexp_forms text.now forms.now)
        (length forms.now)) }
    ensures fault { IfErr result (IsFaultBy (IsFirstPlaceFault (map target_view sets.now)
        (sexp_forms text.now forms.now))) }
{
    let mut places = Vec::new(alloc);
    for index in 0..forms.len() {
        let read = read_place(&forms[index], text, sets, &forms[..index])?;
        places.push(read)?;
    }
    Ok(Items::from(places))
}
