// Reading the guard and the sets of a block.
ghost use Rattle.std.specs.Prelude.{◌≡◌, ◌≤◌, ◌∷◌, ◌++◌, [], ℕ, List, All, length, map, option_map, codes, bytes_eq, true, false, Some, IfOk, IfErr, MatchOption};
ghost use Rattle.text_core.specs.Limits.{most_blocks};
ghost use Rattle.text_core.specs.Faults.{IsFaultBy};
ghost use Rattle.text_core.specs.Names.{is_among};
ghost use Rattle.forms.specs.Forms.{Form, name_in, sexp_form, sexp_forms};
ghost use Rattle.forms.specs.Reading.{IsSexpOf};
ghost use Rattle.machine_table.specs.Roles as table_roles;
ghost use Rattle.goal_meaning.specs.Views.{target_view};
ghost use Rattle.goal_meaning.specs.WellFormed.{sort_of_target};
ghost use Rattle.goal_reader.specs.Reading.{names_of_inputs, names_of_targets};
ghost use Rattle.proc_goal.specs.ProcGrammar.{WritesSet, WritesWhen};
ghost use Rattle.proc_goal.specs.ProcReading.{AreSets, IsClearProc, IsFirstAmong, IsFirstAs, IsGuardFault, IsGuardFront, IsGuardRead, IsNameToSet};
ghost use Rattle.proc_goal.specs.ProcRoles as roles;
ghost use Rattle.proc_goal.specs.ProcRoles.{step_role};
ghost use Rattle.proc_goal.specs.Views.{when_view};
ghost use Rattle.proc_goal.specs.WellFormed.{IsPinned};

use crate::heads::has_head;
use crate::procs::When;
use crate::targets::target;
use forms::{at, name, parts, place, sexps_are_forms};
use goal_meaning::{InputReg, Set};
use goal_reader::{read_term, terms_have_one_reading};
use items::Items;
use std::alloc::Global;
use text_core::{Kind, MOST_SETS, Name, Sexp, TextFault};
use word_ops::Sort;

fn is_memory(name: &[u8]) -> bool
    ensures { result ≡ bytes_eq name.now (codes "M") }
{
    name == b"M".as_slice()
}

fn sort_wanted(name: &[u8]) -> Sort
    ensures { result ≡ sort_of_target name.now }
{
    if is_memory(name) {
        return Sort::Memory;
    }
    Sort::Word
}

/// The register of the variable of this name.
fn register_of(vars: &[InputReg], name: &[u8]) -> Option<u8>
    ensures { MatchOption result (is_among (names_of_inputs vars.now) name.now ≡ false)
        (λ register. IsPinned vars.now name.now (Some register)) }
{
    for var in vars {
        if var.name.bytes() == name {
            return Some(var.reg);
        }
    }
    None
}

fn is_set(sets: &[Set], name: &[u8]) -> bool
    ensures { result ≡ is_among (names_of_targets sets.now) name.now }
{
    for set in sets {
        if set.name.bytes() == name {
            return true;
        }
    }
    false
}

/// The pin of what has this name: none for the memory, and the register of a variable. Nothing else can be set.
fn pin_of(vars: &[InputReg], name: &[u8]) -> Option<Option<u8>>
    ensures { MatchOption result (is_among (roles.names_to_set vars.now) name.now ≡ false)
        (IsPinned vars.now name.now) }
{
    if is_memory(name) {
        return Some(None);
    }
    match register_of(vars, name) {
        Some(register) => Some(Some(register)),
        None => None,
    }
}

/// Reads the name of what is set, the memory or a variable, and gives its pin.
fn name_to_set<'a>(
    form: &Sexp,
    text: &'a [u8],
    vars: &[InputReg],
    before: &[Set],
) -> Result<(&'a [u8], Option<u8>), TextFault>
    requires of { IsSexpOf text.now form.now }
    ensures named { IfOk result (λ read. IsNameToSet vars.now (names_of_targets before.now)
        (sexp_form text.now form.now) read.0.now read.1) }
    ensures fault { IfErr result (IsFaultBy (IsFirstAs (roles.set_name vars.now (names_of_targets before.now))
        (sexp_form text.now form.now))) }
{
    sexps_are_forms();
    let Some(bytes) = name(form, text) else {
        return Err(at(place(form), Kind::BadForm));
    };
    let Some(pin) = pin_of(vars, bytes) else {
        return Err(at(place(form), Kind::UnknownName));
    };
    if is_set(before, bytes) {
        return Err(at(place(form), Kind::Twice));
    }
    Ok((bytes, pin))
}

/// Reads `( set NAME term )`, behind these sets.
fn set(
    alloc: Global,
    form: &Sexp,
    text: &[u8],
    vars: &[InputReg],
    before: &[Set],
) -> Result<Set, TextFault>
    requires of { IsSexpOf text.now form.now }
    requires head { table_roles.has_head (codes "set") (sexp_form text.now form.now) ≡ true }
    ensures set { IfOk result (λ s. WritesSet vars.now (sexp_form text.now form.now) (target_view s)) }
    ensures fresh { IfOk result (λ s. is_among (names_of_targets before.now) s.name ≡ false) }
    ensures clear { IfOk result (λ _. IsClearProc (roles.a_set vars.now (names_of_targets before.now))
        (sexp_form text.now form.now)) }
    ensures fault { IfErr result (IsFaultBy (IsFirstAs (roles.a_set vars.now (names_of_targets before.now))
        (sexp_form text.now form.now))) }
{
    sexps_are_forms();
    terms_have_one_reading();
    let Some(parts) = parts(form) else {
        unreachable!();
    };
    if parts.len() < 3 {
        return Err(at(place(form), Kind::BadForm));
    }
    let named = name_to_set(&parts[1], text, vars, before)?;
    let (bytes, pin) = named;
    let value = read_term(alloc, &parts[2], text, vars, sort_wanted(bytes))?;
    if parts.len() > 3 {
        return Err(at(place(&parts[3]), Kind::BadForm));
    }
    let name = Name::new(alloc, bytes)?;
    Ok(Set { name, value, pin })
}

/// Reads the sets at the front of a block's items behind its guard.
pub(crate) fn sets(
    alloc: Global,
    items: &[Sexp],
    text: &[u8],
    vars: &[InputReg],
) -> Result<Items<Set>, TextFault>
    requires of { All (IsSexpOf text.now) items.now }
    ensures sets { IfOk result (λ sets. AreSets vars.now (sexp_forms text.now items.now) (map target_view sets)) }
    ensures fault { IfErr result (λ fault. (names : List (List ℕ)) (front : List Form) → IsGuardFront front
        → IsFaultBy (IsFirstAmong (λ before form. step_role vars.now names (front ++ before) form)
        (sexp_forms text.now items.now)) fault) }
{
    sexps_are_forms();
    let mut sets = Items::new(alloc);
    for index in 0..items.len() {
        let item = &items[index];
        if !has_head(item, text, b"set") {
            return Ok(sets);
        }
        if index >= MOST_SETS {
            return Err(at(place(item), Kind::LimitPassed));
        }
        let one = set(alloc, item, text, vars, sets.as_slice())?;
        sets.push(one)?;
    }
    Ok(sets)
}

/// Reads `( when term TARGET )`.
fn guard(
    alloc: Global,
    form: &Sexp,
    text: &[u8],
    vars: &[InputReg],
    names: &[Name],
) -> Result<When, TextFault>
    requires of { IsSexpOf text.now form.now }
    requires head { table_roles.has_head (codes "when") (sexp_form text.now form.now) ≡ true }
    requires few { length names.now ≤ most_blocks }
    ensures when { IfOk result (λ w. WritesWhen vars.now names.now (sexp_form text.now form.now ∷ [])
        (Some (when_view w))) }
    ensures clear { IfOk result (λ _. IsClearProc (roles.a_guard vars.now names.now) (sexp_form text.now form.now)) }
    ensures fault { IfErr result (IsFaultBy (IsFirstAs (roles.a_guard vars.now names.now)
        (sexp_form text.now form.now))) }
{
    sexps_are_forms();
    terms_have_one_reading();
    let Some(parts) = parts(form) else {
        unreachable!();
    };
    if parts.len() < 3 {
        return Err(at(place(form), Kind::BadForm));
    }
    let guard = read_term(alloc, &parts[1], text, vars, Sort::Word)?;
    let other = target(&parts[2], text, names)?;
    if parts.len() > 3 {
        return Err(at(place(&parts[3]), Kind::BadForm));
    }
    Ok(When { guard, other })
}

/// Reads the guard of a block, where the first of its items is one.
pub(crate) fn first_guard(
    alloc: Global,
    items: &[Sexp],
    text: &[u8],
    vars: &[InputReg],
    names: &[Name],
) -> Result<Option<When>, TextFault>
    requires of { All (IsSexpOf text.now) items.now }
    requires few { length names.now ≤ most_blocks }
    ensures guard { IfOk result (λ when. IsGuardRead vars.now names.now (sexp_forms text.now items.now)
        (option_map when_view when)) }
    ensures fault { IfErr result (IsFaultBy (IsGuardFault vars.now names.now (sexp_forms text.now items.now))) }
{
    let Some(item) = items.first() else {
        return Ok(None);
    };
    if !has_head(item, text, b"when") {
        return Ok(None);
    }
    Ok(Some(guard(alloc, item, text, vars, names)?))
}
