// Reading the targets of a goal.
ghost use Rattle.std.specs.Prelude.{◌≡◌, ◌≤◌, ◌++◌, length, All, IfOk, IfErr, Some, true, false, codes, bytes_eq};
ghost use Rattle.text_core.specs.Limits.{most_declared};
ghost use Rattle.word_terms.specs.View.{tree_of};
ghost use Rattle.text_core.specs.Faults.{IsFirst, IsFaultBy};
ghost use Rattle.forms.specs.Forms.{sexp_form, sexp_forms, list, forms_from, place_of, name_in};
ghost use Rattle.forms.specs.Reading.{IsSexpOf};
ghost use Rattle.goal_reader.specs.Roles as roles;
ghost use Rattle.text_core.specs.Names.{is_among};
ghost use Rattle.goal_reader.specs.Roles.{IsFaultAs, is_of_rank, goal_keywords, is_pinned, pin_in, pin_role, register_of, second_name, value_part};
ghost use Rattle.goal_meaning.specs.Rules.{has_register};
ghost use Rattle.goal_reader.specs.Reading.{IsClear, WritesPart, names_of_targets, pins_of_targets};
ghost use Rattle.goal_meaning.specs.WellFormed.{sort_of_target};

use crate::inputs::register_read;
use crate::pools::is_in_pool;
use crate::scopes::Scope;
use crate::terms::term;
use forms::{at, name, parts, place, register, sexps_are_forms};
use goal_meaning::Set;
use std::alloc::Global;
use text_core::{Kind, Name, Sexp, TextFault};
use word_ops::Sort;

fn is_target(targets: &[Set], name: &[u8]) -> bool
    ensures { result ≡ is_among (names_of_targets targets.now) name.now }
{
    for target in targets {
        if target.name.bytes() == name {
            return true;
        }
    }
    false
}

// A name that no earlier target has.
fn target_name<'a>(form: &Sexp, text: &'a [u8], targets: &[Set]) -> Result<&'a [u8], TextFault>
    requires of { IsSexpOf text.now form.now }
    ensures named { IfOk result (λ bytes. name_in (sexp_form text.now form.now) ≡ Some bytes.now) }
    ensures fresh { IfOk result (λ bytes. is_among (names_of_targets targets.now) bytes.now ≡ false) }
    ensures fault { IfErr result (IsFaultBy (IsFirst (IsFaultAs (roles.fresh_name (names_of_targets targets.now))
        (sexp_form text.now form.now)))) }
{
    sexps_are_forms();
    let Some(bytes) = name(form, text) else {
        return Err(at(place(form), Kind::BadForm));
    };
    if is_target(targets, bytes) {
        return Err(at(place(form), Kind::Twice));
    }
    Ok(bytes)
}

fn sort_wanted(name: &[u8]) -> Sort
    ensures { result ≡ sort_of_target name.now }
{
    if name == b"M".as_slice() {
        return Sort::Memory;
    }
    Sort::Word
}

pub fn is_pin(targets: &[Set], register: u8) -> bool
    ensures { result ≡ has_register (pins_of_targets targets.now) register }
{
    for target in targets {
        if let Some(pin) = target.pin {
            if pin == register {
                return true;
            }
        }
    }
    false
}

// The register to which the target of this name is pinned, which neither the pool nor an earlier target has.
fn target_pin(
    form: &Sexp,
    text: &[u8],
    name: &[u8],
    pool: &[u8],
    targets: &[Set],
) -> Result<u8, TextFault>
    requires of { IsSexpOf text.now form.now }
    ensures word { IfOk result (λ _. bytes_eq name.now (codes "M") ≡ false) }
    ensures register { IfOk result (λ r. register_of (sexp_form text.now form.now) ≡ Some r) }
    ensures fresh { IfOk result (λ r. has_register (pool.now ++ pins_of_targets targets.now) r ≡ false) }
    ensures fault { IfErr result (IsFaultBy (IsFirst (IsFaultAs (pin_role (pool.now ++ pins_of_targets targets.now)
        (Some name.now)) (sexp_form text.now form.now)))) }
{
    sexps_are_forms();
    if name == b"M".as_slice() {
        return Err(at(place(form), Kind::BadForm));
    }
    let number = register_read(form, text)?;
    if is_in_pool(pool, number) || is_pin(targets, number) {
        return Err(at(place(form), Kind::Twice));
    }
    Ok(number)
}

// Reads `( set NAME term )`.
fn unpinned(
    alloc: Global,
    form: &Sexp,
    parts: &[Sexp],
    text: &[u8],
    scope: &Scope,
    pool: &[u8],
    targets: &[Set],
) -> Result<Set, TextFault>
    requires of { IsSexpOf text.now form.now }
    requires each { All (IsSexpOf text.now) parts.now }
    requires listed { sexp_form text.now form.now
        ≡ list (place_of (sexp_form text.now form.now)) (forms_from (sexp_forms text.now parts.now)) }
    requires enough { 3 ≤ length parts.now }
    requires unpinned { is_pinned (sexp_form text.now form.now) ≡ false }
    requires few { length scope.now.declared ≤ most_declared }
    ensures named { IfOk result (λ t. second_name (sexp_form text.now form.now) ≡ Some t.name) }
    ensures pin { IfOk result (λ t. pin_in (sexp_form text.now form.now) ≡ t.pin) }
    ensures value { IfOk result (λ t. WritesPart scope.now (Some (sort_of_target t.name))
        (sexp_form text.now form.now) (value_part (sexp_form text.now form.now)) (tree_of t.value)) }
    ensures clear { IfOk result (λ _. IsClear (roles.a_list (roles.set scope.now (names_of_targets targets.now)
        (pool.now ++ pins_of_targets targets.now))) (sexp_form text.now form.now)) }
    ensures fault { IfErr result (IsFaultBy (IsFirst (IsFaultAs (roles.a_list (roles.set scope.now
        (names_of_targets targets.now) (pool.now ++ pins_of_targets targets.now))) (sexp_form text.now form.now)))) }
{
    sexps_are_forms();
    let bytes = target_name(&parts[1], text, targets)?;
    let sort = sort_wanted(bytes);
    let value = term(alloc, &parts[2], text, scope, Some(sort))?;
    if parts.len() > 3 {
        return Err(at(place(&parts[3]), Kind::BadForm));
    }
    let name = Name::new(alloc, bytes)?;
    let pin = None;
    Ok(Set { name, value, pin })
}

// Reads `( set NAME REGISTER term )`.
fn pinned(
    alloc: Global,
    form: &Sexp,
    parts: &[Sexp],
    text: &[u8],
    scope: &Scope,
    pool: &[u8],
    targets: &[Set],
) -> Result<Set, TextFault>
    requires of { IsSexpOf text.now form.now }
    requires each { All (IsSexpOf text.now) parts.now }
    requires listed { sexp_form text.now form.now
        ≡ list (place_of (sexp_form text.now form.now)) (forms_from (sexp_forms text.now parts.now)) }
    requires pinned { is_pinned (sexp_form text.now form.now) ≡ true }
    requires few { length scope.now.declared ≤ most_declared }
    ensures named { IfOk result (λ t. second_name (sexp_form text.now form.now) ≡ Some t.name) }
    ensures pin { IfOk result (λ t. pin_in (sexp_form text.now form.now) ≡ t.pin) }
    ensures value { IfOk result (λ t. WritesPart scope.now (Some (sort_of_target t.name))
        (sexp_form text.now form.now) (value_part (sexp_form text.now form.now)) (tree_of t.value)) }
    ensures clear { IfOk result (λ _. IsClear (roles.a_list (roles.set scope.now (names_of_targets targets.now)
        (pool.now ++ pins_of_targets targets.now))) (sexp_form text.now form.now)) }
    ensures fault { IfErr result (IsFaultBy (IsFirst (IsFaultAs (roles.a_list (roles.set scope.now
        (names_of_targets targets.now) (pool.now ++ pins_of_targets targets.now))) (sexp_form text.now form.now)))) }
{
    sexps_are_forms();
    if parts.len() < 4 {
        return Err(at(place(form), Kind::BadForm));
    }
    let bytes = target_name(&parts[1], text, targets)?;
    let register = target_pin(&parts[2], text, bytes, pool, targets)?;
    let sort = sort_wanted(bytes);
    let value = term(alloc, &parts[3], text, scope, Some(sort))?;
    if parts.len() > 4 {
        return Err(at(place(&parts[4]), Kind::BadForm));
    }
    let name = Name::new(alloc, bytes)?;
    let pin = Some(register);
    Ok(Set { name, value, pin })
}

/// Reads `( set NAME [REGISTER] term )`, given the pool and the targets before it.
pub fn target(
    alloc: Global,
    form: &Sexp,
    text: &[u8],
    scope: &Scope,
    pool: &[u8],
    targets: &[Set],
) -> Result<Set, TextFault>
    requires of { IsSexpOf text.now form.now }
    requires few { length scope.now.declared ≤ most_declared }
    requires keyword { is_of_rank goal_keywords 5 (sexp_form text.now form.now) ≡ true }
    ensures named { IfOk result (λ t. second_name (sexp_form text.now form.now) ≡ Some t.name) }
    ensures pin { IfOk result (λ t. pin_in (sexp_form text.now form.now) ≡ t.pin) }
    ensures value { IfOk result (λ t. WritesPart scope.now (Some (sort_of_target t.name))
        (sexp_form text.now form.now) (value_part (sexp_form text.now form.now)) (tree_of t.value)) }
    ensures clear { IfOk result (λ _. IsClear (roles.a_list (roles.set scope.now (names_of_targets targets.now)
        (pool.now ++ pins_of_targets targets.now))) (sexp_form text.now form.now)) }
    ensures fault { IfErr result (IsFaultBy (IsFirst (IsFaultAs (roles.a_list (roles.set scope.now
        (names_of_targets targets.now) (pool.now ++ pins_of_targets targets.now))) (sexp_form text.now form.now)))) }
{
    sexps_are_forms();
    let Some(parts) = parts(form) else {
        unreachable!();
    };
    if parts.len() < 3 {
        return Err(at(place(form), Kind::BadForm));
    }
    match register(&parts[2], text) {
        Some(_) => pinned(alloc, form, parts, text, scope, pool, targets),
        None => unpinned(alloc, form, parts, text, scope, pool, targets),
    }
}
