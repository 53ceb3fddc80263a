// The variables of an axiom: their names, and what they mean on either side.
ghost use Rattle.std.specs.Prelude.{◌≡◌, ◌≤◌, ◌<◌, ◌||◌, ◌++◌, IfOk, IfErr, false, true, length};
ghost use Rattle.text_core.specs.Limits.{most_variables};
ghost use Rattle.text_core.specs.Faults.{IsFirst, IsFaultBy};
ghost use Rattle.forms.specs.Forms.{sexp_form, is_list, parts_of, names_in};
ghost use Rattle.forms.specs.Reading.{IsSexpOf};
ghost use Rattle.goal_reader.specs.Grammar.{axiom_scope};
ghost use Rattle.goal_reader.specs.Reading.{IsClear, IsOwnName, mentioned_scope, meaning_right};
ghost use Rattle.goal_reader.specs.Roles as roles;
ghost use Rattle.goal_meaning.specs.Names as goal_names;
ghost use Rattle.text_core.specs.Names.{is_among};
ghost use Rattle.goal_reader.specs.Roles.{IsFaultAs, mentions as is_mentioned};
ghost use Rattle.goal_meaning.specs.Names.{names_of_declared};

use crate::inputs::{is_declared, is_reserved};
use crate::scopes::{Leaf, Named, Scope};
use forms::{at, name, parts, place, sexps_are_forms};
use goal_meaning::DeclaredOp;
use items::{Items, NoMemory};
use std::alloc::Global;
use text_core::{Kind, MOST_VARIABLES, Name, Sexp, TextFault};

fn is_variable(names: &[Name], name: &[u8]) -> bool
    ensures { result ≡ is_among names.now name.now }
{
    for other in names {
        if other.bytes() == name {
            return true;
        }
    }
    false
}

/// A name that no operator, no earlier variable and not the memory has.
fn variable_name<'a>(
    form: &Sexp,
    text: &'a [u8],
    declared: &[DeclaredOp],
    names: &[Name],
) -> Result<&'a [u8], TextFault>
    requires of { IsSexpOf text.now form.now }
    ensures ok { IfOk result (λ bytes. IsOwnName (names_of_declared declared.now ++ names.now)
        (sexp_form text.now form.now) bytes.now) }
    ensures fault { IfErr result (IsFaultBy (IsFirst (IsFaultAs (roles.own_name (names_of_declared declared.now
        ++ names.now)) (sexp_form text.now form.now)))) }
{
    sexps_are_forms();
    let Some(bytes) = name(form, text) else {
        return Err(at(place(form), Kind::BadForm));
    };
    if is_reserved(bytes) || is_declared(declared, bytes) || is_variable(names, bytes) {
        return Err(at(place(form), Kind::Twice));
    }
    Ok(bytes)
}

/// Reads `( NAME {NAME} )`, the variables of an axiom.
pub fn variables(
    alloc: Global,
    form: &Sexp,
    text: &[u8],
    declared: &[DeclaredOp],
) -> Result<Items<Name>, TextFault>
    requires of { IsSexpOf text.now form.now }
    ensures names { IfOk result (λ names. names ≡ names_in (parts_of (sexp_form text.now form.now))) }
    ensures list { IfOk result (λ _. is_list (sexp_form text.now form.now) ≡ true) }
    ensures few { IfOk result (λ names. length names ≤ most_variables) }
    ensures clear { IfOk result (λ _. IsClear (roles.a_list (roles.variables declared.now))
        (sexp_form text.now form.now)) }
    ensures fault { IfErr result (IsFaultBy (IsFirst (IsFaultAs (roles.a_list (roles.variables declared.now))
        (sexp_form text.now form.now)))) }
{
    sexps_are_forms();
    let Some(parts) = parts(form) else {
        return Err(at(place(form), Kind::BadForm));
    };
    if parts.is_empty() {
        return Err(at(place(form), Kind::BadForm));
    }
    let mut names = Items::new(alloc);
    for index in 0..parts.len() {
        let part = &parts[index];
        if index >= MOST_VARIABLES {
            return Err(at(place(part), Kind::LimitPassed));
        }
        let bytes = variable_name(part, text, declared, names.as_slice())?;
        names.push(Name::new(alloc, bytes)?)?;
    }
    Ok(names)
}

/// Whether the name stands in a term, other than as an operator.
fn mentions(form: &Sexp, text: &[u8], wanted: &[u8]) -> bool
    requires of { IsSexpOf text.now form.now }
    ensures { result ≡ is_mentioned wanted.now (sexp_form text.now form.now) }
{
    sexps_are_forms();
    match form {
        Sexp::Atom(_) => match name(form, text) {
            Some(bytes) => bytes == wanted,
            None => false,
        },
        Sexp::List { parts, .. } => {
            if parts.is_empty() {
                return false;
            }
            let operands = &parts[1..];
            for operand in operands {
                if mentions(operand, text, wanted) {
                    return true;
                }
            }
            false
        }
    }
}

/// What names mean on the left side of an axiom.
pub fn left_scope(
    alloc: Global,
    declared: Items<DeclaredOp>,
    names: &[Name],
) -> Result<Scope, NoMemory>
    requires few { length names.now ≤ most_variables }
    ensures { IfOk result (λ scope. scope ≡ axiom_scope declared names.now) }
{
    let mut leaves = Items::new(alloc);
    for index in 0..names.len() {
        let name = names[index].copy()?;
        let named = Named::Variable(index as u32);
        leaves.push(Leaf { name, named })?;
    }
    Ok(Scope { declared, leaves })
}

/// What names mean on the right side of an axiom: a variable that the left side lacks has a meaning of its own.
pub fn right_scope(
    alloc: Global,
    declared: Items<DeclaredOp>,
    names: &[Name],
    left: &Sexp,
    text: &[u8],
) -> Result<Scope, NoMemory>
    requires few { length names.now ≤ most_variables }
    requires of { IsSexpOf text.now left.now }
    ensures { IfOk result (λ scope. scope ≡ mentioned_scope declared names.now (sexp_form text.now left.now)) }
{
    let mut leaves = Items::new(alloc);
    for index in 0..names.len() {
        let named = if mentions(left, text, names[index].bytes()) {
            Named::Variable(index as u32)
        } else {
            Named::Lacking
        };
        let name = names[index].copy()?;
        leaves.push(Leaf { name, named })?;
    }
    Ok(Scope { declared, leaves })
}
