// Reading the declaration of an operator.
ghost use Rattle.std.specs.Prelude.{◌≡◌, ◌||◌, IfOk, IfErr, Some};
ghost use Rattle.text_core.specs.Faults.{IsFirst, IsFaultBy};
ghost use Rattle.forms.specs.Forms.{sexp_form};
ghost use Rattle.forms.specs.Reading.{IsSexpOf};
ghost use Rattle.goal_reader.specs.Roles as roles;
ghost use Rattle.goal_meaning.specs.Names as goal_names;
ghost use Rattle.text_core.specs.Names.{is_among};
ghost use Rattle.goal_reader.specs.Roles.{IsFaultAs, declaration_in, arity_named};
ghost use Rattle.goal_meaning.specs.Names.{names_of_declared};
ghost use Rattle.goal_reader.specs.Reading.{IsClear, IsOwnName, IsArityOf};

use crate::inputs::{is_declared, is_reserved};
use forms::{at, name, number, parts, place, sexps_are_forms};
use goal_meaning::DeclaredOp;
use std::alloc::Global;
use text_core::{Kind, Name, Sexp, TextFault};
use word_ops::Arity;

// A name that no operator and not the memory has.
fn operator_name<'a>(
    form: &Sexp,
    text: &'a [u8],
    declared: &[DeclaredOp],
) -> Result<&'a [u8], TextFault>
    requires of { IsSexpOf text.now form.now }
    ensures ok { IfOk result (λ bytes. IsOwnName (names_of_declared declared.now)
        (sexp_form text.now form.now) bytes.now) }
    ensures fault { IfErr result (IsFaultBy (IsFirst (IsFaultAs (roles.own_name (names_of_declared declared.now))
        (sexp_form text.now form.now)))) }
{
    sexps_are_forms();
    let Some(bytes) = name(form, text) else {
        return Err(at(place(form), Kind::BadForm));
    };
    if is_reserved(bytes) || is_declared(declared, bytes) {
        return Err(at(place(form), Kind::Twice));
    }
    Ok(bytes)
}

// The number of operands of a declared operator.
fn arity(form: &Sexp, text: &[u8]) -> Result<Arity, TextFault>
    requires of { IsSexpOf text.now form.now }
    ensures arity { IfOk result (IsArityOf (sexp_form text.now form.now)) }
    ensures clear { IfOk result (λ _. IsClear roles.an_arity (sexp_form text.now form.now)) }
    ensures fault { IfErr result (IsFaultBy (IsFirst (IsFaultAs roles.an_arity (sexp_form text.now form.now)))) }
{
    sexps_are_forms();
    let Some(count) = number(form) else {
        return Err(at(place(form), Kind::BadForm));
    };
    match count {
        0 => Err(at(place(form), Kind::BadForm)),
        1 => Ok(Arity::One),
        2 => Ok(Arity::Two),
        3 => Ok(Arity::Three),
        4 => Ok(Arity::Four),
        _ => Err(at(place(form), Kind::LimitPassed)),
    }
}

/// Reads `( op NAME NUMBER )`, given the declarations before it.
pub fn declaration(
    alloc: Global,
    form: &Sexp,
    text: &[u8],
    declared: &[DeclaredOp],
) -> Result<DeclaredOp, TextFault>
    requires of { IsSexpOf text.now form.now }
    ensures declaration { IfOk result (λ d. declaration_in (sexp_form text.now form.now) ≡ Some d) }
    ensures clear { IfOk result (λ _. IsClear (roles.a_list (roles.declaration declared.now))
        (sexp_form text.now form.now)) }
    ensures fault { IfErr result (IsFaultBy (IsFirst (IsFaultAs (roles.a_list (roles.declaration declared.now))
        (sexp_form text.now form.now)))) }
{
    sexps_are_forms();
    let Some(parts) = parts(form) else {
        return Err(at(place(form), Kind::BadForm));
    };
    if parts.len() < 3 {
        return Err(at(place(form), Kind::BadForm));
    }
    let bytes = operator_name(&parts[1], text, declared)?;
    let arity = arity(&parts[2], text)?;
    if parts.len() > 3 {
        return Err(at(place(&parts[3]), Kind::BadForm));
    }
    let name = Name::new(alloc, bytes)?;
    Ok(DeclaredOp { name, arity })
}
