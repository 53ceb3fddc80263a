// Reading the lets of a goal.
ghost use Rattle.std.specs.Prelude.{◌≡◌, ◌≤◌, ◌||◌, ◌++◌, length, IfOk, IfErr, Some, None, true, false};
ghost use Rattle.text_core.specs.Limits.{most_declared};
ghost use Rattle.text_core.specs.Names.{is_among};
ghost use Rattle.word_terms.specs.View.{tree_of};
ghost use Rattle.text_core.specs.Faults.{IsFirst, IsFaultBy};
ghost use Rattle.forms.specs.Forms.{sexp_form};
ghost use Rattle.forms.specs.Reading.{IsSexpOf};
ghost use Rattle.goal_meaning.specs.Names.{names_of_declared};
ghost use Rattle.goal_reader.specs.Roles as roles;
ghost use Rattle.goal_reader.specs.Roles.{IsFaultAs, is_of_rank, goal_keywords, part_sort, second_name};
ghost use Rattle.goal_reader.specs.Reading.{IsClear, IsOwnName, WritesPart, names_of_inputs, names_of_lets};

use crate::inputs::{is_declared, is_input, is_reserved};
use crate::scopes::Scope;
use crate::terms::{sort_told, term};
use forms::{at, name, parts, place, sexps_are_forms};
use goal_meaning::{DeclaredOp, InputReg, Let};
use std::alloc::Global;
use text_core::{Kind, Name, Sexp, TextFault};
use word_ops::Sort;

fn is_let(lets: &[Let], name: &[u8]) -> bool
    ensures { result ≡ is_among (names_of_lets lets.now) name.now }
{
    for other in lets {
        if other.name.bytes() == name {
            return true;
        }
    }
    false
}

// A name that no operator, no input, no earlier let and not the memory has.
fn let_name<'a>(
    form: &Sexp,
    text: &'a [u8],
    declared: &[DeclaredOp],
    inputs: &[InputReg],
    lets: &[Let],
) -> Result<&'a [u8], TextFault>
    requires of { IsSexpOf text.now form.now }
    ensures ok { IfOk result (λ bytes. IsOwnName (names_of_declared declared.now ++ (names_of_inputs inputs.now
        ++ names_of_lets lets.now)) (sexp_form text.now form.now) bytes.now) }
    ensures fault { IfErr result (IsFaultBy (IsFirst (IsFaultAs (roles.own_name (names_of_declared declared.now
        ++ (names_of_inputs inputs.now ++ names_of_lets lets.now))) (sexp_form text.now form.now)))) }
{
    sexps_are_forms();
    let Some(bytes) = name(form, text) else {
        return Err(at(place(form), Kind::BadForm));
    };
    if is_reserved(bytes)
        || is_declared(declared, bytes)
        || is_input(inputs, bytes)
        || is_let(lets, bytes)
    {
        return Err(at(place(form), Kind::Twice));
    }
    Ok(bytes)
}

/// Reads `( let NAME term )`, given the inputs and the lets before it. The sort is that of the term.
pub fn binding(
    alloc: Global,
    form: &Sexp,
    text: &[u8],
    scope: &Scope,
    inputs: &[InputReg],
    lets: &[Let],
) -> Result<(Let, Sort), TextFault>
    requires of { IsSexpOf text.now form.now }
    requires few { length scope.now.declared ≤ most_declared }
    requires keyword { is_of_rank goal_keywords 2 (sexp_form text.now form.now) ≡ true }
    ensures named { IfOk result (λ read. second_name (sexp_form text.now form.now) ≡ Some read.0.name) }
    ensures value { IfOk result (λ read. WritesPart scope.now None (sexp_form text.now form.now) 2
        (tree_of read.0.value)) }
    ensures sort { IfOk result (λ read. part_sort scope.now (sexp_form text.now form.now) 2 ≡ Some read.1) }
    ensures clear { IfOk result (λ _. IsClear (roles.a_list (roles.binding scope.now (names_of_inputs inputs.now
        ++ names_of_lets lets.now))) (sexp_form text.now form.now)) }
    ensures fault { IfErr result (IsFaultBy (IsFirst (IsFaultAs (roles.a_list (roles.binding scope.now
        (names_of_inputs inputs.now ++ names_of_lets lets.now))) (sexp_form text.now form.now)))) }
{
    sexps_are_forms();
    let Some(parts) = parts(form) else {
        unreachable!();
    };
    if parts.len() < 3 {
        return Err(at(place(form), Kind::BadForm));
    }
    let bytes = let_name(&parts[1], text, scope.declared.as_slice(), inputs, lets)?;
    let second = &parts[2];
    let value = term(alloc, second, text, scope, None)?;
    let Some(sort) = sort_told(second, text, scope) else {
        unreachable!();
    };
    if parts.len() > 3 {
        return Err(at(place(&parts[3]), Kind::BadForm));
    }
    let name = Name::new(alloc, bytes)?;
    Ok((Let { name, value }, sort))
}
