// Reading the inputs of a goal, and names and registers that are new.
ghost use Rattle.std.specs.Prelude.{◌≡◌, ◌≤◌, ◌<◌, ◌+◌, ◌||◌, ◌++◌, ℕ, List, map, length, take, IfOk, IfErr, Some, None, true, false};
ghost use Rattle.std.specs.List.{list_any};
ghost use Rattle.text_core.specs.Faults.{IsFirst, IsFaultBy};
ghost use Rattle.forms.specs.Forms.{sexp_form, name_in, parts_of};
ghost use Rattle.forms.specs.Reading.{IsSexpOf};
ghost use Rattle.goal_reader.specs.Roles as roles;
ghost use Rattle.goal_meaning.specs.Names as goal_names;
ghost use Rattle.text_core.specs.Names.{is_among};
ghost use Rattle.goal_reader.specs.Roles.{IsFaultAs, register_number as number_of_name, number_of_register, register_of, is_of_rank, goal_keywords, input_in};
ghost use Rattle.goal_meaning.specs.Names.{is_reserved, names_of_declared};
ghost use Rattle.goal_meaning.specs.Rules.{has_register};
ghost use Rattle.goal_reader.specs.Reading.{IsOwnName, IsClear, names_of_inputs};
ghost use Rattle.goal_meaning.specs.WellFormed.{input_registers};

use crate::scopes::built_in;
use forms::{at, name, parts, place, register, sexps_are_forms};
use goal_meaning::{DeclaredOp, InputReg};
use std::alloc::Global;
use text_core::{Kind, Name, Sexp, TextFault};

/// The register of its decimal number.
#[tactic(auto, unfolding(crate::specs::Roles::number_of_register))]
fn register_digits(digits: &[u8]) -> Option<u8>
    ensures { result ≡ number_of_register digits.now }
{
    match digits {
        [a] if a.is_ascii_digit() => Some(*a - b'0'),
        [a, b] if (b'1'..=b'9').contains(a) && b.is_ascii_digit() => {
            let register = 10 * (*a - b'0') + (*b - b'0');
            if register < 31 { Some(register) } else { None }
        }
        _ => None,
    }
}

/// The register from 0 to 30 that a dollar sign and its number name.
pub fn register_number(bytes: &[u8]) -> Option<u8>
    ensures { result ≡ number_of_name bytes.now }
{
    match bytes {
        [b'$', digits @ ..] => register_digits(digits),
        _ => None,
    }
}

pub fn is_declared(declared: &[DeclaredOp], name: &[u8]) -> bool
    ensures { result ≡ is_among (names_of_declared declared.now) name.now }
{
    for operator in declared {
        if operator.name.bytes() == name {
            return true;
        }
    }
    false
}

pub fn is_input(inputs: &[InputReg], name: &[u8]) -> bool
    ensures { result ≡ is_among (names_of_inputs inputs.now) name.now }
{
    for input in inputs {
        if input.name.bytes() == name {
            return true;
        }
    }
    false
}

pub fn is_given(inputs: &[InputReg], register: u8) -> bool
    ensures { result ≡ has_register (input_registers inputs.now) register }
{
    for input in inputs {
        if input.reg == register {
            return true;
        }
    }
    false
}

pub fn is_reserved(name: &[u8]) -> bool
    ensures { result ≡ goal_names.is_reserved name.now }
{
    built_in(name).is_some() || name == b"M".as_slice()
}

/// A name that no operator, no input and not the memory has.
pub fn own_name<'a>(
    form: &Sexp,
    text: &'a [u8],
    declared: &[DeclaredOp],
    inputs: &[InputReg],
) -> Result<&'a [u8], TextFault>
    requires of { IsSexpOf text.now form.now }
    ensures ok { IfOk result (λ bytes. IsOwnName (names_of_declared declared.now ++ names_of_inputs inputs.now)
        (sexp_form text.now form.now) bytes.now) }
    ensures fault { IfErr result (IsFaultBy (IsFirst (IsFaultAs (roles.own_name (names_of_declared declared.now
        ++ names_of_inputs inputs.now)) (sexp_form text.now form.now)))) }
{
    sexps_are_forms();
    let Some(bytes) = name(form, text) else {
        return Err(at(place(form), Kind::BadForm));
    };
    if is_reserved(bytes) || is_declared(declared, bytes) || is_input(inputs, bytes) {
        return Err(at(place(form), Kind::Twice));
    }
    Ok(bytes)
}

/// A register from 0 to 30, whichever are given.
pub fn register_read(form: &Sexp, text: &[u8]) -> Result<u8, TextFault>
    requires of { IsSexpOf text.now form.now }
    ensures register { IfOk result (λ r. register_of (sexp_form text.now form.now) ≡ Some r) }
    ensures fault { IfErr result (λ fault. (given : List ℕ)
        → IsFaultBy (IsFirst (IsFaultAs (roles.fresh_register given) (sexp_form text.now form.now))) fault) }
{
    sexps_are_forms();
    let Some(bytes) = register(form, text) else {
        return Err(at(place(form), Kind::BadForm));
    };
    let Some(number) = register_number(bytes) else {
        return Err(at(place(form), Kind::BadRegister));
    };
    Ok(number)
}

/// A register that no input has.
pub fn fresh_register(form: &Sexp, text: &[u8], inputs: &[InputReg]) -> Result<u8, TextFault>
    requires of { IsSexpOf text.now form.now }
    ensures register { IfOk result (λ r. register_of (sexp_form text.now form.now) ≡ Some r) }
    ensures fresh { IfOk result (λ r. has_register (input_registers inputs.now) r ≡ false) }
    ensures fault { IfErr result (IsFaultBy (IsFirst (IsFaultAs (roles.fresh_register (input_registers inputs.now))
        (sexp_form text.now form.now)))) }
{
    sexps_are_forms();
    let number = register_read(form, text)?;
    if is_given(inputs, number) {
        return Err(at(place(form), Kind::Twice));
    }
    Ok(number)
}

/// Reads `( in NAME REGISTER )`, given the inputs before it.
pub fn input(
    alloc: Global,
    form: &Sexp,
    text: &[u8],
    declared: &[DeclaredOp],
    inputs: &[InputReg],
) -> Result<InputReg, TextFault>
    requires of { IsSexpOf text.now form.now }
    requires keyword { is_of_rank goal_keywords 0 (sexp_form text.now form.now) ≡ true }
    ensures input { IfOk result (λ input. input_in (sexp_form text.now form.now) ≡ Some input) }
    ensures clear { IfOk result (λ _. IsClear (roles.a_list (roles.input declared.now inputs.now))
        (sexp_form text.now form.now)) }
    ensures fault { IfErr result (IsFaultBy (IsFirst (IsFaultAs (roles.a_list (roles.input declared.now inputs.now))
        (sexp_form text.now form.now)))) }
{
    sexps_are_forms();
    let Some(parts) = parts(form) else {
        unreachable!();
    };
    if parts.len() < 3 {
        return Err(at(place(form), Kind::BadForm));
    }
    let bytes = own_name(&parts[1], text, declared, inputs)?;
    let reg = fresh_register(&parts[2], text, inputs)?;
    if parts.len() > 3 {
        return Err(at(place(&parts[3]), Kind::BadForm));
    }
    let name = Name::new(alloc, bytes)?;
    Ok(InputReg { name, reg })
}
