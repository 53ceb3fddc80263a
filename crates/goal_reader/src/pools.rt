// Reading the pool of a goal.
ghost use Rattle.std.specs.Prelude.{◌≡◌, ◌≤◌, ◌<◌, ◌++◌, ℕ, List, map, length, take, drop, IfOk, IfErr, Some, None, true, false};
ghost use Rattle.text_core.specs.Faults.{IsFirst, IsFaultBy};
ghost use Rattle.forms.specs.Forms.{sexp_form, parts_of};
ghost use Rattle.forms.specs.Reading.{IsSexpOf};
ghost use Rattle.goal_reader.specs.Roles as roles;
ghost use Rattle.goal_reader.specs.Roles.{IsFaultAs, registers_in, register_of, is_of_rank, goal_keywords};
ghost use Rattle.goal_meaning.specs.Rules.{has_register};
ghost use Rattle.goal_reader.specs.Reading.{IsClear};
ghost use Rattle.goal_meaning.specs.WellFormed.{input_registers};

use crate::inputs::{is_given, register_read};
use forms::{at, parts, place, sexps_are_forms};
use goal_meaning::InputReg;
use std::alloc::Global;
use text_core::{Kind, Sexp, TextFault};

pub fn is_in_pool(pool: &[u8], register: u8) -> bool
    ensures { result ≡ has_register pool.now register }
{
    for given in pool {
        if *given == register {
            return true;
        }
    }
    false
}

// A register that no input and no earlier place of the pool has.
fn pool_register(
    form: &Sexp,
    text: &[u8],
    inputs: &[InputReg],
    pool: &[u8],
) -> Result<u8, TextFault>
    requires of { IsSexpOf text.now form.now }
    ensures register { IfOk result (λ r. register_of (sexp_form text.now form.now) ≡ Some r) }
    ensures fresh { IfOk result (λ r. has_register (input_registers inputs.now ++ pool.now) r ≡ false) }
    ensures fault { IfErr result (IsFaultBy (IsFirst (IsFaultAs (roles.fresh_register (input_registers inputs.now
        ++ pool.now)) (sexp_form text.now form.now)))) }
{
    sexps_are_forms();
    let number = register_read(form, text)?;
    if is_given(inputs, number) || is_in_pool(pool, number) {
        return Err(at(place(form), Kind::Twice));
    }
    Ok(number)
}

/// Reads `( pool {REGISTER} )`, given the inputs before it.
pub fn pool(
    alloc: Global,
    form: &Sexp,
    text: &[u8],
    inputs: &[InputReg],
) -> Result<Vec<u8>, TextFault>
    requires of { IsSexpOf text.now form.now }
    requires keyword { is_of_rank goal_keywords 1 (sexp_form text.now form.now) ≡ true }
    ensures pool { IfOk result (λ pool. pool.items ≡ registers_in (parts_of (sexp_form text.now form.now))) }
    ensures clear { IfOk result (λ _. IsClear (roles.a_list (roles.pool (input_registers inputs.now)))
        (sexp_form text.now form.now)) }
    ensures fault { IfErr result (IsFaultBy (IsFirst (IsFaultAs (roles.a_list (roles.pool (input_registers inputs.now)))
        (sexp_form text.now form.now)))) }
{
    sexps_are_forms();
    let Some(parts) = parts(form) else {
        unreachable!();
    };
    let mut pool = Vec::new(alloc);
    for index in 1..parts.len() {
        let register = pool_register(&parts[index], text, inputs, &pool)?;
        pool.push(register)?;
    }
    Ok(pool)
}
