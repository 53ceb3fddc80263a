// Reading the registers of a lift: those that count afterwards, and its pool.
ghost use Rattle.std.specs.Prelude.{◌≡◌, ◌++◌, List, All, codes, true, false, Some, IfOk, IfErr, IfSome};
ghost use Rattle.text_core.specs.Faults.{IsFaultBy, IsFirst};
ghost use Rattle.forms.specs.Forms.{Form, sexp_form, sexp_forms};
ghost use Rattle.forms.specs.Reading.{IsSexpOf};
ghost use Rattle.machine_table.specs.Roles as table_roles;
ghost use Rattle.goal_meaning.specs.Rules.{has_register};
ghost use Rattle.goal_reader.specs.Roles as goal_roles;
ghost use Rattle.goal_reader.specs.Roles.{IsFaultAs, register_of};
ghost use Rattle.code_lift.specs.LiftGrammar.{WritesLiftPool, WritesRegisters};
ghost use Rattle.code_lift.specs.LiftReading.{AreOutRegisters, ArePoolRegisters, IsFirstBehindOut, IsFirstInLift};
ghost use Rattle.code_lift.specs.LiftRoles as roles;
ghost use Rattle.code_lift.specs.Lifted as lifts;
ghost use Rattle.code_lift.specs.LiftingView.{lifting_view};

use crate::heads::has_head;
use crate::lifting::Lifting;
use forms::{at, parts, place, register, sexps_are_forms};
use goal_reader::register_number;
use items::{Items, NoMemory};
use std::alloc::Global;
use text_core::{Kind, MOST_SETS, Sexp, TextFault};

/// Reads a register from 0 to 30 that isn't one of these.
fn fresh_register(form: &Sexp, text: &[u8], given: &[u8]) -> Result<u8, TextFault>
    requires of { IsSexpOf text.now form.now }
    ensures register { IfOk result (λ r. register_of (sexp_form text.now form.now) ≡ Some r) }
    ensures fresh { IfOk result (λ r. has_register given.now r ≡ false) }
    ensures fault { IfErr result (IsFaultBy (IsFirst (IsFaultAs (goal_roles.fresh_register given.now)
        (sexp_form text.now form.now)))) }
{
    sexps_are_forms();
    let Some(bytes) = register(form, text) else {
        return Err(at(place(form), Kind::BadForm));
    };
    let Some(number) = register_number(bytes) else {
        return Err(at(place(form), Kind::BadRegister));
    };
    if given.contains(&number) {
        return Err(at(place(form), Kind::Twice));
    }
    Ok(number)
}

/// Reads `( out {REGISTER} )`, behind words of which this is known.
pub(crate) fn out(
    alloc: Global,
    form: &Sexp,
    text: &[u8],
    lifting: &Lifting,
) -> Result<Items<u8>, TextFault>
    requires of { IsSexpOf text.now form.now }
    ensures out { IfOk result (AreOutRegisters (lifting_view lifting.now) (sexp_form text.now form.now)) }
    ensures fault { IfErr result (λ fault. (words : List Form) → lifting_view lifting.now ≡ roles.lifted_in words
        → IsFaultBy (IsFirstInLift (roles.out_role words (sexp_form text.now form.now))
        (sexp_form text.now form.now)) fault) }
{
    sexps_are_forms();
    if !has_head(form, text, b"out") {
        return Err(at(place(form), Kind::BadForm));
    }
    let Some(parts) = parts(form) else {
        unreachable!();
    };
    let mut out = Items::new(alloc);
    let mut sets = usize::from(lifting.memory.is_some());
    for index in 1..parts.len() {
        let part = &parts[index];
        let register = fresh_register(part, text, out.as_slice())?;
        sets += usize::from(lifting.has_let(register));
        if sets > MOST_SETS {
            return Err(at(place(part), Kind::LimitPassed));
        }
        out.push(register)?;
    }
    Ok(out)
}

/// The registers of the inputs, and those that count afterwards.
fn taken(alloc: Global, lifting: &Lifting, out: &[u8]) -> Result<Vec<u8>, NoMemory>
    ensures { IfOk result (λ taken. taken.items ≡ lifts.inputs_read (lifting_view lifting.now) ++ out.now) }
{
    let mut taken = Vec::new(alloc);
    for register in 0..31u8 {
        if lifting.is_input(register) {
            taken.push(register)?;
        }
    }
    taken.extend_from_slice(out)?;
    Ok(taken)
}

/// Reads `( pool {REGISTER} )`, where these registers are taken.
fn pool(alloc: Global, form: &Sexp, text: &[u8], taken: Vec<u8>) -> Result<Items<u8>, TextFault>
    requires of { IsSexpOf text.now form.now }
    requires head { table_roles.has_head (codes "pool") (sexp_form text.now form.now) ≡ true }
    ensures pool { IfOk result (WritesRegisters (codes "pool") (sexp_form text.now form.now)) }
    ensures apart { IfOk result (ArePoolRegisters taken.items) }
    ensures fault { IfErr result (IsFaultBy (IsFirstInLift (roles.a_pool taken.items)
        (sexp_form text.now form.now))) }
{
    sexps_are_forms();
    let Some(parts) = parts(form) else {
        unreachable!();
    };
    let mut given = taken;
    let mut pool = Items::new(alloc);
    for index in 1..parts.len() {
        let register = fresh_register(&parts[index], text, &given)?;
        given.push(register)?;
        pool.push(register)?;
    }
    Ok(pool)
}

/// Reads the parts of a lift behind `out`: a pool, where there is one, and nothing else.
pub(crate) fn last_parts(
    alloc: Global,
    parts: &[Sexp],
    text: &[u8],
    lifting: &Lifting,
    out: &[u8],
) -> Result<Option<Items<u8>>, TextFault>
    requires of { All (IsSexpOf text.now) parts.now }
    ensures pool { IfOk result (WritesLiftPool (sexp_forms text.now parts.now)) }
    ensures apart { IfOk result (λ pool. IfSome pool (ArePoolRegisters
        (lifts.inputs_read (lifting_view lifting.now) ++ out.now))) }
    ensures fault { IfErr result (IsFaultBy (IsFirstBehindOut
        (lifts.inputs_read (lifting_view lifting.now) ++ out.now) (sexp_forms text.now parts.now))) }
{
    sexps_are_forms();
    let Some(form) = parts.first() else {
        return Ok(None);
    };
    if !has_head(form, text, b"pool") {
        return Err(at(place(form), Kind::BadForm));
    }
    let taken = taken(alloc, lifting, out)?;
    let pool = pool(alloc, form, text, taken)?;
    if parts.len() > 1 {
        return Err(at(place(&parts[1]), Kind::BadForm));
    }
    Ok(Some(pool))
}
