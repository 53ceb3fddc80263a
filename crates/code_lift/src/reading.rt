// Reading a text of lifts.
ghost use Rattle.std.specs.Prelude.{◌≡◌, ◌≢◌, ◌<◌, ◌≤◌, ◌^◌, ℕ, List, All, AllPairs, length, map, true, false, Some, IfOk, IfErr};
ghost use Rattle.text_core.specs.Faults.{GivesUnlessMemory, IsFaultBy, IsFirst, RefusesUnlessMemory};
ghost use Rattle.text_core.specs.Names.{is_among};
ghost use Rattle.text_core.specs.declared.faults.Kind.{Kind as FaultKind};
ghost use Rattle.forms.specs.Forms.{Form, Stand, forms_from, name_in, sexp_form, sexp_forms};
ghost use Rattle.forms.specs.Reading.{IsSexpOf};
ghost use Rattle.machine_table.specs.Grammar.{Each};
ghost use Rattle.goal_reader.specs.Roles as goal_roles;
ghost use Rattle.goal_reader.specs.Roles.{IsFaultAs, names_given};
ghost use Rattle.code_lift.specs.LiftGrammar.{IsFirstLiftFault, ReadsLifts, WritesLift, WritesLifts};
ghost use Rattle.code_lift.specs.LiftReading.{IsFirstInLift, IsTableHere, IsTableWrong};
ghost use Rattle.code_lift.specs.LiftRoles as roles;
ghost use Rattle.code_lift.specs.LiftRoles.{IsLiftTextFault, IsLiftsFault};
ghost use Rattle.code_lift.specs.Limits.{most_lifts};
ghost use Rattle.code_lift.specs.Views.{LiftTree, LiftsTree, lift_view, lifts_view, names_of_lifts};
ghost use Rattle.code_lift.specs.WellFormed.{AreLifts};

use crate::heads::has_head;
use crate::laws::{lifts_have_one_reading, read_lifts_are_well_formed};
use crate::lifts::{Lift, Lifts};
use crate::limits::MOST_LIFTS;
use crate::registers::{last_parts, out};
use crate::words::words;
use forms::{at, name, one_reading, parts, place, sexps_are_forms, trees};
use goal_reader::table_or_built_in;
use items::Items;
use machine_table::{Table, one_table};
use std::alloc::Global;
use text_core::{Kind, Name, Sexp, TextFault};

fn is_lift_name(lifts: &[Lift], name: &[u8]) -> bool
    ensures { result ≡ is_among (names_of_lifts (map lift_view lifts.now)) name.now }
{
    for lift in lifts {
        if lift.name.bytes() == name {
            return true;
        }
    }
    false
}

/// Reads a name that no lift before has.
fn lift_name<'a>(form: &Sexp, text: &'a [u8], before: &[Lift]) -> Result<&'a [u8], TextFault>
    requires of { IsSexpOf text.now form.now }
    ensures named { IfOk result (λ bytes. name_in (sexp_form text.now form.now) ≡ Some bytes.now) }
    ensures fresh { IfOk result (λ bytes. is_among (names_of_lifts (map lift_view before.now)) bytes.now ≡ false) }
    ensures fault { IfErr result (IsFaultBy (IsFirst (IsFaultAs (goal_roles.fresh_name
        (names_of_lifts (map lift_view before.now))) (sexp_form text.now form.now)))) }
{
    sexps_are_forms();
    let Some(bytes) = name(form, text) else {
        return Err(at(place(form), Kind::BadForm));
    };
    if is_lift_name(before, bytes) {
        return Err(at(place(form), Kind::Twice));
    }
    Ok(bytes)
}

/// Reads `( lift NAME ( {NUMBER} ) ( out {REGISTER} ) [( pool {REGISTER} )] )`, behind these lifts.
fn lift(alloc: Global, form: &Sexp, text: &[u8], before: &[Lift]) -> Result<Lift, TextFault>
    requires of { IsSexpOf text.now form.now }
    requires head { roles.is_lift (sexp_form text.now form.now) ≡ true }
    ensures lift { IfOk result (λ l. WritesLift (sexp_form text.now form.now) (lift_view l)) }
    ensures fresh { IfOk result (λ l. is_among (names_of_lifts (map lift_view before.now)) l.name ≡ false) }
    ensures fault { IfErr result (IsFaultBy (IsFirstInLift (roles.a_lift (names_of_lifts (map lift_view before.now)))
        (sexp_form text.now form.now))) }
{
    sexps_are_forms();
    let Some(parts) = parts(form) else {
        unreachable!();
    };
    if parts.len() < 4 {
        return Err(at(place(form), Kind::BadForm));
    }
    let bytes = lift_name(&parts[1], text, before)?;
    let (words, lifting) = words(alloc, &parts[2], text)?;
    let out = out(alloc, &parts[3], text, &lifting)?;
    let pool = last_parts(alloc, &parts[4..], text, &lifting, out.as_slice())?;
    let name = Name::new(alloc, bytes)?;
    Ok(Lift {
        name,
        words,
        out,
        pool,
    })
}

/// Reads the form behind these lifts.
fn next_lift(alloc: Global, form: &Sexp, text: &[u8], before: &[Lift]) -> Result<Lift, TextFault>
    requires of { IsSexpOf text.now form.now }
    ensures lift { IfOk result (λ l. WritesLift (sexp_form text.now form.now) (lift_view l)) }
    ensures fresh { IfOk result (λ l. is_among (names_of_lifts (map lift_view before.now)) l.name ≡ false) }
    ensures few { IfOk result (λ _. length before.now < most_lifts) }
    ensures fault { IfErr result (λ fault. (front : List Form) → length front ≡ length before.now
        → names_given front ≡ names_of_lifts (map lift_view before.now)
        → IsFaultBy (IsFirstInLift (roles.next_lift_role front (sexp_form text.now form.now))
        (sexp_form text.now form.now)) fault) }
{
    sexps_are_forms();
    if !has_head(form, text, b"lift") {
        return Err(at(place(form), Kind::BadForm));
    }
    if before.len() >= MOST_LIFTS {
        return Err(at(place(form), Kind::LimitPassed));
    }
    lift(alloc, form, text, before)
}

/// Reads the forms behind the machine form, of which each is a lift.
fn lifts(alloc: Global, forms: &[Sexp], text: &[u8]) -> Result<Items<Lift>, TextFault>
    requires of { All (IsSexpOf text.now) forms.now }
    requires stand { (low : ℕ) × Stand low (length text.now) (forms_from (sexp_forms text.now forms.now)) }
    requires small { length text.now < 2 ^ 29 }
    ensures lifts { IfOk result (λ ls. Each WritesLift (sexp_forms text.now forms.now) (map lift_view ls)) }
    ensures differ { IfOk result (λ ls. AllPairs (λ (a b : LiftTree). a.name ≢ b.name) (map lift_view ls)) }
    ensures few { IfOk result (λ ls. (0 < length ls) × (length ls ≤ most_lifts)) }
    ensures fault { IfErr result (IsFaultBy (IsFirst (IsLiftsFault (length text.now)
        (sexp_forms text.now forms.now)))) }
{
    if forms.is_empty() {
        return Err(at(text.len() as u32, Kind::BadForm));
    }
    let mut lifts = Items::new(alloc);
    for index in 0..forms.len() {
        let lift = next_lift(alloc, &forms[index], text, lifts.as_slice())?;
        lifts.push(lift)?;
    }
    Ok(lifts)
}

/// Reads the machine form of a text, where its first form is one.
fn first_table(alloc: Global, forms: &[Sexp], text: &[u8]) -> Result<Option<Table>, TextFault>
    requires of { All (IsSexpOf text.now) forms.now }
    ensures table { IfOk result (IsTableHere (sexp_forms text.now forms.now)) }
    ensures fault { IfErr result (IsFaultBy (IsTableWrong (sexp_forms text.now forms.now))) }
{
    let Some(form) = forms.first() else {
        return Ok(None);
    };
    if !has_head(form, text, b"machine") {
        return Ok(None);
    }
    Ok(Some(machine_table::read(alloc, form, text)?))
}

fn read_forms(alloc: Global, forms: &[Sexp], text: &[u8]) -> Result<Lifts, TextFault>
    requires of { All (IsSexpOf text.now) forms.now }
    requires stand { Stand 0 (length text.now) (forms_from (sexp_forms text.now forms.now)) }
    requires small { length text.now < 2 ^ 29 }
    ensures written { IfOk result (λ l. WritesLifts (sexp_forms text.now forms.now) (lifts_view l)) }
    ensures fault { IfErr result (IsFaultBy (IsFirst (IsLiftTextFault (length text.now)
        (sexp_forms text.now forms.now)))) }
{
    one_table();
    let given = first_table(alloc, forms, text)?;
    let first = usize::from(given.is_some());
    let lifts = lifts(alloc, &forms[first..], text)?;
    let (table, builtin) = table_or_built_in(alloc, given)?;
    Ok(Lifts {
        table,
        builtin,
        lifts,
    })
}

fn read_text(alloc: Global, bytes: &[u8]) -> Result<Lifts, TextFault>
    requires { length bytes.now < 2 ^ 29 }
    ensures lifts { IfOk result (λ l. ReadsLifts bytes.now (lifts_view l)) }
    ensures fault { IfErr result (IsFaultBy (IsFirstLiftFault bytes.now)) }
{
    one_reading();
    let forms = trees(alloc, bytes)?;
    read_forms(alloc, &forms, bytes)
}

/// Reads a text of lifts. The cost is linear in the length of the text, beside the search for names among lifts, of
/// which a text has few.
pub fn read(alloc: Global, bytes: &[u8]) -> Result<Lifts, TextFault>
    requires { length bytes.now < 2 ^ 29 }

    // What is read is in the grammar, and what is in it is read. The lifts are such that `goals` takes.
    ensures lifts { IfOk result (λ l. ReadsLifts bytes.now (lifts_view l)) }
    ensures read { (lifts : LiftsTree) → ReadsLifts bytes.now lifts
        → GivesUnlessMemory (λ read. lifts_view read ≡ lifts) result }
    ensures well_formed { IfOk result (λ l. AreLifts (lifts_view l)) }

    // A fault is the first one, of the bytes, else of the parentheses, else of the forms; and where there is one, it is
    // answered.
    ensures fault { IfErr result (IsFaultBy (IsFirstLiftFault bytes.now)) }
    ensures refused { (place : ℕ) (kind : FaultKind) → IsFirstLiftFault bytes.now place kind
        → RefusesUnlessMemory place kind result }
{
    lifts_have_one_reading();
    read_lifts_are_well_formed();
    read_text(alloc, bytes)
}
