// Reading the words of a lift.
ghost use Rattle.std.specs.Prelude.{◌≡◌, ◌≤◌, ◌<◌, ◌+◌, ◌^◌, ◌∷◌, ◌++◌, ◌||◌, [], ℕ, List, All, length, Some, IfOk, IfErr, OnOk};
ghost use Rattle.text_core.specs.Faults.{IsFaultBy};
ghost use Rattle.forms.specs.Forms.{Form, number_in, sexp_form};
ghost use Rattle.forms.specs.Reading.{IsSexpOf};
ghost use Rattle.code_lift.specs.LiftReading.{AreLiftWords, ArePlainWords, IsFirstInLift, KeepsGoalLimits};
ghost use Rattle.code_lift.specs.LiftRoles as roles;
ghost use Rattle.code_lift.specs.Lifted as lifts;
ghost use Rattle.code_lift.specs.LiftingView.{lifting_view};
ghost use Rattle.code_lift.specs.WellFormed.{IsPlainWord};

use crate::lifting::Lifting;
use crate::limits::MOST_LIFT_WORDS;
use alpha_encode::{Instr, decode};
use forms::{at, number, parts, place, sexps_are_forms};
use items::Items;
use std::alloc::Global;
use text_core::{Kind, MOST_ASSUMES, MOST_INPUTS, Sexp, TextFault};

/// Whether the word is that of an instruction which is no branch.
fn is_plain(word: u32) -> bool
    ensures { result ≡ roles.is_plain_word word }
{
    match decode(word) {
        None | Some(Instr::Beq { .. }) => false,
        Some(_) => true,
    }
}

/// Reads a number that is such a word.
fn word(form: &Sexp, text: &[u8]) -> Result<u32, TextFault>
    requires of { IsSexpOf text.now form.now }
    ensures word { IfOk result (λ w. number_in (sexp_form text.now form.now) ≡ Some w) }
    ensures plain { IfOk result IsPlainWord }
    ensures fault { IfErr result (λ fault. (before : List Form)
        → IsFaultBy (IsFirstInLift (roles.a_word before) (sexp_form text.now form.now)) fault) }
{
    sexps_are_forms();
    let Some(value) = number(form) else {
        return Err(at(place(form), Kind::BadForm));
    };
    let Ok(word) = u32::try_from(value) else {
        return Err(at(place(form), Kind::BadWord));
    };
    if !is_plain(word) {
        return Err(at(place(form), Kind::BadWord));
    }
    Ok(word)
}

/// How many registers are inputs.
fn count_inputs(lifting: &Lifting) -> usize
    ensures { result ≡ length (lifts.inputs_read (lifting_view lifting.now)) }
{
    let mut count = 0;
    for register in 0..31u8 {
        if lifting.is_input(register) {
            count += 1;
        }
    }
    count
}

/// Whether there are more inputs or assumptions than a goal may have.
fn has_many(lifting: &Lifting) -> bool
    ensures { result ≡ (roles.has_many_inputs (lifting_view lifting.now)
        || roles.has_many_assumes (lifting_view lifting.now)) }
{
    count_inputs(lifting) > MOST_INPUTS || lifting.addresses.len() > MOST_ASSUMES
}

/// Reads the next word, behind so many others, and adds it to what is known behind them.
fn next_word(
    alloc: Global,
    form: &Sexp,
    text: &[u8],
    index: usize,
    lifting: &mut Lifting,
) -> Result<u32, TextFault>
    requires of { IsSexpOf text.now form.now }
    requires few { length lifting.old.lets.items < 2 ^ 32 }
    ensures word { IfOk result (λ w. number_in (sexp_form text.now form.now) ≡ Some w) }
    ensures plain { IfOk result IsPlainWord }
    ensures behind { IfOk result (λ w. (words : List ℕ) → All IsPlainWord words → length words ≡ index
        → lifting_view lifting.old ≡ lifts.lifted words → lifting_view lifting.new ≡ lifts.lifted (words ++ w ∷ [])) }
    ensures lets { OnOk result (length lifting.new.lets.items ≤ length lifting.old.lets.items + 1) }
    ensures within { OnOk result (KeepsGoalLimits (lifting_view lifting.new)) }
    ensures fault { IfErr result (λ fault. (before : List Form) (words : List ℕ) → ArePlainWords before words
        → length words ≡ index → lifting_view lifting.old ≡ lifts.lifted words
        → IsFaultBy (IsFirstInLift (roles.a_word before) (sexp_form text.now form.now)) fault) }
{
    sexps_are_forms();
    let word = word(form, text)?;
    let Some(instr) = decode(word) else {
        unreachable!();
    };
    lifting.step(alloc, index, instr)?;
    if has_many(lifting) {
        return Err(at(place(form), Kind::LimitPassed));
    }
    Ok(word)
}

/// Reads the list of a lift's words, and gives what is known behind them, too.
pub(crate) fn words(
    alloc: Global,
    form: &Sexp,
    text: &[u8],
) -> Result<(Items<u32>, Lifting), TextFault>
    requires of { IsSexpOf text.now form.now }
    ensures words { IfOk result (λ read. AreLiftWords (sexp_form text.now form.now) read.0) }
    ensures behind { IfOk result (λ read. lifting_view read.1 ≡ lifts.lifted read.0) }
    ensures fault { IfErr result (IsFaultBy (IsFirstInLift roles.word_list (sexp_form text.now form.now))) }
{
    sexps_are_forms();
    let Some(parts) = parts(form) else {
        return Err(at(place(form), Kind::BadForm));
    };
    let mut words = Items::new(alloc);
    let mut lifting = Lifting::new(alloc);
    for index in 0..parts.len() {
        let part = &parts[index];
        if index >= MOST_LIFT_WORDS {
            return Err(at(place(part), Kind::LimitPassed));
        }
        let word = next_word(alloc, part, text, index, &mut lifting)?;
        words.push(word)?;
    }
    Ok((words, lifting))
}
