// Reading a text of goals and of codes for them.
ghost use Rattle.std.specs.Prelude.{◌≡◌, ◌<◌, ◌≤◌, ◌^◌, ℕ, true, All, drop, length, map, None, IfOk, IfErr, MatchOption};
ghost use Rattle.text_core.specs.Limits.{most_codes};
ghost use Rattle.text_core.specs.Faults.{GivesUnlessMemory, IsFaultBy, IsFirst, RefusesUnlessMemory};
ghost use Rattle.text_core.specs.declared.faults.Kind.{Kind as FaultKind};
ghost use Rattle.forms.specs.Forms.{Stand, forms_from, sexp_form, sexp_forms};
ghost use Rattle.forms.specs.Reading.{IsSexpOf};
ghost use Rattle.machine_table.specs.Grammar.{Each};
ghost use Rattle.goal_meaning.specs.Views.{goal_view, input_view};
ghost use Rattle.goal_meaning.specs.WellFormed.{IsInput};
ghost use Rattle.code_check.specs.CodeGrammar.{CheckedTree, IsFirstCodesFault, ReadsCodes, WritesCode, checked_view};
ghost use Rattle.code_check.specs.CodeReading.{AreGoals, IsClearCode, IsFirstCodeFault, IsFormsFault, IsFoundAt, IsGoalNamed, WritesForms};
ghost use Rattle.code_check.specs.CodeRoles as roles;
ghost use Rattle.code_check.specs.CodeRoles.{IsCodesFault, first_place, from_codes, goal_named};
ghost use Rattle.code_check.specs.Codes.{IsCodeOf};

use crate::codes::{Checked, Code};
use crate::heads::has_head;
use crate::places::{lacks_place, places};
use crate::words::words;
use forms::{at, name, one_reading, parts, place, sexps_are_forms, trees};
use goal_meaning::{Goal, Input};
use goal_reader::{
    read_inputs_are_well_formed, texts_have_one_first_fault, texts_have_one_reading,
};
use items::Items;
use std::alloc::Global;
use text_core::{Kind, MOST_CODES, Sexp, TextFault};

fn is_code(form: &Sexp, text: &[u8]) -> bool
    requires of { IsSexpOf text.now form.now }
    ensures { result ≡ roles.is_code (sexp_form text.now form.now) }
{
    has_head(form, text, b"code")
}

/// The number of the first code among the forms, or how many forms there are.
fn first_code(forms: &[Sexp], text: &[u8]) -> usize
    requires of { All (IsSexpOf text.now) forms.now }
    ensures within { result ≤ length forms.now }
    ensures from { from_codes (sexp_forms text.now forms.now) ≡ sexp_forms text.now (drop result forms.now) }
{
    for number in 0..forms.len() {
        if is_code(&forms[number], text) {
            return number;
        }
    }
    forms.len()
}

/// The place of the first of the forms, or the text's length where there is none.
fn begin(forms: &[Sexp], text: &[u8]) -> usize
    ensures { result ≡ first_place (length text.now) (sexp_forms text.now forms.now) }
{
    match forms.first() {
        Some(form) => place(form) as usize,
        None => text.len(),
    }
}

/// The number of the goal that has the name.
fn goal_number(goals: &[Goal], name: &[u8]) -> Option<u32>
    requires few { length goals.now < 2 ^ 32 }
    ensures { MatchOption result (goal_named (map goal_view goals.now) name.now ≡ None)
        (IsFoundAt (goal_named (map goal_view goals.now) name.now) (map goal_view goals.now)) }
{
    for number in 0..goals.len() {
        if goals[number].name.bytes() == name {
            return Some(number as u32);
        }
    }
    None
}

/// Reads the name of a goal.
fn named_goal(form: &Sexp, text: &[u8], goals: &[Goal]) -> Result<u32, TextFault>
    requires of { IsSexpOf text.now form.now }
    requires few { length goals.now < 2 ^ 32 }
    ensures goal { IfOk result (IsGoalNamed (map goal_view goals.now) (sexp_form text.now form.now)) }
    ensures fault { IfErr result (IsFaultBy (IsFirstCodeFault (roles.goal_name (map goal_view goals.now))
        (sexp_form text.now form.now))) }
{
    sexps_are_forms();
    let Some(bytes) = name(form, text) else {
        return Err(at(place(form), Kind::BadForm));
    };
    match goal_number(goals, bytes) {
        Some(number) => Ok(number),
        None => Err(at(place(form), Kind::UnknownName)),
    }
}

/// Reads `( code NAME ( {NUMBER} ) {( at NAME REGISTER )} )`.
fn read_code(alloc: Global, form: &Sexp, text: &[u8], goals: &[Goal]) -> Result<Code, TextFault>
    requires of { IsSexpOf text.now form.now }
    requires small { length text.now < 2 ^ 29 }
    requires head { roles.is_code (sexp_form text.now form.now) ≡ true }
    requires goals { AreGoals (map goal_view goals.now) }
    ensures code { IfOk result (WritesCode (map goal_view goals.now) (sexp_form text.now form.now)) }
    ensures clear { IfOk result (λ _. IsClearCode (roles.a_code (map goal_view goals.now)) (sexp_form text.now form.now)) }
    ensures fault { IfErr result (IsFaultBy (IsFirstCodeFault (roles.a_code (map goal_view goals.now))
        (sexp_form text.now form.now))) }
{
    sexps_are_forms();
    let Some(parts) = parts(form) else {
        unreachable!();
    };
    if parts.len() < 3 {
        return Err(at(place(form), Kind::BadForm));
    }
    let goal = named_goal(&parts[1], text, goals)?;
    let sets = goals[goal as usize].sets.as_slice();
    let place_forms = &parts[3..];
    if lacks_place(sets, place_forms, text) {
        return Err(at(place(form), Kind::BadForm));
    }
    let words = words(alloc, &parts[2], text)?;
    let places = places(alloc, place_forms, text, sets)?;
    Ok(Code {
        goal,
        words,
        places,
    })
}

/// Reads the form behind so many codes.
fn next_code(
    alloc: Global,
    form: &Sexp,
    text: &[u8],
    index: usize,
    goals: &[Goal],
) -> Result<Code, TextFault>
    requires of { IsSexpOf text.now form.now }
    requires small { length text.now < 2 ^ 29 }
    requires goals { AreGoals (map goal_view goals.now) }
    ensures code { IfOk result (WritesCode (map goal_view goals.now) (sexp_form text.now form.now)) }
    ensures few { IfOk result (λ _. index < most_codes) }
    ensures clear { IfOk result (λ _. IsClearCode (roles.top_role (map goal_view goals.now) index
        (sexp_form text.now form.now)) (sexp_form text.now form.now)) }
    ensures fault { IfErr result (IsFaultBy (IsFirstCodeFault (roles.top_role (map goal_view goals.now) index
        (sexp_form text.now form.now)) (sexp_form text.now form.now))) }
{
    sexps_are_forms();
    if !is_code(form, text) {
        return Err(at(place(form), Kind::BadForm));
    }
    if index >= MOST_CODES {
        return Err(at(place(form), Kind::LimitPassed));
    }
    read_code(alloc, form, text, goals)
}

/// Reads the forms behind the goals, of which each is a code.
fn read_codes(
    alloc: Global,
    forms: &[Sexp],
    text: &[u8],
    goals: &[Goal],
) -> Result<Items<Code>, TextFault>
    requires of { All (IsSexpOf text.now) forms.now }
    requires stand { (low : ℕ) × Stand low (length text.now) (forms_from (sexp_forms text.now forms.now)) }
    requires small { length text.now < 2 ^ 29 }
    requires goals { AreGoals (map goal_view goals.now) }
    ensures codes { IfOk result (Each (WritesCode (map goal_view goals.now)) (sexp_forms text.now forms.now)) }
    ensures few { IfOk result (λ codes. (0 < length codes) × (length codes ≤ most_codes)) }
    ensures fault { IfErr result (IsFaultBy (IsFirst (IsCodesFault (map goal_view goals.now) (length text.now)
        (sexp_forms text.now forms.now)))) }
{
    if forms.is_empty() {
        return Err(at(text.len() as u32, Kind::BadForm));
    }
    let mut codes = Vec::new(alloc);
    for index in 0..forms.len() {
        let code = next_code(alloc, &forms[index], text, index, goals)?;
        codes.push(code)?;
    }
    Ok(Items::from(codes))
}

/// Reads the forms of a text: the goals' bytes end where the first code begins.
fn read_forms(alloc: Global, forms: &[Sexp], text: &[u8]) -> Result<Checked, TextFault>
    requires of { All (IsSexpOf text.now) forms.now }
    requires stand { Stand 0 (length text.now) (forms_from (sexp_forms text.now forms.now)) }
    requires small { length text.now < 2 ^ 29 }
    ensures written { IfOk result (λ checked. WritesForms text.now (sexp_forms text.now forms.now) (checked_view checked)) }
    ensures well_formed { IfOk result (λ checked. IsInput (input_view checked.input)) }
    ensures fault { IfErr result (IsFaultBy (IsFormsFault text.now (sexp_forms text.now forms.now))) }
{
    read_inputs_are_well_formed();
    let first = first_code(forms, text);
    let code_forms = &forms[first..];
    let end = begin(code_forms, text);
    let input = goal_reader::read(alloc, &text[..end])?;
    let codes = read_codes(alloc, code_forms, text, input.goals.as_slice())?;
    Ok(Checked { input, codes })
}

/// Reads a text of goals, and behind them codes for these goals. The cost is linear in the length of the text, beside
/// the search for names, of which a goal has few.
pub fn read(alloc: Global, bytes: &[u8]) -> Result<Checked, TextFault>
    requires { length bytes.now < 2 ^ 29 }

    // What is read is in the grammar, and what is in it is read. The codes are such that `verify` takes.
    ensures codes { IfOk result (λ checked. ReadsCodes bytes.now (checked_view checked)) }
    ensures read { (checked : CheckedTree) → ReadsCodes bytes.now checked
        → GivesUnlessMemory (λ read. checked_view read ≡ checked) result }
    ensures well_formed { IfOk result (λ checked. IsInput (input_view checked.input)
        × All (IsCodeOf (input_view checked.input)) checked.codes) }

    // A fault is the first one, of the bytes and parentheses, else of the goals, else of the codes; and where there is
    // one, it is answered.
    ensures fault { IfErr result (IsFaultBy (IsFirstCodesFault bytes.now)) }
    ensures refused { (place : ℕ) (kind : FaultKind) → IsFirstCodesFault bytes.now place kind
        → RefusesUnlessMemory place kind result }
{
    one_reading();
    texts_have_one_reading();
    texts_have_one_first_fault();
    read_inputs_are_well_formed();
    let forms = trees(alloc, bytes)?;
    read_forms(alloc, &forms, bytes)
}
