// Reading the words of a code.
ghost use Rattle.std.specs.Prelude.{◌≡◌, ◌<◌, ◌^◌, ℕ, List, length, true, false, IfOk, IfErr, Some};
ghost use Rattle.std.specs.List.{list_any};
ghost use Rattle.text_core.specs.Faults.{IsFaultBy};
ghost use Rattle.forms.specs.Forms.{Form, number_in, sexp_form};
ghost use Rattle.forms.specs.Reading.{IsSexpOf};
ghost use Rattle.code_check.specs.CodeReading.{IsFirstCodeFault, IsClearCode, IsNextWord, WritesWords};
ghost use Rattle.code_check.specs.CodeRoles as roles;
ghost use Rattle.code_check.specs.CodeRoles.{is_branch as is_branch_form, is_branch_word};

use crate::branches::branch_register;
use alpha_encode::words_and_instructions;
use alpha_machine::may_stand;
use forms::{at, number, parts, place, sexps_are_forms};
use items::Items;
use std::alloc::Global;
use text_core::{Kind, MOST_CODE_WORDS, Sexp, TextFault};

fn is_branch(word: u32) -> bool
    ensures { result ≡ is_branch_word word }
{
    branch_register(word).is_some()
}

/// A number of 32 bits.
fn word(form: &Sexp, text: &[u8]) -> Result<u32, TextFault>
    requires of { IsSexpOf text.now form.now }
    ensures word { IfOk result (λ w. number_in (sexp_form text.now form.now) ≡ Some w) }
    ensures low { IfOk result (λ w. w < 2 ^ 32) }
    ensures fault { IfErr result (λ fault. (count : ℕ) (before : List Form) →
        IsFaultBy (IsFirstCodeFault (roles.a_word count before) (sexp_form text.now form.now)) fault) }
{
    sexps_are_forms();
    let Some(value) = number(form) else {
        return Err(at(place(form), Kind::BadForm));
    };
    match u32::try_from(value) {
        Ok(word) => Ok(word),
        Err(_) => Err(at(place(form), Kind::BadWord)),
    }
}

/// Reads the next one of `count` words, behind `index` others. It may stand there, and isn't a second branch.
fn next_word(
    form: &Sexp,
    text: &[u8],
    index: usize,
    count: usize,
    has_branch: bool,
) -> Result<u32, TextFault>
    requires of { IsSexpOf text.now form.now }
    requires few { count < 2 ^ 29 }
    ensures word { IfOk result (λ w. number_in (sexp_form text.now form.now) ≡ Some w) }
    ensures next { IfOk result (IsNextWord count index has_branch) }
    ensures fault { IfErr result (λ fault. (before : List Form) → index ≡ length before →
        has_branch ≡ list_any is_branch_form before →
        IsFaultBy (IsFirstCodeFault (roles.a_word count before) (sexp_form text.now form.now)) fault) }
{
    sexps_are_forms();
    let word = word(form, text)?;
    if !may_stand(word, index, count) {
        return Err(at(place(form), Kind::BadWord));
    }
    if has_branch && is_branch(word) {
        return Err(at(place(form), Kind::BadWord));
    }
    Ok(word)
}

/// Reads the list of a code's words.
pub(crate) fn words(alloc: Global, form: &Sexp, text: &[u8]) -> Result<Items<u32>, TextFault>
    requires of { IsSexpOf text.now form.now }
    requires small { length text.now < 2 ^ 29 }
    ensures words { IfOk result (WritesWords (sexp_form text.now form.now)) }
    ensures clear { IfOk result (λ _. IsClearCode roles.word_list (sexp_form text.now form.now)) }
    ensures fault { IfErr result (IsFaultBy (IsFirstCodeFault roles.word_list (sexp_form text.now form.now))) }
{
    sexps_are_forms();
    words_and_instructions();
    let Some(parts) = parts(form) else {
        return Err(at(place(form), Kind::BadForm));
    };
    let mut words = Vec::new(alloc);
    let mut has_branch = false;
    for index in 0..parts.len() {
        let part = &parts[index];
        if index >= MOST_CODE_WORDS {
            return Err(at(place(part), Kind::LimitPassed));
        }
        let word = next_word(part, text, index, parts.len(), has_branch)?;
        has_branch |= is_branch(word);
        words.push(word)?;
    }
    Ok(Items::from(words))
}
