// The keywords of lists, and whether a list may stand behind those before it.
ghost use Rattle.std.specs.Prelude.{◌≡◌, ◌≤◌, ◌<◌, ◌==◌, ◌∷◌, [], codes, ℕ, List, IfOk, IfErr, Some, None, MatchOption, option_map};
ghost use Rattle.text_core.specs.Faults.{IsFirst, IsFaultBy};
ghost use Rattle.forms.specs.Forms.{Form, sexp_form, head_in};
ghost use Rattle.forms.specs.Reading.{IsSexpOf};
ghost use Rattle.goal_reader.specs.Roles.{Role, IsFaultAs, rank, rank_from, goal_keywords, goal_bounds, text_keywords, text_bounds, bound_at, role_in};
ghost use Rattle.goal_reader.specs.Keywords.{item_rank, form_rank};
ghost use Rattle.goal_reader.specs.TextFaults.{IsFormFault};
ghost use Rattle.goal_reader.specs.Order.{IsOrderOf, IsAdmission, beyond_kind};
ghost use Rattle.goal_reader.specs.declared.order.Admission.TheVariants as admissions;

use crate::order::{Admission, Order};
use forms::{at, name, parts, place, sexps_are_forms};
use goal_meaning::MOST_LETS;
use text_core::{
    Kind, MOST_ASSUMES, MOST_AXIOMS, MOST_DECLARED, MOST_GOALS, MOST_INPUTS, MOST_SETS, Sexp,
    TextFault,
};

/// The keywords of a goal's items, in the order in which the items stand.
#[derive(Clone, Copy)]
pub enum ItemKeyword {
    In,
    Pool,
    Let,
    Assume,
    When,
    Set,
}

/// The keywords of a text's forms, in the order in which the forms stand.
#[derive(Clone, Copy)]
pub enum FormKeyword {
    Machine,
    Op,
    Axiom,
    Goal,
}

/// The first word of a list.
pub fn head<'a>(form: &Sexp, text: &'a [u8]) -> Option<&'a [u8]>
    requires of { IsSexpOf text.now form.now }
    ensures { MatchOption result (head_in (sexp_form text.now form.now) ≡ None)
        (λ bytes. head_in (sexp_form text.now form.now) ≡ Some bytes.now) }
{
    let Some(parts) = parts(form) else {
        return None;
    };
    let Some(first) = parts.first() else {
        return None;
    };
    name(first, text)
}

impl ItemKeyword {
    fn named(word: &[u8]) -> Option<ItemKeyword>
        ensures { option_map item_rank result ≡ rank_from 0 goal_keywords word.now }
    {
        if word == b"in".as_slice() {
            return Some(ItemKeyword::In);
        }
        if word == b"pool".as_slice() {
            return Some(ItemKeyword::Pool);
        }
        if word == b"let".as_slice() {
            return Some(ItemKeyword::Let);
        }
        ItemKeyword::later_named(word)
    }

    fn later_named(word: &[u8]) -> Option<ItemKeyword>
        ensures { option_map item_rank result
            ≡ rank_from 3 (codes "assume" ∷ codes "when" ∷ codes "set" ∷ []) word.now }
    {
        if word == b"assume".as_slice() {
            return Some(ItemKeyword::Assume);
        }
        if word == b"when".as_slice() {
            return Some(ItemKeyword::When);
        }
        if word == b"set".as_slice() {
            return Some(ItemKeyword::Set);
        }
        None
    }

    /// Its place among the keywords.
    pub fn rank(self) -> usize
        ensures { result ≡ item_rank self }
    {
        match self {
            ItemKeyword::In => 0,
            ItemKeyword::Pool => 1,
            ItemKeyword::Let => 2,
            ItemKeyword::Assume => 3,
            ItemKeyword::When => 4,
            ItemKeyword::Set => 5,
        }
    }

    /// How many items of it a goal may have.
    fn most(self) -> usize
        ensures most { result ≡ (bound_at goal_bounds (item_rank self)).most }
        ensures few { result ≤ 256 }
    {
        match self {
            ItemKeyword::In => MOST_INPUTS,
            ItemKeyword::Let => MOST_LETS,
            ItemKeyword::Assume => MOST_ASSUMES,
            ItemKeyword::Set => MOST_SETS,
            ItemKeyword::Pool | ItemKeyword::When => 1,
        }
    }

    /// The fault of one item more.
    fn beyond(self) -> Kind
        ensures { result ≡ beyond_kind (bound_at goal_bounds (item_rank self)).beyond }
    {
        match self {
            ItemKeyword::In | ItemKeyword::Let | ItemKeyword::Assume | ItemKeyword::Set => {
                Kind::LimitPassed
            }
            ItemKeyword::Pool | ItemKeyword::When => Kind::BadForm,
        }
    }
}

/// The keyword of an item.
pub fn item_keyword(form: &Sexp, text: &[u8]) -> Option<ItemKeyword>
    requires of { IsSexpOf text.now form.now }
    ensures { option_map item_rank result ≡ rank goal_keywords (sexp_form text.now form.now) }
{
    match head(form, text) {
        Some(word) => ItemKeyword::named(word),
        None => None,
    }
}

/// An item's keyword, where the item may stand behind those before it.
pub fn admitted_item(form: &Sexp, text: &[u8], order: &Order) -> Result<ItemKeyword, TextFault>
    requires of { IsSexpOf text.now form.now }
    ensures rank { IfOk result (λ keyword. rank goal_keywords (sexp_form text.now form.now) ≡ Some (item_rank keyword)) }
    ensures admitted { IfOk result (λ keyword. (before : List Form) → IsOrderOf goal_keywords before order.now
        → IsAdmission goal_keywords before (item_rank keyword) (bound_at goal_bounds (item_rank keyword)).most
        admissions.Admitted) }
    ensures later { IfOk result (λ keyword. order.now.last ≤ item_rank keyword) }
    ensures few { IfOk result (λ keyword. item_rank keyword ≡ order.now.last → order.now.count < 256) }
    ensures fault { IfErr result (λ fault. (before : List Form) (inner : ℕ → Role)
        → IsOrderOf goal_keywords before order.now
        → IsFaultBy (IsFirst (IsFaultAs (role_in goal_keywords goal_bounds before inner (sexp_form text.now form.now))
        (sexp_form text.now form.now))) fault) }
{
    sexps_are_forms();
    let Some(keyword) = item_keyword(form, text) else {
        return Err(at(place(form), Kind::BadForm));
    };
    match order.admits(keyword.rank(), keyword.most()) {
        Admission::OutOfOrder => Err(at(place(form), Kind::BadForm)),
        Admission::Beyond => Err(at(place(form), keyword.beyond())),
        Admission::Admitted => Ok(keyword),
    }
}

impl FormKeyword {
    fn named(word: &[u8]) -> Option<FormKeyword>
        ensures { option_map form_rank result ≡ rank_from 0 text_keywords word.now }
    {
        if word == b"machine".as_slice() {
            return Some(FormKeyword::Machine);
        }
        if word == b"op".as_slice() {
            return Some(FormKeyword::Op);
        }
        FormKeyword::later_named(word)
    }

    fn later_named(word: &[u8]) -> Option<FormKeyword>
        ensures { option_map form_rank result ≡ rank_from 2 (codes "axiom" ∷ codes "goal" ∷ []) word.now }
    {
        if word == b"axiom".as_slice() {
            return Some(FormKeyword::Axiom);
        }
        if word == b"goal".as_slice() {
            return Some(FormKeyword::Goal);
        }
        None
    }

    /// Its place among the keywords.
    pub fn rank(self) -> usize
        ensures { result ≡ form_rank self }
    {
        match self {
            FormKeyword::Machine => 0,
            FormKeyword::Op => 1,
            FormKeyword::Axiom => 2,
            FormKeyword::Goal => 3,
        }
    }

    /// How many forms of it a text may have.
    fn most(self) -> usize
        ensures most { result ≡ (bound_at text_bounds (form_rank self)).most }
        ensures few { result ≤ 64 }
    {
        match self {
            FormKeyword::Machine => 1,
            FormKeyword::Op => MOST_DECLARED,
            FormKeyword::Axiom => MOST_AXIOMS,
            FormKeyword::Goal => MOST_GOALS,
        }
    }

    /// The fault of one form more.
    fn beyond(self) -> Kind
        ensures { result ≡ beyond_kind (bound_at text_bounds (form_rank self)).beyond }
    {
        match self {
            FormKeyword::Machine => Kind::BadForm,
            FormKeyword::Op | FormKeyword::Axiom | FormKeyword::Goal => Kind::LimitPassed,
        }
    }
}

/// The keyword of a form of a text.
fn form_keyword(form: &Sexp, text: &[u8]) -> Option<FormKeyword>
    requires of { IsSexpOf text.now form.now }
    ensures { option_map form_rank result ≡ rank text_keywords (sexp_form text.now form.now) }
{
    match head(form, text) {
        Some(word) => FormKeyword::named(word),
        None => None,
    }
}

/// The keyword of a form of a text, where the form may stand behind those before it.
pub fn admitted_form(form: &Sexp, text: &[u8], order: &Order) -> Result<FormKeyword, TextFault>
    requires of { IsSexpOf text.now form.now }
    ensures rank { IfOk result (λ keyword. rank text_keywords (sexp_form text.now form.now) ≡ Some (form_rank keyword)) }
    ensures admitted { IfOk result (λ keyword. (before : List Form) → IsOrderOf text_keywords before order.now
        → IsAdmission text_keywords before (form_rank keyword) (bound_at text_bounds (form_rank keyword)).most
        admissions.Admitted) }
    ensures later { IfOk result (λ keyword. order.now.last ≤ form_rank keyword) }
    ensures few { IfOk result (λ keyword. form_rank keyword ≡ order.now.last → order.now.count < 64) }
    ensures fault { IfErr result (λ fault. (before : List Form) (inner : ℕ → Role)
        → IsOrderOf text_keywords before order.now
        → IsFaultBy (IsFirst (IsFormFault (role_in text_keywords text_bounds before inner
        (sexp_form text.now form.now)) (sexp_form text.now form.now))) fault) }
{
    sexps_are_forms();
    let Some(keyword) = form_keyword(form, text) else {
        return Err(at(place(form), Kind::BadForm));
    };
    match order.admits(keyword.rank(), keyword.most()) {
        Admission::OutOfOrder => Err(at(place(form), Kind::BadForm)),
        Admission::Beyond => Err(at(place(form), keyword.beyond())),
        Admission::Admitted => Ok(keyword),
    }
}
