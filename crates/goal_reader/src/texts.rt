// A text that is being read, form by form.
ghost use Rattle.std.specs.Prelude.{◌≡◌, ◌≤◌, [], length, IfOk, IfErr, Some};
ghost use Rattle.text_core.specs.Limits.{most_declared};
ghost use Rattle.forms.specs.Forms.{sexp_form};
ghost use Rattle.forms.specs.Reading.{IsSexpOf};
ghost use Rattle.goal_reader.specs.Keywords.{form_rank};
ghost use Rattle.goal_reader.specs.Roles.{rank, text_keywords};
ghost use Rattle.goal_reader.specs.TextDrafts.{IsClearForm, IsNextForm, IsTextDraft, IsTextWritten, KeepsText, text_role};
ghost use Rattle.goal_reader.specs.TextFaults.{IsFormFault};
ghost use Rattle.text_core.specs.Faults.{IsFaultBy, IsFirst};

use crate::axioms::axiom;
use crate::declarations::declaration;
use crate::keywords::FormKeyword;
use crate::whole::goal;
use goal_meaning::{Axiom, DeclaredOp, Goal};
use items::Items;
use machine_table::Table;
use std::alloc::Global;
use text_core::{Sexp, TextFault};

/// What the forms that were read give.
#[derive(Drop)]
pub struct TextDraft {
    pub table: Option<Table>,
    pub declared: Items<DeclaredOp>,
    pub axioms: Items<Axiom>,
    pub goals: Items<Goal>,
}

/// Before the first form.
pub fn start_text(alloc: Global) -> TextDraft
    ensures draft { IsTextDraft [] result }
    ensures written { IsTextWritten [] result }
    ensures keeps { KeepsText result }
{
    TextDraft {
        table: None,
        declared: Items::new(alloc),
        axioms: Items::new(alloc),
        goals: Items::new(alloc),
    }
}

fn add_table(
    alloc: Global,
    form: &Sexp,
    text: &[u8],
    draft: TextDraft,
) -> Result<TextDraft, TextFault>
    requires of { IsSexpOf text.now form.now }
    ensures next { IfOk result (λ next. IsNextForm (sexp_form text.now form.now) draft 0 next) }
    ensures clear { IfOk result (λ _. IsClearForm (text_role draft 0) (sexp_form text.now form.now)) }
    ensures fault { IfErr result (IsFaultBy (IsFirst (IsFormFault (text_role draft 0) (sexp_form text.now form.now)))) }
{
    let table = machine_table::read(alloc, form, text)?;
    let TextDraft {
        declared,
        axioms,
        goals,
        ..
    } = draft;
    let table = Some(table);
    Ok(TextDraft {
        table,
        declared,
        axioms,
        goals,
    })
}

fn add_declaration(
    alloc: Global,
    form: &Sexp,
    text: &[u8],
    draft: TextDraft,
) -> Result<TextDraft, TextFault>
    requires of { IsSexpOf text.now form.now }
    ensures next { IfOk result (λ next. IsNextForm (sexp_form text.now form.now) draft 1 next) }
    ensures clear { IfOk result (λ _. IsClearForm (text_role draft 1) (sexp_form text.now form.now)) }
    ensures fault { IfErr result (IsFaultBy (IsFirst (IsFormFault (text_role draft 1) (sexp_form text.now form.now)))) }
{
    let one = declaration(alloc, form, text, draft.declared.as_slice())?;
    let TextDraft {
        table,
        mut declared,
        axioms,
        goals,
    } = draft;
    declared.push(one)?;
    Ok(TextDraft {
        table,
        declared,
        axioms,
        goals,
    })
}

fn add_axiom(
    alloc: Global,
    form: &Sexp,
    text: &[u8],
    draft: TextDraft,
) -> Result<TextDraft, TextFault>
    requires of { IsSexpOf text.now form.now }
    requires few { length draft.declared ≤ most_declared }
    requires keyword { rank text_keywords (sexp_form text.now form.now) ≡ Some 2 }
    ensures next { IfOk result (λ next. IsNextForm (sexp_form text.now form.now) draft 2 next) }
    ensures clear { IfOk result (λ _. IsClearForm (text_role draft 2) (sexp_form text.now form.now)) }
    ensures fault { IfErr result (IsFaultBy (IsFirst (IsFormFault (text_role draft 2) (sexp_form text.now form.now)))) }
{
    let TextDraft {
        table,
        declared,
        mut axioms,
        goals,
    } = draft;
    let (one, declared) = axiom(alloc, form, text, declared)?;
    axioms.push(one)?;
    Ok(TextDraft {
        table,
        declared,
        axioms,
        goals,
    })
}

fn add_goal(
    alloc: Global,
    form: &Sexp,
    text: &[u8],
    draft: TextDraft,
) -> Result<TextDraft, TextFault>
    requires of { IsSexpOf text.now form.now }
    requires few { length draft.declared ≤ most_declared }
    requires keyword { rank text_keywords (sexp_form text.now form.now) ≡ Some 3 }
    ensures next { IfOk result (λ next. IsNextForm (sexp_form text.now form.now) draft 3 next) }
    ensures clear { IfOk result (λ _. IsClearForm (text_role draft 3) (sexp_form text.now form.now)) }
    ensures fault { IfErr result (IsFaultBy (IsFirst (IsFormFault (text_role draft 3) (sexp_form text.now form.now)))) }
{
    let TextDraft {
        table,
        declared,
        axioms,
        mut goals,
    } = draft;
    let (one, declared) = goal(alloc, form, text, declared, goals.as_slice())?;
    goals.push(one)?;
    Ok(TextDraft {
        table,
        declared,
        axioms,
        goals,
    })
}

/// Reads a form with this keyword, given what was read before it.
pub fn text_form(
    alloc: Global,
    form: &Sexp,
    text: &[u8],
    keyword: FormKeyword,
    draft: TextDraft,
) -> Result<TextDraft, TextFault>
    requires of { IsSexpOf text.now form.now }
    requires few { length draft.declared ≤ most_declared }
    requires keyword { rank text_keywords (sexp_form text.now form.now) ≡ Some (form_rank keyword) }
    ensures next { IfOk result (λ next. IsNextForm (sexp_form text.now form.now) draft (form_rank keyword) next) }
    ensures clear { IfOk result (λ _. IsClearForm (text_role draft (form_rank keyword)) (sexp_form text.now form.now)) }
    ensures fault { IfErr result (IsFaultBy (IsFirst (IsFormFault (text_role draft (form_rank keyword))
        (sexp_form text.now form.now)))) }
{
    match keyword {
        FormKeyword::Machine => add_table(alloc, form, text, draft),
        FormKeyword::Op => add_declaration(alloc, form, text, draft),
        FormKeyword::Axiom => add_axiom(alloc, form, text, draft),
        FormKeyword::Goal => add_goal(alloc, form, text, draft),
    }
}
