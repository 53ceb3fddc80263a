// Reading axioms.
ghost use Rattle.std.specs.Prelude.{◌≡◌, ◌≤◌, ℕ, length, List, IfOk, IfErr, Some, true};
ghost use Rattle.text_core.specs.Limits.{most_declared};
ghost use Rattle.word_ops.specs.declared.sorts.Sort.TheVariants as sorts;
ghost use Rattle.word_terms.specs.View.{tree_of};
ghost use Rattle.text_core.specs.Faults.{GivesUnlessMemory, IsFaultBy, IsFirst, RefusesUnlessMemory};
ghost use Rattle.text_core.specs.declared.faults.Kind.{Kind as FaultKind};
ghost use Rattle.forms.specs.Forms.{sexp_form, is_list};
ghost use Rattle.forms.specs.Reading.{IsSexpOf};
ghost use Rattle.goal_reader.specs.Roles as roles;
ghost use Rattle.goal_reader.specs.Roles.{IsFaultAs, WritesTerm, rank, text_keywords};
ghost use Rattle.goal_reader.specs.Grammar.{WritesAxiom};
ghost use Rattle.goal_meaning.specs.Views.{AxiomTree, axiom_view};
ghost use Rattle.goal_reader.specs.Reading.{IsClear};

use crate::scopes::Scope;
use crate::terms::term;
use crate::variables::{left_scope, right_scope, variables};
use forms::{at, parts, place, sexps_are_forms};
use goal_meaning::{Axiom, DeclaredOp};
use items::Items;
use std::alloc::Global;
use text_core::{Kind, Sexp, TextFault};
use word_ops::{Op, Sort};
use word_terms::Term;

/// Reads the left side of an axiom: an application that gives a word.
pub fn left_side(
    alloc: Global,
    form: &Sexp,
    text: &[u8],
    scope: &Scope,
) -> Result<Term<Op>, TextFault>
    requires of { IsSexpOf text.now form.now }
    requires few { length scope.now.declared ≤ most_declared }
    ensures term { IfOk result (λ t. WritesTerm scope.now (Some sorts.Word) (sexp_form text.now form.now) (tree_of t)) }
    ensures application { IfOk result (λ _. is_list (sexp_form text.now form.now) ≡ true) }
    ensures clear { IfOk result (λ _. IsClear (roles.left_side scope.now) (sexp_form text.now form.now)) }
    ensures fault { IfErr result (IsFaultBy (IsFirst (IsFaultAs (roles.left_side scope.now)
        (sexp_form text.now form.now)))) }
{
    let left = term(alloc, form, text, scope, Some(Sort::Word))?;
    let Some(_parts) = parts(form) else {
        return Err(at(place(form), Kind::BadAxiom));
    };
    Ok(left)
}

fn read_axiom(
    alloc: Global,
    form: &Sexp,
    text: &[u8],
    declared: Items<DeclaredOp>,
) -> Result<(Axiom, Items<DeclaredOp>), TextFault>
    requires of { IsSexpOf text.now form.now }
    requires few { length declared ≤ most_declared }
    requires keyword { rank text_keywords (sexp_form text.now form.now) ≡ Some 2 }
    ensures axiom { IfOk result (λ read. WritesAxiom declared (sexp_form text.now form.now) (axiom_view read.0)) }
    ensures declared { IfOk result (λ read. read.1 ≡ declared) }
    ensures clear { IfOk result (λ _. IsClear (roles.a_list (roles.equation declared)) (sexp_form text.now form.now)) }
    ensures fault { IfErr result (IsFaultBy (IsFirst (IsFaultAs (roles.a_list (roles.equation declared))
        (sexp_form text.now form.now)))) }
{
    sexps_are_forms();
    let Some(parts) = parts(form) else {
        return Err(at(place(form), Kind::BadForm));
    };
    if parts.len() < 4 {
        return Err(at(place(form), Kind::BadForm));
    }
    let variables = variables(alloc, &parts[1], text, declared.as_slice())?;
    let left_form = &parts[2];
    let scope = left_scope(alloc, declared, variables.as_slice())?;
    let left = left_side(alloc, left_form, text, &scope)?;
    let Scope { declared, .. } = scope;
    let scope = right_scope(alloc, declared, variables.as_slice(), left_form, text)?;
    let right = term(alloc, &parts[3], text, &scope, Some(Sort::Word))?;
    if parts.len() > 4 {
        return Err(at(place(&parts[4]), Kind::BadForm));
    }
    let Scope { declared, .. } = scope;
    let axiom = Axiom {
        variables,
        left,
        right,
    };
    Ok((axiom, declared))
}

/// Reads `( axiom ( NAME {NAME} ) term term )`. The declared operators are given back.
pub fn axiom(
    alloc: Global,
    form: &Sexp,
    text: &[u8],
    declared: Items<DeclaredOp>,
) -> Result<(Axiom, Items<DeclaredOp>), TextFault>
    requires of { IsSexpOf text.now form.now }
    requires few { length declared ≤ most_declared }
    requires keyword { rank text_keywords (sexp_form text.now form.now) ≡ Some 2 }

    // What is read is in the grammar, and what is in it is read.
    ensures axiom { IfOk result (λ read. WritesAxiom declared (sexp_form text.now form.now) (axiom_view read.0)) }
    ensures read { (a : AxiomTree) → WritesAxiom declared (sexp_form text.now form.now) a
        → GivesUnlessMemory (λ read. axiom_view read.0 ≡ a) result }
    ensures declared { IfOk result (λ read. read.1 ≡ declared) }

    // A fault is the first one, and where there is one it is answered.
    ensures clear { IfOk result (λ _. IsClear (roles.a_list (roles.equation declared)) (sexp_form text.now form.now)) }
    ensures fault { IfErr result (IsFaultBy (IsFirst
        (IsFaultAs (roles.a_list (roles.equation declared)) (sexp_form text.now form.now)))) }
    ensures refused { (place : ℕ) (kind : FaultKind)
        → IsFirst (IsFaultAs (roles.a_list (roles.equation declared)) (sexp_form text.now form.now)) place kind
        → RefusesUnlessMemory place kind result }
{
    read_axiom(alloc, form, text, declared)
}
