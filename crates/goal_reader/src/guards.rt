// Reading the guard of a goal.
ghost use Rattle.std.specs.Prelude.{◌≡◌, ◌≤◌, ◌+◌, length, IfOk, IfErr, Some, slice_get, true};
ghost use Rattle.text_core.specs.Limits.{most_declared};
ghost use Rattle.word_ops.specs.declared.sorts.Sort.TheVariants as sorts;
ghost use Rattle.word_terms.specs.View.{tree_of};
ghost use Rattle.text_core.specs.Faults.{IsFirst, IsFaultBy};
ghost use Rattle.forms.specs.Forms.{sexp_form};
ghost use Rattle.forms.specs.Reading.{IsSexpOf};
ghost use Rattle.goal_reader.specs.Roles as roles;
ghost use Rattle.goal_reader.specs.Roles.{IsFaultAs, is_of_rank, goal_keywords};
ghost use Rattle.goal_reader.specs.Reading.{IsClear, WritesPart};

use crate::scopes::Scope;
use crate::terms::term;
use forms::{at, parts, place, sexps_are_forms};
use std::alloc::Global;
use text_core::{Kind, Sexp, TextFault};
use word_ops::{Op, Sort};
use word_terms::Term;

/// Reads `( when term )`.
pub fn guard(alloc: Global, form: &Sexp, text: &[u8], scope: &Scope) -> Result<Term<Op>, TextFault>
    requires of { IsSexpOf text.now form.now }
    requires few { length scope.now.declared ≤ most_declared }
    requires keyword { is_of_rank goal_keywords 4 (sexp_form text.now form.now) ≡ true }
    ensures term { IfOk result (λ t. WritesPart scope.now (Some sorts.Word) (sexp_form text.now form.now) 1
        (tree_of t)) }
    ensures clear { IfOk result (λ _. IsClear (roles.a_list (roles.guard scope.now)) (sexp_form text.now form.now)) }
    ensures fault { IfErr result (IsFaultBy (IsFirst (IsFaultAs (roles.a_list (roles.guard scope.now))
        (sexp_form text.now form.now)))) }
{
    sexps_are_forms();
    let Some(parts) = parts(form) else {
        unreachable!();
    };
    if parts.len() < 2 {
        return Err(at(place(form), Kind::BadForm));
    }
    let guard = term(alloc, &parts[1], text, scope, Some(Sort::Word))?;
    if parts.len() > 2 {
        return Err(at(place(&parts[2]), Kind::BadForm));
    }
    Ok(guard)
}
