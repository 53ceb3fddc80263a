// Reading the assumptions of a goal.
ghost use Rattle.std.specs.Prelude.{◌≡◌, ◌≤◌, length, IfOk, IfErr, Some, None, true};
ghost use Rattle.text_core.specs.Limits.{most_declared};
ghost use Rattle.word_terms.specs.View.{tree_of};
ghost use Rattle.text_core.specs.Faults.{IsFirst, IsFaultBy};
ghost use Rattle.forms.specs.Forms.{sexp_form};
ghost use Rattle.forms.specs.Reading.{IsSexpOf};
ghost use Rattle.goal_reader.specs.Roles as roles;
ghost use Rattle.goal_reader.specs.Roles.{IsFaultAs, is_of_rank, goal_keywords, part_sort};
ghost use Rattle.goal_reader.specs.Reading.{IsClear, WritesPart};

use crate::scopes::Scope;
use crate::terms::{sort_told, term};
use forms::{at, parts, place, sexps_are_forms};
use goal_meaning::Assume;
use std::alloc::Global;
use text_core::{Kind, Sexp, TextFault};

/// Reads `( assume term term )`.
pub fn assume(alloc: Global, form: &Sexp, text: &[u8], scope: &Scope) -> Result<Assume, TextFault>
    requires of { IsSexpOf text.now form.now }
    requires few { length scope.now.declared ≤ most_declared }
    requires keyword { is_of_rank goal_keywords 3 (sexp_form text.now form.now) ≡ true }
    ensures left { IfOk result (λ a. WritesPart scope.now None (sexp_form text.now form.now) 1 (tree_of a.left)) }
    ensures right { IfOk result (λ a. WritesPart scope.now (part_sort scope.now (sexp_form text.now form.now) 1)
        (sexp_form text.now form.now) 2 (tree_of a.right)) }
    ensures clear { IfOk result (λ _. IsClear (roles.a_list (roles.assume scope.now)) (sexp_form text.now form.now)) }
    ensures fault { IfErr result (IsFaultBy (IsFirst (IsFaultAs (roles.a_list (roles.assume scope.now))
        (sexp_form text.now form.now)))) }
{
    sexps_are_forms();
    let Some(parts) = parts(form) else {
        unreachable!();
    };
    if parts.len() < 3 {
        return Err(at(place(form), Kind::BadForm));
    }
    let first = &parts[1];
    let left = term(alloc, first, text, scope, None)?;
    let sort = sort_told(first, text, scope);
    let right = term(alloc, &parts[2], text, scope, sort)?;
    if parts.len() > 3 {
        return Err(at(place(&parts[3]), Kind::BadForm));
    }
    Ok(Assume { left, right })
}
