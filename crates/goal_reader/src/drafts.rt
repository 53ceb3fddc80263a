// A goal that is being read, item by item.
ghost use Rattle.std.specs.Prelude.{◌≡◌, ◌≤◌, ◌<◌, ℕ, List, length, IfOk, IfErr, Some, None, true, false};
ghost use Rattle.text_core.specs.Limits.{most_declared};
ghost use Rattle.text_core.specs.Faults.{IsFirst, IsFaultBy};
ghost use Rattle.forms.specs.Forms.{sexp_form};
ghost use Rattle.forms.specs.Reading.{IsSexpOf};
ghost use Rattle.goal_reader.specs.Roles.{IsFaultAs, is_of_rank, rank, goal_keywords};
ghost use Rattle.goal_reader.specs.Reading.{IsClear};
ghost use Rattle.goal_reader.specs.Drafts.{IsNext, draft_role, pool_read};
ghost use Rattle.goal_reader.specs.Keywords.{item_rank};
ghost use Rattle.goal_meaning.specs.Rules.{most_lets};

use crate::assumes::assume;
use crate::guards::guard;
use crate::inputs::input;
use crate::keywords::ItemKeyword;
use crate::lets::binding;
use crate::pools::pool;
use crate::scopes::{Leaf, Named, Scope};
use crate::targets::target;
use goal_meaning::{Assume, InputReg, Let, Set};
use items::Items;
use std::alloc::Global;
use text_core::{Sexp, TextFault};
use word_ops::Op;
use word_terms::Term;

/// What the items that were read give.
#[derive(Drop)]
pub struct Draft {
    pub scope: Scope,
    pub inputs: Items<InputReg>,
    pub pool: Option<Items<u8>>,
    pub lets: Items<Let>,
    pub assumes: Items<Assume>,
    pub guard: Option<Term<Op>>,
    pub sets: Items<Set>,
}

fn add_input(alloc: Global, form: &Sexp, text: &[u8], draft: Draft) -> Result<Draft, TextFault>
    requires of { IsSexpOf text.now form.now }
    requires keyword { is_of_rank goal_keywords 0 (sexp_form text.now form.now) ≡ true }
    ensures next { IfOk result (λ next. IsNext (sexp_form text.now form.now) draft 0 next) }
    ensures clear { IfOk result (λ _. IsClear (draft_role draft 0) (sexp_form text.now form.now)) }
    ensures fault { IfErr result (IsFaultBy (IsFirst (IsFaultAs (draft_role draft 0) (sexp_form text.now form.now)))) }
{
    let input = input(
        alloc,
        form,
        text,
        draft.scope.declared.as_slice(),
        draft.inputs.as_slice(),
    )?;
    let Draft {
        scope,
        mut inputs,
        pool,
        lets,
        assumes,
        guard,
        sets,
    } = draft;
    let Scope {
        declared,
        mut leaves,
    } = scope;
    let name = input.name.copy()?;
    let named = Named::Input(input.reg);
    leaves.push(Leaf { name, named })?;
    inputs.push(input)?;
    let scope = Scope { declared, leaves };
    Ok(Draft {
        scope,
        inputs,
        pool,
        lets,
        assumes,
        guard,
        sets,
    })
}

fn add_pool(alloc: Global, form: &Sexp, text: &[u8], draft: Draft) -> Result<Draft, TextFault>
    requires of { IsSexpOf text.now form.now }
    requires keyword { is_of_rank goal_keywords 1 (sexp_form text.now form.now) ≡ true }
    ensures next { IfOk result (λ next. IsNext (sexp_form text.now form.now) draft 1 next) }
    ensures clear { IfOk result (λ _. IsClear (draft_role draft 1) (sexp_form text.now form.now)) }
    ensures fault { IfErr result (IsFaultBy (IsFirst (IsFaultAs (draft_role draft 1) (sexp_form text.now form.now)))) }
{
    let registers = pool(alloc, form, text, draft.inputs.as_slice())?;
    let Draft {
        scope,
        inputs,
        lets,
        assumes,
        guard,
        sets,
        ..
    } = draft;
    let pool = Some(Items::from(registers));
    Ok(Draft {
        scope,
        inputs,
        pool,
        lets,
        assumes,
        guard,
        sets,
    })
}

fn add_let(alloc: Global, form: &Sexp, text: &[u8], draft: Draft) -> Result<Draft, TextFault>
    requires of { IsSexpOf text.now form.now }
    requires few { length draft.scope.declared ≤ most_declared }
    requires few_lets { length draft.lets < most_lets }
    requires keyword { is_of_rank goal_keywords 2 (sexp_form text.now form.now) ≡ true }
    ensures next { IfOk result (λ next. IsNext (sexp_form text.now form.now) draft 2 next) }
    ensures clear { IfOk result (λ _. IsClear (draft_role draft 2) (sexp_form text.now form.now)) }
    ensures fault { IfErr result (IsFaultBy (IsFirst (IsFaultAs (draft_role draft 2) (sexp_form text.now form.now)))) }
{
    let inputs = draft.inputs.as_slice();
    let (one, sort) = binding(
        alloc,
        form,
        text,
        &draft.scope,
        inputs,
        draft.lets.as_slice(),
    )?;
    let Draft {
        scope,
        inputs,
        pool,
        mut lets,
        assumes,
        guard,
        sets,
    } = draft;
    let Scope {
        declared,
        mut leaves,
    } = scope;
    let name = one.name.copy()?;
    let named = Named::Let(lets.len() as u32, sort);
    leaves.push(Leaf { name, named })?;
    lets.push(one)?;
    let scope = Scope { declared, leaves };
    Ok(Draft {
        scope,
        inputs,
        pool,
        lets,
        assumes,
        guard,
        sets,
    })
}

fn add_assume(alloc: Global, form: &Sexp, text: &[u8], draft: Draft) -> Result<Draft, TextFault>
    requires of { IsSexpOf text.now form.now }
    requires few { length draft.scope.declared ≤ most_declared }
    requires keyword { is_of_rank goal_keywords 3 (sexp_form text.now form.now) ≡ true }
    ensures next { IfOk result (λ next. IsNext (sexp_form text.now form.now) draft 3 next) }
    ensures clear { IfOk result (λ _. IsClear (draft_role draft 3) (sexp_form text.now form.now)) }
    ensures fault { IfErr result (IsFaultBy (IsFirst (IsFaultAs (draft_role draft 3) (sexp_form text.now form.now)))) }
{
    let one = assume(alloc, form, text, &draft.scope)?;
    let Draft {
        scope,
        inputs,
        pool,
        lets,
        mut assumes,
        guard,
        sets,
    } = draft;
    assumes.push(one)?;
    Ok(Draft {
        scope,
        inputs,
        pool,
        lets,
        assumes,
        guard,
        sets,
    })
}

fn add_guard(alloc: Global, form: &Sexp, text: &[u8], draft: Draft) -> Result<Draft, TextFault>
    requires of { IsSexpOf text.now form.now }
    requires few { length draft.scope.declared ≤ most_declared }
    requires keyword { is_of_rank goal_keywords 4 (sexp_form text.now form.now) ≡ true }
    ensures next { IfOk result (λ next. IsNext (sexp_form text.now form.now) draft 4 next) }
    ensures clear { IfOk result (λ _. IsClear (draft_role draft 4) (sexp_form text.now form.now)) }
    ensures fault { IfErr result (IsFaultBy (IsFirst (IsFaultAs (draft_role draft 4) (sexp_form text.now form.now)))) }
{
    let term = guard(alloc, form, text, &draft.scope)?;
    let Draft {
        scope,
        inputs,
        pool,
        lets,
        assumes,
        sets,
        ..
    } = draft;
    let guard = Some(term);
    Ok(Draft {
        scope,
        inputs,
        pool,
        lets,
        assumes,
        guard,
        sets,
    })
}

// The registers of the pool, none where there is no pool yet.
fn registers_of_pool(pool: &Option<Items<u8>>) -> &[u8]
    ensures { result.now ≡ pool_read pool.now }
{
    match pool {
        Some(pool) => pool.as_slice(),
        None => &[],
    }
}

fn add_target(alloc: Global, form: &Sexp, text: &[u8], draft: Draft) -> Result<Draft, TextFault>
    requires of { IsSexpOf text.now form.now }
    requires few { length draft.scope.declared ≤ most_declared }
    requires keyword { is_of_rank goal_keywords 5 (sexp_form text.now form.now) ≡ true }
    ensures next { IfOk result (λ next. IsNext (sexp_form text.now form.now) draft 5 next) }
    ensures clear { IfOk result (λ _. IsClear (draft_role draft 5) (sexp_form text.now form.now)) }
    ensures fault { IfErr result (IsFaultBy (IsFirst (IsFaultAs (draft_role draft 5) (sexp_form text.now form.now)))) }
{
    let pool = registers_of_pool(&draft.pool);
    let one = target(alloc, form, text, &draft.scope, pool, draft.sets.as_slice())?;
    let Draft {
        scope,
        inputs,
        pool,
        lets,
        assumes,
        guard,
        mut sets,
    } = draft;
    sets.push(one)?;
    Ok(Draft {
        scope,
        inputs,
        pool,
        lets,
        assumes,
        guard,
        sets,
    })
}

/// Reads an item with this keyword, given what was read before it.
pub fn item(
    alloc: Global,
    form: &Sexp,
    text: &[u8],
    keyword: ItemKeyword,
    draft: Draft,
) -> Result<Draft, TextFault>
    requires of { IsSexpOf text.now form.now }
    requires few { length draft.scope.declared ≤ most_declared }
    requires few_lets { item_rank keyword ≡ 2 → length draft.lets < most_lets }
    requires keyword { rank goal_keywords (sexp_form text.now form.now) ≡ Some (item_rank keyword) }
    ensures next { IfOk result (λ next. IsNext (sexp_form text.now form.now) draft (item_rank keyword) next) }
    ensures clear { IfOk result (λ _. IsClear (draft_role draft (item_rank keyword)) (sexp_form text.now form.now)) }
    ensures fault { IfErr result (IsFaultBy (IsFirst (IsFaultAs (draft_role draft (item_rank keyword))
        (sexp_form text.now form.now)))) }
{
    match keyword {
        ItemKeyword::In => add_input(alloc, form, text, draft),
        ItemKeyword::Pool => add_pool(alloc, form, text, draft),
        ItemKeyword::Let => add_let(alloc, form, text, draft),
        ItemKeyword::Assume => add_assume(alloc, form, text, draft),
        ItemKeyword::When => add_guard(alloc, form, text, draft),
        ItemKeyword::Set => add_target(alloc, form, text, draft),
    }
}
