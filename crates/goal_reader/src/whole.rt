// Reading a goal.
ghost use Rattle.std.specs.Prelude.{◌≡◌, ◌≤◌, ◌++◌, ℕ, [], filter, not, length, IfOk, IfErr, Some, false};
ghost use Rattle.std.specs.List.{list_any};
ghost use Rattle.text_core.specs.Limits.{most_declared};
ghost use Rattle.text_core.specs.Faults.{GivesUnlessMemory, IsFaultBy, IsFirst, RefusesUnlessMemory};
ghost use Rattle.text_core.specs.declared.faults.Kind.{Kind as FaultKind};
ghost use Rattle.forms.specs.Forms.{sexp_form, sexp_forms, name_in};
ghost use Rattle.forms.specs.Reading.{IsSexpOf};
ghost use Rattle.std.specs.Prelude.{All};
ghost use Rattle.goal_reader.specs.Roles as roles;
ghost use Rattle.text_core.specs.Names.{is_among};
ghost use Rattle.goal_reader.specs.Roles.{IsFaultAs, is_of_rank, goal_keywords, text_keywords, rank, second_name, items_of_goal};
ghost use Rattle.goal_meaning.specs.Rules.{has_register, default_pool as default_registers, free_registers};
ghost use Rattle.goal_reader.specs.Reading.{IsClear, pins_of_targets};
ghost use Rattle.goal_meaning.specs.WellFormed.{input_registers};
ghost use Rattle.goal_reader.specs.Drafts.{names_of_goals, IsDraft, IsWritten, KeepsSoFar, pool_kept};
ghost use Rattle.goal_reader.specs.Grammar.{WritesGoal};
ghost use Rattle.goal_meaning.specs.Views.{GoalTree, goal_view};

use crate::drafts::{Draft, item};
use crate::inputs::is_given;
use crate::keywords::{ItemKeyword, admitted_item, item_keyword};
use crate::order::Order;
use crate::scopes::{Leaf, Named, Scope};
use crate::targets::is_pin;
use forms::{at, name, parts, place, sexps_are_forms};
use goal_meaning::{DeclaredOp, FREE_REGISTERS, Goal, InputReg, Set};
use items::{Items, NoMemory};
use std::alloc::Global;
use text_core::{Kind, Name, Sexp, TextFault};

fn is_goal(goals: &[Goal], name: &[u8]) -> bool
    ensures { result ≡ is_among (names_of_goals goals.now) name.now }
{
    for goal in goals {
        if goal.name.bytes() == name {
            return true;
        }
    }
    false
}

// A name that no earlier goal has.
fn goal_name<'a>(form: &Sexp, text: &'a [u8], goals: &[Goal]) -> Result<&'a [u8], TextFault>
    requires of { IsSexpOf text.now form.now }
    ensures named { IfOk result (λ bytes. name_in (sexp_form text.now form.now) ≡ Some bytes.now) }
    ensures fresh { IfOk result (λ bytes. is_among (names_of_goals goals.now) bytes.now ≡ false) }
    ensures fault { IfErr result (IsFaultBy (IsFirst (IsFaultAs (roles.fresh_name (names_of_goals goals.now))
        (sexp_form text.now form.now)))) }
{
    sexps_are_forms();
    let Some(bytes) = name(form, text) else {
        return Err(at(place(form), Kind::BadForm));
    };
    if is_goal(goals, bytes) {
        return Err(at(place(form), Kind::Twice));
    }
    Ok(bytes)
}

// Whether some item is a `set`.
fn has_target(items: &[Sexp], text: &[u8]) -> bool
    requires of { All (IsSexpOf text.now) items.now }
    ensures { result ≡ list_any (is_of_rank goal_keywords 5) (sexp_forms text.now items.now) }
{
    for item in items {
        if let Some(ItemKeyword::Set) = item_keyword(item, text) {
            return true;
        }
    }
    false
}

// Before the first item.
fn start(alloc: Global, declared: Items<DeclaredOp>) -> Result<Draft, NoMemory>
    ensures draft { IfOk result (λ draft. IsDraft declared [] draft) }
    ensures written { IfOk result (λ draft. IsWritten [] draft) }
    ensures keeps { IfOk result (KeepsSoFar declared) }
{
    let mut leaves = Items::new(alloc);
    let name = Name::new(alloc, b"M")?;
    let named = Named::Memory;
    leaves.push(Leaf { name, named })?;
    Ok(Draft {
        scope: Scope { declared, leaves },
        inputs: Items::new(alloc),
        pool: None,
        lets: Items::new(alloc),
        assumes: Items::new(alloc),
        guard: None,
        sets: Items::new(alloc),
    })
}

/// Reads the items of a goal.
fn items(
    alloc: Global,
    form: &Sexp,
    text: &[u8],
    declared: Items<DeclaredOp>,
    goals: &[Goal],
) -> Result<(Name, Draft), TextFault>
    requires of { IsSexpOf text.now form.now }
    requires few { length declared ≤ most_declared }
    ensures named { IfOk result (λ read. second_name (sexp_form text.now form.now) ≡ Some read.0) }
    ensures draft { IfOk result (λ read. IsDraft declared (items_of_goal (sexp_form text.now form.now)) read.1) }
    ensures written { IfOk result (λ read. IsWritten (items_of_goal (sexp_form text.now form.now)) read.1) }
    ensures keeps { IfOk result (λ read. KeepsSoFar declared read.1) }
    ensures fresh { IfOk result (λ read. is_among (names_of_goals goals.now) read.0 ≡ false) }
    ensures clear { IfOk result (λ _. IsClear (roles.a_list (roles.goal declared (names_of_goals goals.now)))
        (sexp_form text.now form.now)) }
    ensures fault { IfErr result (IsFaultBy (IsFirst (IsFaultAs (roles.a_list (roles.goal declared
        (names_of_goals goals.now))) (sexp_form text.now form.now)))) }
{
    sexps_are_forms();
    let Some(parts) = parts(form) else {
        return Err(at(place(form), Kind::BadForm));
    };
    if parts.len() < 2 {
        return Err(at(place(form), Kind::BadForm));
    }
    if !has_target(&parts[2..], text) {
        return Err(at(place(form), Kind::BadForm));
    }
    let bytes = goal_name(&parts[1], text, goals)?;
    let mut order = Order::new();
    let mut draft = start(alloc, declared)?;
    for index in 2..parts.len() {
        let part = &parts[index];
        let keyword = admitted_item(part, text, &order)?;
        draft = item(alloc, part, text, keyword, draft)?;
        order = order.after(keyword.rank());
    }
    let name = Name::new(alloc, bytes)?;
    Ok((name, draft))
}

/// Those of the registers that are neither an input's nor a pin.
fn not_taken(
    alloc: Global,
    inputs: &[InputReg],
    targets: &[Set],
    among: &[u8],
) -> Result<Items<u8>, NoMemory>
    ensures { IfOk result (λ pool. pool ≡ filter (λ r. not (has_register (input_registers inputs.now
        ++ pins_of_targets targets.now) r)) among.now) }
{
    let mut pool = Items::new(alloc);
    for register in among {
        if !is_given(inputs, *register) && !is_pin(targets, *register) {
            pool.push(*register)?;
        }
    }
    Ok(pool)
}

/// The pool that was read, or else the default one.
pub fn pool_or_default(
    alloc: Global,
    pool: Option<Items<u8>>,
    inputs: &[InputReg],
    targets: &[Set],
) -> Result<Items<u8>, NoMemory>
    ensures { IfOk result (λ kept. kept ≡ pool_kept (input_registers inputs.now ++ pins_of_targets targets.now) pool) }
{
    match pool {
        Some(pool) => Ok(pool),
        None => not_taken(alloc, inputs, targets, &FREE_REGISTERS),
    }
}

fn read_goal(
    alloc: Global,
    form: &Sexp,
    text: &[u8],
    declared: Items<DeclaredOp>,
    goals: &[Goal],
) -> Result<(Goal, Items<DeclaredOp>), TextFault>
    requires of { IsSexpOf text.now form.now }
    requires few { length declared ≤ most_declared }
    requires keyword { rank text_keywords (sexp_form text.now form.now) ≡ Some 3 }
    ensures goal { IfOk result (λ read. WritesGoal declared (sexp_form text.now form.now) (goal_view read.0)) }
    ensures fresh { IfOk result (λ read. is_among (names_of_goals goals.now) read.0.name ≡ false) }
    ensures declared { IfOk result (λ read. read.1 ≡ declared) }
    ensures clear { IfOk result (λ _. IsClear (roles.a_list (roles.goal declared (names_of_goals goals.now)))
        (sexp_form text.now form.now)) }
    ensures fault { IfErr result (IsFaultBy (IsFirst (IsFaultAs (roles.a_list (roles.goal declared
        (names_of_goals goals.now))) (sexp_form text.now form.now)))) }
{
    let (name, draft) = items(alloc, form, text, declared, goals)?;
    let Draft {
        scope,
        inputs,
        pool,
        lets,
        assumes,
        guard,
        sets,
    } = draft;
    let pool = pool_or_default(alloc, pool, inputs.as_slice(), sets.as_slice())?;
    let Scope { declared, .. } = scope;
    let goal = Goal {
        name,
        inputs,
        pool,
        lets,
        assumes,
        guard,
        sets,
    };
    Ok((goal, declared))
}

/// Reads a goal, given the goals before it. The declared operators are given back. The cost is linear in the length of
/// the text, beside the search for names.
pub fn goal(
    alloc: Global,
    form: &Sexp,
    text: &[u8],
    declared: Items<DeclaredOp>,
    goals: &[Goal],
) -> Result<(Goal, Items<DeclaredOp>), TextFault>
    requires of { IsSexpOf text.now form.now }
    requires few { length declared ≤ most_declared }
    requires keyword { rank text_keywords (sexp_form text.now form.now) ≡ Some 3 }

    // What is read is in the grammar, and what is in it is read.
    ensures goal { IfOk result (λ read. WritesGoal declared (sexp_form text.now form.now) (goal_view read.0)) }
    ensures fresh { IfOk result (λ read. is_among (names_of_goals goals.now) read.0.name ≡ false) }
    ensures read { (goal : GoalTree) → WritesGoal declared (sexp_form text.now form.now) goal
        → is_among (names_of_goals goals.now) goal.name ≡ false
        → GivesUnlessMemory (λ read. goal_view read.0 ≡ goal) result }
    ensures declared { IfOk result (λ read. read.1 ≡ declared) }

    // A fault is the first one, and where there is one it is answered.
    ensures clear { IfOk result (λ _.
        IsClear (roles.a_list (roles.goal declared (names_of_goals goals.now))) (sexp_form text.now form.now)) }
    ensures fault { IfErr result (IsFaultBy (IsFirst
        (IsFaultAs (roles.a_list (roles.goal declared (names_of_goals goals.now))) (sexp_form text.now form.now)))) }
    ensures refused { (place : ℕ) (kind : FaultKind)
        → IsFirst (IsFaultAs (roles.a_list (roles.goal declared (names_of_goals goals.now)))
        (sexp_form text.now form.now)) place kind
        → RefusesUnlessMemory place kind result }
{
    read_goal(alloc, form, text, declared, goals)
}
