// Comparisons.
ghost use Rattle.std.specs.Prelude.{◌≡◌, IfOk, map};
ghost use Rattle.goal_meaning.specs.Views.{axiom_view};
ghost use Rattle.axiom_library.specs.Families as rows;
ghost use Rattle.axiom_library.specs.Families.{axioms_of};
ghost use Rattle.axiom_library.specs.declared.families.Family.TheVariants as families;

use crate::axiom::{over_x, over_xy};
use crate::building::by;
use goal_meaning::Axiom;
use items::NoMemory;
use std::alloc::Global;
use word_ops::Operate;
use word_terms::{operate_2, variable};

fn opposite(alloc: Global, op: Operate, other: Operate) -> Result<Axiom, NoMemory>
    ensures { IfOk result (λ a. axiom_view a ≡ rows.opposite op other) }
{
    let test = operate_2(alloc, op, variable(0), variable(1))?;
    let left = by(alloc, Operate::Cmpeq, test, 0)?;
    let right = operate_2(alloc, other, variable(1), variable(0))?;
    over_xy(alloc, left, right)
}

fn changed(alloc: Global, op: Operate, other: Operate) -> Result<Axiom, NoMemory>
    ensures { IfOk result (λ a. axiom_view a ≡ rows.changed op other) }
{
    let test = operate_2(alloc, op, variable(0), variable(1))?;
    let left = by(alloc, Operate::Xor, test, 1)?;
    let right = operate_2(alloc, other, variable(1), variable(0))?;
    over_xy(alloc, left, right)
}

fn negated_comparisons(alloc: Global) -> Result<Vec<Axiom>, NoMemory>
    ensures { IfOk result (λ axioms. map axiom_view axioms.items ≡ rows.negated_comparisons) }
{
    let mut axioms = Vec::new(alloc);
    axioms.push(opposite(alloc, Operate::Cmpult, Operate::Cmpule)?)?;
    axioms.push(opposite(alloc, Operate::Cmpule, Operate::Cmpult)?)?;
    axioms.push(opposite(alloc, Operate::Cmplt, Operate::Cmple)?)?;
    axioms.push(opposite(alloc, Operate::Cmple, Operate::Cmplt)?)?;
    axioms.push(changed(alloc, Operate::Cmpult, Operate::Cmpule)?)?;
    axioms.push(changed(alloc, Operate::Cmpule, Operate::Cmpult)?)?;
    axioms.push(changed(alloc, Operate::Cmplt, Operate::Cmple)?)?;
    axioms.push(changed(alloc, Operate::Cmple, Operate::Cmplt)?)?;
    Ok(axioms)
}

/// The operator gives 0 exactly where the operands are equal.
fn no_difference(alloc: Global, op: Operate) -> Result<Axiom, NoMemory>
    ensures { IfOk result (λ a. axiom_view a ≡ rows.no_difference op) }
{
    let difference = operate_2(alloc, op, variable(0), variable(1))?;
    let left = by(alloc, Operate::Cmpeq, difference, 0)?;
    let right = operate_2(alloc, Operate::Cmpeq, variable(0), variable(1))?;
    over_xy(alloc, left, right)
}

/// An operator with a constant is a comparison with 0.
fn with_0(alloc: Global, op: Operate, word: u64, comparison: Operate) -> Result<Axiom, NoMemory>
    ensures { IfOk result (λ a. axiom_view a ≡ rows.with_0 op word comparison) }
{
    let left = by(alloc, op, variable(0), word)?;
    let right = by(alloc, comparison, variable(0), 0)?;
    over_x(alloc, left, right)
}

fn equalities(alloc: Global) -> Result<Vec<Axiom>, NoMemory>
    ensures { IfOk result (λ axioms. map axiom_view axioms.items ≡ rows.equalities) }
{
    let mut axioms = Vec::new(alloc);
    axioms.push(no_difference(alloc, Operate::Subq)?)?;
    axioms.push(no_difference(alloc, Operate::Xor)?)?;
    axioms.push(with_0(alloc, Operate::Srl, 63, Operate::Cmplt)?)?;
    axioms.push(with_0(alloc, Operate::Cmpult, 1, Operate::Cmpeq)?)?;
    Ok(axioms)
}

pub(crate) fn comparisons(alloc: Global) -> Result<Vec<Axiom>, NoMemory>
    ensures { IfOk result (λ axioms. map axiom_view axioms.items ≡ axioms_of families.Comparisons) }
{
    let mut axioms = negated_comparisons(alloc)?;
    axioms.append(&mut equalities(alloc)?)?;
    Ok(axioms)
}
