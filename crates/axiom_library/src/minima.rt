// Minima, maxima and absolute values, written with masks.
ghost use Rattle.std.specs.Prelude.{◌≡◌, IfOk, map};
ghost use Rattle.goal_meaning.specs.Views.{axiom_view};
ghost use Rattle.axiom_library.specs.Families as rows;

use crate::axiom::{over_x, over_xy, over_xym};
use crate::building::by;
use goal_meaning::Axiom;
use items::NoMemory;
use std::alloc::Global;
use word_ops::{Operate, WordOp};
use word_terms::{constant, one, operate_2, variable};

fn mask_of(alloc: Global, op: Operate, other: Operate) -> Result<Axiom, NoMemory>
    ensures { IfOk result (λ a. axiom_view a ≡ rows.mask_of op other) }
{
    let test = operate_2(alloc, op, variable(0), variable(1))?;
    let left = one(alloc, WordOp::Neg, test)?;
    let opposite = operate_2(alloc, other, variable(1), variable(0))?;
    let right = by(alloc, Operate::Subq, opposite, 1)?;
    over_xy(alloc, left, right)
}

fn chosen(alloc: Global) -> Result<Axiom, NoMemory>
    ensures { IfOk result (λ a. axiom_view a ≡ rows.chosen) }
{
    let from_x = operate_2(alloc, Operate::And, variable(0), variable(2))?;
    let from_y = operate_2(alloc, Operate::Bic, variable(1), variable(2))?;
    let left = operate_2(alloc, Operate::Bis, from_x, from_y)?;
    let difference = operate_2(alloc, Operate::Xor, variable(0), variable(1))?;
    let change = operate_2(alloc, Operate::And, difference, variable(2))?;
    let right = operate_2(alloc, Operate::Xor, variable(1), change)?;
    over_xym(alloc, left, right)
}

fn not_below_0(alloc: Global) -> Result<Axiom, NoMemory>
    ensures { IfOk result (λ a. axiom_view a ≡ rows.not_below_0) }
{
    let test = operate_2(alloc, Operate::Cmple, constant(alloc, 0), variable(0))?;
    let mask = one(alloc, WordOp::Neg, test)?;
    let left = operate_2(alloc, Operate::And, variable(0), mask)?;
    let sign = by(alloc, Operate::Sra, variable(0), 63)?;
    let right = operate_2(alloc, Operate::Bic, variable(0), sign)?;
    over_x(alloc, left, right)
}

pub(crate) fn minima(alloc: Global) -> Result<Vec<Axiom>, NoMemory>
    ensures { IfOk result (λ axioms. map axiom_view axioms.items ≡ rows.minima) }
{
    let mut axioms = Vec::new(alloc);
    let sign = by(alloc, Operate::Sra, variable(0), 63)?;
    let test = by(alloc, Operate::Cmplt, variable(0), 0)?;
    let mask = one(alloc, WordOp::Neg, test)?;
    axioms.push(over_x(alloc, mask, sign.copy(alloc)?)?)?;
    let test = operate_2(alloc, Operate::Cmple, constant(alloc, 0), variable(0))?;
    let mask = by(alloc, Operate::Subq, test, 1)?;
    axioms.push(over_x(alloc, mask, sign)?)?;
    axioms.push(mask_of(alloc, Operate::Cmpult, Operate::Cmpule)?)?;
    axioms.push(mask_of(alloc, Operate::Cmplt, Operate::Cmple)?)?;
    axioms.push(chosen(alloc)?)?;
    axioms.push(not_below_0(alloc)?)?;
    Ok(axioms)
}
