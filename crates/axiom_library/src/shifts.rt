// Extensions and rounding.
ghost use Rattle.std.specs.Prelude.{◌≡◌, IfOk, map};
ghost use Rattle.goal_meaning.specs.Views.{axiom_view};
ghost use Rattle.axiom_library.specs.Families as rows;

use crate::axiom::{over_x, over_xy};
use crate::building::by;
use goal_meaning::Axiom;
use items::NoMemory;
use std::alloc::Global;
use word_ops::{Operate, WordOp};
use word_terms::{constant, one, operate_1, operate_2, variable};

fn zero_extension(alloc: Global) -> Result<Axiom, NoMemory>
    ensures { IfOk result (λ a. axiom_view a ≡ rows.zero_extension) }
{
    let shifted = operate_2(alloc, Operate::Sll, variable(0), variable(1))?;
    let left = operate_2(alloc, Operate::Srl, shifted, variable(1))?;
    let ones = one(alloc, WordOp::Not, constant(alloc, 0))?;
    let mask = operate_2(alloc, Operate::Srl, ones, variable(1))?;
    let right = operate_2(alloc, Operate::And, variable(0), mask)?;
    over_xy(alloc, left, right)
}

fn by_sign(alloc: Global, mask: u64, sign: u64, extend: Operate) -> Result<Axiom, NoMemory>
    ensures { IfOk result (λ a. axiom_view a ≡ rows.by_sign mask sign extend) }
{
    let low = by(alloc, Operate::And, variable(0), mask)?;
    let changed = by(alloc, Operate::Xor, low, sign)?;
    let left = by(alloc, Operate::Subq, changed, sign)?;
    let right = operate_1(alloc, extend, variable(0))?;
    over_x(alloc, left, right)
}

pub(crate) fn extensions(alloc: Global) -> Result<Vec<Axiom>, NoMemory>
    ensures { IfOk result (λ axioms. map axiom_view axioms.items ≡ rows.extensions) }
{
    let mut axioms = Vec::new(alloc);
    axioms.push(zero_extension(alloc)?)?;
    let shifted = by(alloc, Operate::Sll, variable(0), 32)?;
    let left = by(alloc, Operate::Sra, shifted, 32)?;
    let right = by(alloc, Operate::Addl, variable(0), 0)?;
    axioms.push(over_x(alloc, left, right)?)?;
    axioms.push(by_sign(alloc, 255, 128, Operate::Sextb)?)?;
    axioms.push(by_sign(alloc, 65535, 32768, Operate::Sextw)?)?;
    Ok(axioms)
}

fn round_down(alloc: Global) -> Result<Axiom, NoMemory>
    ensures { IfOk result (λ a. axiom_view a ≡ rows.round_down) }
{
    let shifted = operate_2(alloc, Operate::Srl, variable(0), variable(1))?;
    let left = operate_2(alloc, Operate::Sll, shifted, variable(1))?;
    let power = operate_2(alloc, Operate::Sll, constant(alloc, 1), variable(1))?;
    let below = by(alloc, Operate::Subq, power, 1)?;
    let mask = one(alloc, WordOp::Not, below)?;
    let right = operate_2(alloc, Operate::And, variable(0), mask)?;
    over_xy(alloc, left, right)
}

fn round_up(alloc: Global, mask: u64) -> Result<Axiom, NoMemory>
    ensures { IfOk result (λ a. axiom_view a ≡ rows.round_up mask) }
{
    let negative = one(alloc, WordOp::Neg, variable(0))?;
    let rest = by(alloc, Operate::And, negative, mask)?;
    let left = operate_2(alloc, Operate::Addq, variable(0), rest)?;
    let sum = by(alloc, Operate::Addq, variable(0), mask)?;
    let right = by(alloc, Operate::Bic, sum, mask)?;
    over_x(alloc, left, right)
}

pub(crate) fn rounding(alloc: Global) -> Result<Vec<Axiom>, NoMemory>
    ensures { IfOk result (λ axioms. map axiom_view axioms.items ≡ rows.rounding) }
{
    let mut axioms = Vec::new(alloc);
    axioms.push(round_down(alloc)?)?;
    let rest = operate_2(alloc, Operate::And, variable(0), variable(1))?;
    let left = operate_2(alloc, Operate::Subq, variable(0), rest)?;
    let right = operate_2(alloc, Operate::Bic, variable(0), variable(1))?;
    axioms.push(over_xy(alloc, left, right)?)?;
    axioms.push(round_up(alloc, 3)?)?;
    axioms.push(round_up(alloc, 7)?)?;
    axioms.push(round_up(alloc, 15)?)?;
    Ok(axioms)
}
