// Carries and borrows.
ghost use Rattle.std.specs.Prelude.{◌≡◌, IfOk, map};
ghost use Rattle.goal_meaning.specs.Views.{axiom_view};
ghost use Rattle.word_terms.specs.Tree.{variable as variable_at};
ghost use Rattle.word_terms.specs.View.{tree_of};
ghost use Rattle.axiom_library.specs.Families as rows;

use crate::axiom::over_xy;
use crate::building::by;
use goal_meaning::Axiom;
use items::NoMemory;
use std::alloc::Global;
use word_ops::{Op, Operate, WordOp};
use word_terms::{Term, one, operate_2, variable};

fn carry(alloc: Global) -> Result<Term<Op>, NoMemory>
    ensures { IfOk result (λ t. tree_of t ≡ rows.carry (variable_at 0) (variable_at 1)) }
{
    let sum = operate_2(alloc, Operate::Addq, variable(0), variable(1))?;
    operate_2(alloc, Operate::Cmpult, sum, variable(0))
}

fn carry_of_bits(alloc: Global) -> Result<Axiom, NoMemory>
    ensures { IfOk result (λ a. axiom_view a ≡ rows.carry_of_bits) }
{
    let both = operate_2(alloc, Operate::And, variable(0), variable(1))?;
    let one_of_them = operate_2(alloc, Operate::Bis, variable(0), variable(1))?;
    let sum = operate_2(alloc, Operate::Addq, variable(0), variable(1))?;
    let lost = operate_2(alloc, Operate::Bic, one_of_them, sum)?;
    let bits = operate_2(alloc, Operate::Bis, both, lost)?;
    let left = by(alloc, Operate::Srl, bits, 63)?;
    over_xy(alloc, left, carry(alloc)?)
}

fn borrow_of_bits(alloc: Global) -> Result<Axiom, NoMemory>
    ensures { IfOk result (λ a. axiom_view a ≡ rows.borrow_of_bits) }
{
    let only_y = operate_2(alloc, Operate::Bic, variable(1), variable(0))?;
    let difference = operate_2(alloc, Operate::Subq, variable(0), variable(1))?;
    let differ = operate_2(alloc, Operate::Xor, variable(0), variable(1))?;
    let gained = operate_2(alloc, Operate::Bic, difference, differ)?;
    let bits = operate_2(alloc, Operate::Bis, only_y, gained)?;
    let left = by(alloc, Operate::Srl, bits, 63)?;
    let right = operate_2(alloc, Operate::Cmpult, variable(0), variable(1))?;
    over_xy(alloc, left, right)
}

pub(crate) fn carries(alloc: Global) -> Result<Vec<Axiom>, NoMemory>
    ensures { IfOk result (λ axioms. map axiom_view axioms.items ≡ rows.carries) }
{
    let mut axioms = Vec::new(alloc);
    let sum = operate_2(alloc, Operate::Addq, variable(0), variable(1))?;
    let by_other = operate_2(alloc, Operate::Cmpult, sum, variable(1))?;
    axioms.push(over_xy(alloc, carry(alloc)?, by_other)?)?;
    let opposite = one(alloc, WordOp::Not, variable(0))?;
    let by_not = operate_2(alloc, Operate::Cmpult, opposite, variable(1))?;
    axioms.push(over_xy(alloc, carry(alloc)?, by_not)?)?;
    axioms.push(carry_of_bits(alloc)?)?;
    axioms.push(borrow_of_bits(alloc)?)?;
    Ok(axioms)
}
