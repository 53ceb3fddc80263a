// The equations' shapes: those that several operators share, and those of a few operators alone.
ghost use Rattle.std.specs.Prelude.{◌≡◌, IfOk};
ghost use Rattle.word_ops.specs.Operates.{row_of};
ghost use Rattle.word_ops.specs.Operators.{arity_of};
ghost use Rattle.word_terms.specs.Building as trees;
ghost use Rattle.word_terms.specs.Building.{w1, o1, o2};
ghost use Rattle.axiom_base.specs.Equations.{words_1, words_2, words_3};
ghost use Rattle.word_ops.specs.declared.operates.Operate.TheVariants.{Sll, Sra};

use crate::rule::Rule;
use items::NoMemory;
use std::alloc::Global;
use word_ops::{Operate, Sort, WordOp};
use word_terms::{constant, one, operate_1, operate_2, variable};

/// The operands may change places.
pub(crate) fn commutative(alloc: Global, op: Operate) -> Result<Rule, NoMemory>
    requires { (row_of op).arity ≡ 2 }
    ensures { IfOk result (λ rule. rule ≡ words_2 (λ x y. (o2 op x y, o2 op y x))) }
{
    let left = operate_2(alloc, op, variable(0), variable(1))?;
    let right = operate_2(alloc, op, variable(1), variable(0))?;
    Rule::over(alloc, &[Sort::Word, Sort::Word], left, right)
}

/// Of three operands, the last two may be joined first.
pub(crate) fn associative(alloc: Global, op: Operate) -> Result<Rule, NoMemory>
    requires { (row_of op).arity ≡ 2 }
    ensures { IfOk result (λ rule. rule ≡ words_3 (λ x y z. (o2 op (o2 op x y) z, o2 op x (o2 op y z)))) }
{
    let first = operate_2(alloc, op, variable(0), variable(1))?;
    let left = operate_2(alloc, op, first, variable(2))?;
    let last = operate_2(alloc, op, variable(1), variable(2))?;
    let right = operate_2(alloc, op, variable(0), last)?;
    Rule::over(alloc, &[Sort::Word, Sort::Word, Sort::Word], left, right)
}

/// The word as second operand gives the first.
pub(crate) fn neutral(alloc: Global, op: Operate, word: u64) -> Result<Rule, NoMemory>
    requires { (row_of op).arity ≡ 2 }
    ensures { IfOk result (λ rule. rule ≡ words_1 (λ x. (o2 op x (trees.constant word), x))) }
{
    let left = operate_2(alloc, op, variable(0), constant(alloc, word))?;
    let right = variable(0);
    Rule::over(alloc, &[Sort::Word], left, right)
}

/// The word as second operand gives that word.
pub(crate) fn absorbing(alloc: Global, op: Operate, word: u64) -> Result<Rule, NoMemory>
    requires { (row_of op).arity ≡ 2 }
    ensures { IfOk result (λ rule. rule ≡ words_1 (λ x. (o2 op x (trees.constant word), trees.constant word))) }
{
    let left = operate_2(alloc, op, variable(0), constant(alloc, word))?;
    let right = constant(alloc, word);
    Rule::over(alloc, &[Sort::Word], left, right)
}

/// Two equal operands give that operand.
pub(crate) fn idempotent(alloc: Global, op: Operate) -> Result<Rule, NoMemory>
    requires { (row_of op).arity ≡ 2 }
    ensures { IfOk result (λ rule. rule ≡ words_1 (λ x. (o2 op x x, x))) }
{
    let left = operate_2(alloc, op, variable(0), variable(0))?;
    let right = variable(0);
    Rule::over(alloc, &[Sort::Word], left, right)
}

/// Two equal operands give 0.
pub(crate) fn cancelling(alloc: Global, op: Operate) -> Result<Rule, NoMemory>
    requires { (row_of op).arity ≡ 2 }
    ensures { IfOk result (λ rule. rule ≡ words_1 (λ x. (o2 op x x, trees.constant 0))) }
{
    let left = operate_2(alloc, op, variable(0), variable(0))?;
    let right = constant(alloc, 0);
    Rule::over(alloc, &[Sort::Word], left, right)
}

/// Twice gives the operand.
pub(crate) fn involutive(alloc: Global, op: WordOp) -> Result<Rule, NoMemory>
    requires { arity_of op ≡ 1 }
    ensures { IfOk result (λ rule. rule ≡ words_1 (λ x. (w1 op (w1 op x), x))) }
{
    let once = one(alloc, op, variable(0))?;
    let left = one(alloc, op, once)?;
    let right = variable(0);
    Rule::over(alloc, &[Sort::Word], left, right)
}

/// An operator of one operand is `op` with 0 before it.
pub(crate) fn from_zero(alloc: Global, inverse: WordOp, op: Operate) -> Result<Rule, NoMemory>
    requires inverse { arity_of inverse ≡ 1 }
    requires op { (row_of op).arity ≡ 2 }
    ensures { IfOk result (λ rule. rule ≡ words_1 (λ x. (w1 inverse x, o2 op (trees.constant 0) x))) }
{
    let left = one(alloc, inverse, variable(0))?;
    let right = operate_2(alloc, op, constant(alloc, 0), variable(0))?;
    Rule::over(alloc, &[Sort::Word], left, right)
}

/// `outer` with the inverse as second operand is `op`.
pub(crate) fn of_inverse(
    alloc: Global,
    outer: Operate,
    inverse: WordOp,
    op: Operate,
) -> Result<Rule, NoMemory>
    requires outer { (row_of outer).arity ≡ 2 }
    requires inverse { arity_of inverse ≡ 1 }
    requires op { (row_of op).arity ≡ 2 }
    ensures { IfOk result (λ rule. rule ≡ words_2 (λ x y. (o2 outer x (w1 inverse y), o2 op x y))) }
{
    let second = one(alloc, inverse, variable(1))?;
    let left = operate_2(alloc, outer, variable(0), second)?;
    let right = operate_2(alloc, op, variable(0), variable(1))?;
    Rule::over(alloc, &[Sort::Word, Sort::Word], left, right)
}

/// `op` is `outer` with the inverse as second operand.
pub(crate) fn by_inverse(
    alloc: Global,
    op: Operate,
    outer: Operate,
    inverse: WordOp,
) -> Result<Rule, NoMemory>
    requires op { (row_of op).arity ≡ 2 }
    requires outer { (row_of outer).arity ≡ 2 }
    requires inverse { arity_of inverse ≡ 1 }
    ensures { IfOk result (λ rule. rule ≡ words_2 (λ x y. (o2 op x y, o2 outer x (w1 inverse y)))) }
{
    let left = operate_2(alloc, op, variable(0), variable(1))?;
    let second = one(alloc, inverse, variable(1))?;
    let right = operate_2(alloc, outer, variable(0), second)?;
    Rule::over(alloc, &[Sort::Word, Sort::Word], left, right)
}

/// `op` of a first operand that is shifted to the left is `scaled`.
pub(crate) fn scaled(
    alloc: Global,
    op: Operate,
    distance: u64,
    scaled: Operate,
) -> Result<Rule, NoMemory>
    requires op { (row_of op).arity ≡ 2 }
    requires scaled { (row_of scaled).arity ≡ 2 }
    ensures { IfOk result (λ rule. rule ≡
        words_2 (λ x y. (o2 op (o2 Sll x (trees.constant distance)) y, o2 scaled x y))) }
{
    let shifted = operate_2(alloc, Operate::Sll, variable(0), constant(alloc, distance))?;
    let left = operate_2(alloc, op, shifted, variable(1))?;
    let right = operate_2(alloc, scaled, variable(0), variable(1))?;
    Rule::over(alloc, &[Sort::Word, Sort::Word], left, right)
}

/// Shifted to the left and back with the sign is `extend`.
pub(crate) fn sign_extended(alloc: Global, distance: u64, extend: Operate) -> Result<Rule, NoMemory>
    requires { (row_of extend).arity ≡ 1 }
    ensures { IfOk result (λ rule. rule ≡ words_1 (λ x.
        (o2 Sra (o2 Sll x (trees.constant distance)) (trees.constant distance), o1 extend x))) }
{
    let shifted = operate_2(alloc, Operate::Sll, variable(0), constant(alloc, distance))?;
    let left = operate_2(alloc, Operate::Sra, shifted, constant(alloc, distance))?;
    let right = operate_1(alloc, extend, variable(0))?;
    Rule::over(alloc, &[Sort::Word], left, right)
}
