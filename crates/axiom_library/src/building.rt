// Terms that several axioms share.
ghost use Rattle.std.specs.Prelude.{◌≡◌, IfOk};
ghost use Rattle.word_terms.specs.View.{tree_of};
ghost use Rattle.word_terms.specs.Building as trees;
ghost use Rattle.axiom_library.specs.Shapes as shapes;
ghost use Rattle.word_ops.specs.declared.operators.WordOp.TheVariants.{Storeb};

use items::NoMemory;
use std::alloc::Global;
use word_ops::{Op, Operate, WordOp};
use word_terms::{Term, constant, operate_2, three};

/// With a constant as second operand.
pub(crate) fn by(alloc: Global, op: Operate, a: Term<Op>, word: u64) -> Result<Term<Op>, NoMemory>
    ensures { IfOk result (λ t. tree_of t ≡ trees.o2 op (tree_of a) (trees.constant word)) }
{
    operate_2(alloc, op, a, constant(alloc, word))
}

/// The term and the term shifted to the left, joined by the operator.
pub(crate) fn repeated(
    alloc: Global,
    op: Operate,
    distance: u64,
    t: &Term<Op>,
) -> Result<Term<Op>, NoMemory>
    ensures { IfOk result (λ r. tree_of r ≡ shapes.repeated op distance (tree_of t.now)) }
{
    let shifted = by(alloc, Operate::Sll, t.copy(alloc)?, distance)?;
    operate_2(alloc, op, t.copy(alloc)?, shifted)
}

/// The term shifted to the right, with the bytes of the first mask, and to the left, with those of the second.
pub(crate) fn swapped(
    alloc: Global,
    distance: u64,
    right: u64,
    left: u64,
    t: &Term<Op>,
) -> Result<Term<Op>, NoMemory>
    ensures { IfOk result (λ r. tree_of r ≡ shapes.swapped distance right left (tree_of t.now)) }
{
    let down = by(alloc, Operate::Srl, t.copy(alloc)?, distance)?;
    let up = by(alloc, Operate::Sll, t.copy(alloc)?, distance)?;
    let low = by(alloc, Operate::Zapnot, down, right)?;
    let high = by(alloc, Operate::Zapnot, up, left)?;
    operate_2(alloc, Operate::Bis, low, high)
}

/// The term with the low byte of another put in at a place.
pub(crate) fn stored(
    alloc: Global,
    t: Term<Op>,
    at: u64,
    byte: Term<Op>,
) -> Result<Term<Op>, NoMemory>
    ensures { IfOk result (λ r. tree_of r ≡ trees.w3 Storeb (tree_of t) (trees.constant at) (tree_of byte)) }
{
    three(alloc, WordOp::Storeb, t, constant(alloc, at), byte)
}
