// Terms over the operators of words and memories, built operand by operand.
ghost use Rattle.std.specs.Prelude.{◌≡◌, IfOk};
ghost use Rattle.word_terms.specs.View.{tree_of};
ghost use Rattle.word_terms.specs.Building as trees;

use crate::term::{Term, application};
use items::NoMemory;
use std::alloc::Global;
use word_ops::{Access, Op, Operate, WordOp};

/// The constant.
pub fn constant(alloc: Global, word: u64) -> Term<Op>
    ensures { tree_of result ≡ trees.constant word }
{
    application(Op::Constant(word), Vec::new(alloc))
}

/// An operator of words over one operand.
pub fn one(alloc: Global, op: WordOp, a: Term<Op>) -> Result<Term<Op>, NoMemory>
    ensures { IfOk result (λ t. tree_of t ≡ trees.w1 op (tree_of a)) }
{
    Ok(application(Op::Word(op), vec![in alloc; a]?))
}

/// Over two.
pub fn two(alloc: Global, op: WordOp, a: Term<Op>, b: Term<Op>) -> Result<Term<Op>, NoMemory>
    ensures { IfOk result (λ t. tree_of t ≡ trees.w2 op (tree_of a) (tree_of b)) }
{
    Ok(application(Op::Word(op), vec![in alloc; a, b]?))
}

/// Over three.
pub fn three(
    alloc: Global,
    op: WordOp,
    a: Term<Op>,
    b: Term<Op>,
    c: Term<Op>,
) -> Result<Term<Op>, NoMemory>
    ensures { IfOk result (λ t. tree_of t ≡ trees.w3 op (tree_of a) (tree_of b) (tree_of c)) }
{
    Ok(application(Op::Word(op), vec![in alloc; a, b, c]?))
}

/// An operate over one operand.
pub fn operate_1(alloc: Global, operate: Operate, a: Term<Op>) -> Result<Term<Op>, NoMemory>
    ensures { IfOk result (λ t. tree_of t ≡ trees.o1 operate (tree_of a)) }
{
    one(alloc, WordOp::Operate(operate), a)
}

/// Over two.
pub fn operate_2(
    alloc: Global,
    operate: Operate,
    a: Term<Op>,
    b: Term<Op>,
) -> Result<Term<Op>, NoMemory>
    ensures { IfOk result (λ t. tree_of t ≡ trees.o2 operate (tree_of a) (tree_of b)) }
{
    two(alloc, WordOp::Operate(operate), a, b)
}

/// What an access reads of memory `m` at address `a`.
pub fn read(alloc: Global, access: Access, m: Term<Op>, a: Term<Op>) -> Result<Term<Op>, NoMemory>
    ensures { IfOk result (λ t. tree_of t ≡ trees.read_of access (tree_of m) (tree_of a)) }
{
    Ok(application(Op::Select(access), vec![in alloc; m, a]?))
}

/// Memory `m` once an access wrote `v` at address `a`.
pub fn written(
    alloc: Global,
    access: Access,
    m: Term<Op>,
    a: Term<Op>,
    v: Term<Op>,
) -> Result<Term<Op>, NoMemory>
    ensures { IfOk result (λ t. tree_of t ≡ trees.written_of access (tree_of m) (tree_of a) (tree_of v)) }
{
    Ok(application(Op::Store(access), vec![in alloc; m, a, v]?))
}

/// `read` at base `x` and displacement `k`.
pub fn displaced_read(
    alloc: Global,
    access: Access,
    m: Term<Op>,
    x: Term<Op>,
    k: Term<Op>,
) -> Result<Term<Op>, NoMemory>
    ensures { IfOk result (λ t. tree_of t ≡ trees.displaced_read_of access (tree_of m) (tree_of x) (tree_of k)) }
{
    Ok(application(Op::Load(access), vec![in alloc; m, x, k]?))
}

/// `written` at base `x` and displacement `k`.
pub fn displaced_written(
    alloc: Global,
    access: Access,
    m: Term<Op>,
    x: Term<Op>,
    k: Term<Op>,
    v: Term<Op>,
) -> Result<Term<Op>, NoMemory>
    ensures { IfOk result (λ t. tree_of t ≡
        trees.displaced_written_of access (tree_of m) (tree_of x) (tree_of k) (tree_of v)) }
{
    Ok(application(Op::Put(access), vec![in alloc; m, x, k, v]?))
}

/// The word of memory `m` at address `a`.
pub fn select(alloc: Global, m: Term<Op>, a: Term<Op>) -> Result<Term<Op>, NoMemory>
    ensures { IfOk result (λ t. tree_of t ≡ trees.select_of (tree_of m) (tree_of a)) }
{
    read(alloc, Access::Quad, m, a)
}

/// Memory `m` with `v` at address `a`.
pub fn store(alloc: Global, m: Term<Op>, a: Term<Op>, v: Term<Op>) -> Result<Term<Op>, NoMemory>
    ensures { IfOk result (λ t. tree_of t ≡ trees.store_of (tree_of m) (tree_of a) (tree_of v)) }
{
    written(alloc, Access::Quad, m, a, v)
}
