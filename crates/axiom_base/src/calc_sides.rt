// The two sides of the computed rules.
ghost use Rattle.std.specs.Prelude.{◌≡◌, IfOk};
ghost use Rattle.word_terms.specs.View.{tree_of};
ghost use Rattle.axiom_base.specs.Computed as rules;
ghost use Rattle.word_terms.specs.Building as trees;
ghost use Rattle.word_terms.specs.Tree as tree;
ghost use Rattle.word_ops.specs.Operates.{row_of};
ghost use Rattle.word_ops.specs.declared.operates.Operate.TheVariants.{Addq, Mulq, Sll};

use crate::kinds::{Calc, Given};
use items::NoMemory;
use std::alloc::Global;
use word_ops::{Op, Operate, WordOp};
use word_terms::{Term, constant, one, operate_2, select, store, two, variable};

/// The left side of the kind's rules. Of its variables, the memory m and the words x and v come first, and then the
/// constants c and d.
pub fn calc_left(alloc: Global, kind: Calc) -> Result<Term<Op>, NoMemory>
    ensures tree { IfOk result (λ left. tree_of left ≡ rules.calc_left kind) }
{
    match kind {
        Calc::C1 | Calc::C2 | Calc::C17 => of_constant(alloc, Operate::Addq),
        Calc::C3 | Calc::C4 | Calc::C5 | Calc::C16 | Calc::C35 | Calc::C36 | Calc::C37 => {
            Ok(variable(0))
        }
        Calc::C9 | Calc::C13 => of_constant(alloc, Operate::And),
        Calc::C10 => {
            let stored = store(alloc, variable(0), variable(1), variable(2))?;
            select(alloc, stored, displaced(alloc, 3)?)
        }
        Calc::C11 => {
            let stored = store(alloc, variable(0), displaced(alloc, 3)?, variable(2))?;
            select(alloc, stored, variable(1))
        }
        Calc::C12 => {
            let stored = store(alloc, variable(0), displaced(alloc, 3)?, variable(2))?;
            select(alloc, stored, displaced(alloc, 4)?)
        }
        Calc::C14 => of_constant(alloc, Operate::Bis),
        Calc::C15 => of_constant(alloc, Operate::Xor),
        Calc::C18 | Calc::C19 | Calc::C20 => of_constants(alloc, Operate::And, Operate::Srl),
        Calc::C26 => of_constants(alloc, Operate::Mskbl, Operate::And),
        Calc::C27 => of_constants(alloc, Operate::Mskwl, Operate::And),
        Calc::C28 => of_constants(alloc, Operate::Mskll, Operate::And),
        Calc::C29 | Calc::C30 | Calc::C31 => of_constants(alloc, Operate::Zapnot, Operate::Srl),
        _ => of_constant(alloc, Operate::Mulq),
    }
}

/// The right side of the kind's rule whose constants give these.
pub fn calc_right(alloc: Global, kind: Calc, given: Given) -> Result<Term<Op>, NoMemory>
    ensures tree { IfOk result (λ right. tree_of right ≡ rules.calc_right kind given) }
{
    let e = given.e;
    match kind {
        Calc::C1 => two(alloc, WordOp::Lda, variable(0), constant(alloc, e)),
        Calc::C2 => two(alloc, WordOp::Ldah, variable(0), constant(alloc, e)),
        Calc::C3 => two(alloc, WordOp::Lda, constant(alloc, 0), constant(alloc, e)),
        Calc::C4 => two(alloc, WordOp::Ldah, constant(alloc, 0), constant(alloc, e)),
        Calc::C5 | Calc::C36 => two(alloc, WordOp::Lda, constant(alloc, e), variable(0)),
        Calc::C9 => with_constant(alloc, Operate::Zapnot, e),
        Calc::C10 => select(alloc, variable(0), displaced(alloc, 3)?),
        Calc::C11 => select(alloc, variable(0), variable(1)),
        Calc::C12 => select(alloc, variable(0), displaced(alloc, 4)?),
        Calc::C13 => with_constant(alloc, Operate::Bic, e),
        Calc::C14 => with_constant(alloc, Operate::Ornot, e),
        Calc::C15 => with_constant(alloc, Operate::Eqv, e),
        Calc::C16 => of_words(alloc, Operate::Zapnot, u64::MAX, e),
        Calc::C17 => {
            let high = two(alloc, WordOp::Ldah, variable(0), constant(alloc, e))?;
            two(alloc, WordOp::Lda, high, variable(1))
        }
        Calc::C18 | Calc::C29 => with_constant(alloc, Operate::Extbl, e),
        Calc::C19 | Calc::C30 => with_constant(alloc, Operate::Extwl, e),
        Calc::C20 | Calc::C31 => with_constant(alloc, Operate::Extll, e),
        Calc::C26 | Calc::C27 | Calc::C28 => with_constant(alloc, Operate::And, e),
        Calc::C35 => of_words(alloc, Operate::Sll, e, given.f),
        Calc::C37 => of_words(alloc, Operate::Zapnot, e, 15),
        Calc::C6 | Calc::C7 | Calc::C8 | Calc::C21 => product(alloc, kind, given),
        Calc::C22 | Calc::C23 | Calc::C24 | Calc::C25 => product(alloc, kind, given),
        Calc::C32 | Calc::C33 | Calc::C34 => product(alloc, kind, given),
    }
}

// The same for the kinds whose left side is a product.
fn product(alloc: Global, kind: Calc, given: Given) -> Result<Term<Op>, NoMemory>
    requires { rules.calc_left kind ≡ trees.o2 Mulq (tree.variable 0) (tree.variable 1) }
    ensures { IfOk result (λ right. tree_of right ≡ rules.calc_right kind given) }
{
    let e = given.e;
    match kind {
        Calc::C7 => shifted_and_x(alloc, Operate::Subq, variable(0), e),
        Calc::C8 => shifted_and_x(alloc, Operate::Addq, variable(0), e),
        Calc::C21 => {
            let times = with_constant(alloc, Operate::Mulq, e)?;
            operate_2(alloc, Operate::Sll, times, constant(alloc, given.f))
        }
        Calc::C22 => of_product(alloc, Operate::S4subq, e),
        Calc::C23 => of_product(alloc, Operate::S4addq, e),
        Calc::C24 => of_product(alloc, Operate::S8subq, e),
        Calc::C25 => of_product(alloc, Operate::S8addq, e),
        Calc::C32 => {
            let times = with_constant(alloc, Operate::Mulq, e)?;
            shifted_and_x(alloc, Operate::Addq, times, given.f)
        }
        Calc::C33 => {
            let times = with_constant(alloc, Operate::Mulq, e)?;
            shifted_and_x(alloc, Operate::Subq, times, given.f)
        }
        Calc::C34 => one(alloc, WordOp::Neg, with_constant(alloc, Operate::Mulq, e)?),
        // C6 alone is left
        _ => with_constant(alloc, Operate::Sll, e),
    }
}

// The operator of two words.
fn of_words(alloc: Global, op: Operate, first: u64, second: u64) -> Result<Term<Op>, NoMemory>
    requires { (row_of op).arity ≡ 2 }
    ensures { IfOk result (λ t. tree_of t ≡ trees.o2 op (trees.constant first) (trees.constant second)) }
{
    operate_2(alloc, op, constant(alloc, first), constant(alloc, second))
}

// The operator of a word that is shifted left, and of x.
fn shifted_and_x(
    alloc: Global,
    op: Operate,
    word: Term<Op>,
    distance: u64,
) -> Result<Term<Op>, NoMemory>
    requires { (row_of op).arity ≡ 2 }
    ensures { IfOk result (λ t. tree_of t
        ≡ trees.o2 op (trees.o2 Sll (tree_of word) (trees.constant distance)) (tree.variable 0)) }
{
    let shifted = operate_2(alloc, Operate::Sll, word, constant(alloc, distance))?;
    operate_2(alloc, op, shifted, variable(0))
}

// The operator of x times this word, twice.
fn of_product(alloc: Global, op: Operate, word: u64) -> Result<Term<Op>, NoMemory>
    requires { (row_of op).arity ≡ 2 }
    ensures { IfOk result (λ t. tree_of t ≡ trees.o2 op
        (trees.o2 Mulq (tree.variable 0) (trees.constant word))
        (trees.o2 Mulq (tree.variable 0) (trees.constant word))) }
{
    let first = with_constant(alloc, Operate::Mulq, word)?;
    operate_2(alloc, op, first, with_constant(alloc, Operate::Mulq, word)?)
}

// The operator of x and the constant c.
fn of_constant(alloc: Global, op: Operate) -> Result<Term<Op>, NoMemory>
    requires { (row_of op).arity ≡ 2 }
    ensures { IfOk result (λ t. tree_of t ≡ trees.o2 op (tree.variable 0) (tree.variable 1)) }
{
    operate_2(alloc, op, variable(0), variable(1))
}

// The outer operator of the inner one of x and the constant c, and of the constant d.
fn of_constants(alloc: Global, outer: Operate, inner: Operate) -> Result<Term<Op>, NoMemory>
    requires outer { (row_of outer).arity ≡ 2 }
    requires inner { (row_of inner).arity ≡ 2 }
    ensures { IfOk result (λ t. tree_of t
        ≡ trees.o2 outer (trees.o2 inner (tree.variable 0) (tree.variable 1)) (tree.variable 2)) }
{
    operate_2(alloc, outer, of_constant(alloc, inner)?, variable(2))
}

// The operator of x and this word.
fn with_constant(alloc: Global, op: Operate, word: u64) -> Result<Term<Op>, NoMemory>
    requires { (row_of op).arity ≡ 2 }
    ensures { IfOk result (λ t. tree_of t ≡ trees.o2 op (tree.variable 0) (trees.constant word)) }
{
    operate_2(alloc, op, variable(0), constant(alloc, word))
}

// The address x, which is variable 1 beside a memory, and the constant.
fn displaced(alloc: Global, constant: u32) -> Result<Term<Op>, NoMemory>
    ensures { IfOk result (λ address. tree_of address ≡ trees.o2 Addq (tree.variable 1) (tree.variable constant)) }
{
    operate_2(alloc, Operate::Addq, variable(1), variable(constant))
}
