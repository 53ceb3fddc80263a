// A small operator type.
use crate::operator::Operator;
use word_ops::{Sort, meanings_are_in_range};

/// Five operators that tests use beside `Op`: a test's own type can't be used in another crate.
#[derive(Clone, Copy)]
pub enum SmallOp {
    /// A constant.
    Number(u64),
    /// The word of a register.
    Leaf(u8),
    /// The memory at entry.
    Entry,
    /// The sum of two words modulo 2 ^ 64.
    Sum,
    /// The word at an address of a memory.
    Look,
}

impl Operator for SmallOp {
    ghost use Rattle.word_terms.specs.Small.{small_signature, small_meaning};
    ghost use Rattle.word_terms.specs.Laws.{small_takes_at_most_four, small_key_is_own, small_constant_takes_none, small_constant_is_word, small_constant_means, small_constant_is_own};

    ghost signature = { small_signature };

    ghost meaning = { small_meaning };

    ghost takes_at_most_four = { small_takes_at_most_four };

    ghost key_is_own = { small_key_is_own };

    ghost constant_takes_none = { small_constant_takes_none };

    ghost constant_is_word = { small_constant_is_word };

    ghost constant_means = { small_constant_means };

    ghost constant_is_own = { small_constant_is_own };

    fn arity(self) -> usize {
        match self {
            SmallOp::Number(_) | SmallOp::Leaf(_) | SmallOp::Entry => 0,
            SmallOp::Sum | SmallOp::Look => 2,
        }
    }

    fn sort(self) -> Sort {
        match self {
            SmallOp::Entry => Sort::Memory,
            _ => Sort::Word,
        }
    }

    fn operand_sort(self, at: usize) -> Sort {
        match self {
            SmallOp::Look if at == 0 => Sort::Memory,
            _ => Sort::Word,
        }
    }

    fn constant(self) -> Option<u64> {
        match self {
            SmallOp::Number(n) => Some(n),
            _ => None,
        }
    }

    fn key(self) -> (u8, u64) {
        match self {
            SmallOp::Number(n) => (0, n),
            SmallOp::Leaf(register) => (1, u64::from(register)),
            SmallOp::Entry => (2, 0),
            SmallOp::Sum => (3, 0),
            SmallOp::Look => (4, 0),
        }
    }

    fn gives_its_sort() {
        meanings_are_in_range();
    }
}
