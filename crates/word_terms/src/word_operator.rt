// The operators of words and memories as an operator type.
use crate::operator::Operator;
use word_ops::{Op, Sort, meanings_are_in_range, number};

impl Operator for Op {
    ghost use Rattle.word_ops.specs.Meanings as meanings;
    ghost use Rattle.word_terms.specs.Keys.{op_signature};
    ghost use Rattle.word_terms.specs.Laws.{op_takes_at_most_four, op_key_is_own, op_constant_takes_none, op_constant_is_word, op_constant_means, op_constant_is_own};

    ghost signature = { op_signature };

    ghost meaning = { meanings.meaning };

    ghost takes_at_most_four = { op_takes_at_most_four };

    ghost key_is_own = { op_key_is_own };

    ghost constant_takes_none = { op_constant_takes_none };

    ghost constant_is_word = { op_constant_is_word };

    ghost constant_means = { op_constant_means };

    ghost constant_is_own = { op_constant_is_own };

    fn arity(self) -> usize {
        self.arity()
    }

    fn sort(self) -> Sort {
        self.sort()
    }

    fn operand_sort(self, at: usize) -> Sort {
        self.operand_sort(at)
    }

    fn constant(self) -> Option<u64> {
        match self {
            Op::Constant(word) => Some(word),
            _ => None,
        }
    }

    fn key(self) -> (u8, u64) {
        match self {
            Op::Entry => (0, 0),
            Op::Input(register) => (1, u64::from(register)),
            Op::Constant(word) => (2, word),
            Op::Word(op) => (3, u64::from(number(op))),
            Op::Select(access) => (4, access as u64),
            Op::Store(access) => (5, access as u64),
            Op::Load(access) => (6, access as u64),
            Op::Put(access) => (7, access as u64),
            Op::Declared { index, arity } => (7 + arity.count() as u8, u64::from(index)),
        }
    }

    fn gives_its_sort() {
        meanings_are_in_range();
    }
}
