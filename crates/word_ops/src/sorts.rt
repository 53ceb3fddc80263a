// The operators of terms and graphs: on words, on memories, and declared by the input.
ghost use Rattle.std.specs.Prelude.{◌≡◌, ◌<◌, ◌↔◌, Some};
ghost use Rattle.word_ops.specs.Meanings as meanings;
ghost use Rattle.word_ops.specs.declared.sorts.Arity.{Arity as ArityOf};

use crate::operators::{WordOp, arity};

/// What a value is.
#[derive(Clone, Copy, PartialEq, Eq)]
pub enum Sort {
    Word,
    Memory,
}

/// How much of memory a load reads or a store writes. All but `Quad` stay within the aligned 64-bit word that holds the
/// address.
#[derive(Clone, Copy, PartialEq, Eq)]
pub enum Access {
    /// The aligned 64-bit word that holds the address.
    Quad,
    /// The byte at the address.
    Byte,
    /// Two bytes, at an even address.
    Word,
    /// Four bytes, at a multiple of 4. A load extends their sign.
    Long,
}

/// How many operands a declared operator takes.
#[derive(Clone, Copy, PartialEq, Eq)]
pub enum Arity {
    One,
    Two,
    Three,
    Four,
}

/// An operator of a term.
#[derive(Clone, Copy)]
pub enum Op {
    /// The memory at entry.
    Entry,
    /// The word of a register, given by its number.
    Input(u8),
    Constant(u64),
    Word(WordOp),
    /// What an access reads at an address of a memory.
    Select(Access),
    /// A memory to which an access wrote at an address.
    Store(Access),
    /// `Select` at a base and a displacement, as an instruction has them.
    Load(Access),
    /// `Store` at a base and a displacement.
    Put(Access),
    /// An operator that the input declares; `index` is its place in a list of names.
    Declared { index: u8, arity: Arity },
}

impl Arity {
    /// The arity of a declared operator with this number of operands, or `None` where there is no such arity.
    pub fn of(count: usize) -> Option<Arity>
        ensures exact { (arity : ArityOf) → (result ≡ Some arity) ↔ (meanings.count_of arity ≡ count) }
    {
        match count {
            1 => Some(Arity::One),
            2 => Some(Arity::Two),
            3 => Some(Arity::Three),
            4 => Some(Arity::Four),
            _ => None,
        }
    }

    pub fn count(self) -> usize
        ensures { result ≡ meanings.count_of self }
    {
        match self {
            Arity::One => 1,
            Arity::Two => 2,
            Arity::Three => 3,
            Arity::Four => 4,
        }
    }
}

impl Op {
    /// Does nothing. Its clause says that a constant is a word.
    pub fn has_word_constant(self)
        ensures in_range { meanings.IsInRange self }
    {}

    /// The number of operands, 0 to 4.
    pub fn arity(self) -> usize
        ensures { result ≡ meanings.arity_of_op self }
    {
        match self {
            Op::Entry | Op::Input(_) | Op::Constant(_) => 0,
            Op::Word(op) => arity(op),
            Op::Select(_) => 2,
            Op::Store(_) | Op::Load(_) => 3,
            Op::Put(_) => 4,
            Op::Declared { arity, .. } => arity.count(),
        }
    }

    /// What the operator gives.
    pub fn sort(self) -> Sort
        ensures { result ≡ meanings.sort_of self }
    {
        match self {
            Op::Entry | Op::Store(_) | Op::Put(_) => Sort::Memory,
            _ => Sort::Word,
        }
    }

    /// What it takes as operand `at`, from 0.
    pub fn operand_sort(self, at: usize) -> Sort
        requires { at < meanings.arity_of_op self }
        ensures { result ≡ meanings.operand_sort self at }
    {
        match self {
            Op::Select(_) | Op::Store(_) | Op::Load(_) | Op::Put(_) if at == 0 => Sort::Memory,
            _ => Sort::Word,
        }
    }
}
