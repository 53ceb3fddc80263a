// Goals, axioms and declared operators, and inputs of them.
use items::Items;
use machine_table::Table;
use text_core::Name;
use word_ops::{Arity, Op};
use word_terms::Term;

/// The registers that a goal may use where it gives no pool, but for those of its inputs and its pins.
pub const FREE_REGISTERS: [u8; 21] = [
    0, 1, 2, 3, 4, 5, 6, 7, 8, 16, 17, 18, 19, 20, 21, 22, 23, 24, 25, 27, 28,
];

/// The most lets of a goal.
pub const MOST_LETS: usize = 256;

/// An operator that an input declares.
#[derive(Drop)]
pub struct DeclaredOp {
    pub name: Name,
    pub arity: Arity,
}

/// An input and the register that has it.
#[derive(Drop)]
pub struct InputReg {
    pub name: Name,
    pub reg: u8,
}

/// A name for a term, which is a word or a memory.
#[derive(Drop)]
pub struct Let {
    pub name: Name,
    pub value: Term<Op>,
}

/// Two terms that are taken to be equal.
#[derive(Drop)]
pub struct Assume {
    pub left: Term<Op>,
    pub right: Term<Op>,
}

/// A target and its new value. The name `M` is memory. A word may be pinned to a register, which then has its new value;
/// it may be an input's.
#[derive(Drop)]
pub struct Set {
    pub name: Name,
    pub value: Term<Op>,
    pub pin: Option<u8>,
}

/// A guarded multi-assignment, with the registers of its inputs and those that it may use. In its terms a variable is
/// the let of this number; the term of a let has only lets before it.
pub struct Goal {
    pub name: Name,
    pub inputs: Items<InputReg>,
    pub pool: Items<u8>,
    pub lets: Items<Let>,
    pub assumes: Items<Assume>,
    pub guard: Option<Term<Op>>,
    pub sets: Items<Set>,
}

// By hand, so that it is proved here alone: a derived one is proved in each crate that drops a goal.
impl Drop for Goal {
    fn drop(self) {
        let Goal {
            name: _name,
            inputs: _inputs,
            pool: _pool,
            lets: _lets,
            assumes: _assumes,
            guard: _guard,
            sets: _sets,
        } = self;
    }
}

/// An equation of terms with variables, which are numbered in the order of the list.
#[derive(Drop)]
pub struct Axiom {
    pub variables: Items<Name>,
    pub left: Term<Op>,
    pub right: Term<Op>,
}

/// What a text of goals says. `builtin` is true where the text has no machine form.
pub struct Input {
    pub table: Table,
    pub builtin: bool,
    pub ops: Items<DeclaredOp>,
    pub axioms: Items<Axiom>,
    pub goals: Items<Goal>,
}

// By hand, so that it is proved here alone: a derived one is proved in each crate that drops an input.
impl Drop for Input {
    fn drop(self) {
        let Input {
            table: _table,
            builtin: _builtin,
            ops: _ops,
            axioms: _axioms,
            goals: _goals,
        } = self;
    }
}
