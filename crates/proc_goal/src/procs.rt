// Procs and their blocks.
use goal_meaning::{InputReg, Set};
use items::Items;
use machine_table::Table;
use text_core::Name;
use word_ops::Op;
use word_terms::Term;

/// Where a block leads to: a block of its proc, by its number from 0, or the end.
#[derive(Clone, Copy)]
pub enum Target {
    Block(u32),
    Done,
}

/// A guard, and where its block leads to when it is 0.
#[derive(Drop)]
pub struct When {
    pub guard: Term<Op>,
    pub other: Target,
}

/// A guarded multi-assignment to variables and memory, and where it leads to. A set of a variable is pinned to its
/// register.
#[derive(Drop)]
pub struct Block {
    pub name: Name,
    pub when: Option<When>,
    pub sets: Items<Set>,
    pub go: Target,
}

/// Blocks over variables in registers, with the other registers that they may use. `builtin` is true where the text has no
/// machine form. The first block is where a proc begins.
#[derive(Drop)]
pub struct Proc {
    pub table: Table,
    pub builtin: bool,
    pub name: Name,
    pub vars: Items<InputReg>,
    pub pool: Items<u8>,
    pub blocks: Items<Block>,
}
