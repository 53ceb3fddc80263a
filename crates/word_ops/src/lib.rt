//! The operators on words and memories, and what each gives: the 55 integer operates of the Alpha, six further
//! operators of terms, and the operators on a memory of 64-bit words.
//!
//! A word is a number below 2 ^ 64. A memory is a finite map from places below 2 ^ 61 to words that aren't 0. A world
//! has the registers, the memory at entry and the declared operators; a term has its value in a world.
//!
//! Proved: `apply` gives the Handbook's value of each operate, and this project's of the six other operators; `op_name`
//! and `op_of` are one table of names, both ways; each operator stands at its number alone, with a name of its own
//! (`operators_are_listed`). Each call of `Mem` is exact, also when it is refused, and so are the loads and stores of
//! each `Access`, which gives the names of the operators that read and write so. Laws: what operators give is in range
//! (`meanings_are_in_range`), what a memory holds after a write, and when two are equal (`memories_hold_words`), the
//! bits of shifts, extended signs and masks (`words_have_bits`).
//!
//! What nothing forced, and why:
//! - Operators are defined in arithmetic modulo 2 ^ 64, and by bits only where the Handbook speaks of bits. High-byte
//!   operations shift by (64 - 8o) mod 64 also at offset 0.
//! - What is promised of bits, ranges and memories is given to the lemmas as arguments.
#![tactic(auto)]

mod accesses;
mod arithmetic;
mod bitwise;
mod bytes;
mod comparison;
mod laws;
mod memory;
mod names;
mod operates;
mod operators;
mod sorts;

pub use laws::{meanings_are_in_range, memories_hold_words, operators_are_listed, words_have_bits};
pub use memory::Mem;
pub use names::{op_name, op_of};
pub use operates::{OPERATES, Operate, OperateRow, Pipes};
pub use operators::{WordOp, apply, arity, number};
pub use sorts::{Access, Arity, Op, Sort};
