//! The machine: what one instruction word does to 32 registers, a memory and a program counter, and what a list of
//! words does when it is run from its first one.
//!
//! The words are those of `alpha_encode`: 55 integer operates, LDA, LDAH, LDBU, LDWU, LDL, LDQ_U, STB, STW, STL, STQ_U,
//! LDQ, STQ and BEQ.
//!
//! Proved: `step` changes the state as the Handbook says for the instruction that the word decodes to; it refuses
//! exactly a word that is no instruction and one that traps, and runs out of memory only in a store that leaves a word
//! other than 0, and then the state stays. `run` names the first word that is no instruction, or a branch that doesn't
//! lead to the place one word after the last, before any step; otherwise the end and the state are those that the steps
//! lead to, where a word that traps is the last that is looked at. The low 16 bits of a word, as a displacement, give
//! what `lda` and `ldah` give (`displacements_are_low_bits`); steps add up, and nothing happens past the words or at a
//! word that traps (`steps_add_up`).
//!
//! What nothing forced, and why:
//! - An allowed branch leads only to the place one word after the last. So each word is executed at most once, and
//!   `run` is one loop over the words.
//! - A run that finds no memory for a store is stated as a relation: fewer steps than there are words lead to the
//!   state, and a store of a word that isn't 0 comes next.
//! - A run stays where a word traps: a state whose instruction traps is never left, so steps add up as they did, and
//!   words that come to their end or leave haven't trapped on the way. `LDQ` and `STQ` are instructions of their own
//!   beside the accesses of terms, since no term has them; no schedule launches them, since an aligned `select` is
//!   `ldq_u`.
//! - The fields of `State` are private, so that register 31 always holds 0. That a state holds words and an address
//!   (`IsState`) is a clause of each call that reads one, so a caller hears it of the state after `step` and `run` too.
#![tactic(auto)]

mod laws;
mod running;
mod states;
mod stepping;
mod values;

pub use laws::{displacements_are_low_bits, steps_add_up};
pub use running::{End, RunFault, may_stand, run};
pub use states::State;
pub use stepping::{StepFault, step};
