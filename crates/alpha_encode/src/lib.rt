//! The Alpha's instruction words: an instruction's word, a word's instruction, and an instruction's text.
//!
//! The instructions are the 55 integer operates, LDA, LDAH, LDBU, LDWU, LDL, LDQ_U, STB, STW, STL, STQ_U, LDQ, STQ and
//! BEQ.
//!
//! Proved: `encode` gives the word of the formats; `decode` reads it back, and gives none exactly where no instruction
//! has the word; instructions and words are one to one (`words_and_instructions`); `text` is exact.
//!
//! What nothing forced, and why:
//! - `IsWellFormed` of an instruction also holds the ranges that its Rust types give, so that the laws need no other
//!   premise.
#![tactic(auto)]

mod codes;
mod decoding;
mod encoding;
mod instructions;
mod laws;
mod printing;

pub use decoding::decode;
pub use encoding::encode;
pub use instructions::{Instr, Second};
pub use laws::words_and_instructions;
pub use printing::text;
