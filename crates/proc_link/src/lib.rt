//! Blocks and loops over variables that stay in their registers: the blocks' words, linked into one list.
//!
//! Proved: `link` gives exactly the words of the blocks' listings one after another, each with its own branch led
//! to where its block goes when the guard is 0, and with one branch more to where it goes else (`words`, `decode`),
//! and the address of each block's first word (`starts`). From any registers and memory with pc 0, and for each n,
//! these words come in at most 193 n steps to where the block machine is after n steps, and leave each register
//! alone that is neither in the pool nor a variable's (`follow`, `linked_words_follow_the_blocks`). A listing is
//! asked only to compute its block's goal and to be words that may be run. `proc_text` answers a text by the
//! results of its blocks' goals, and exactly where each is scheduled by the linked words after them (`answered`),
//! or gives its first fault (`error`); that the lines of the results are read back has the premise that each
//! block's first graph has no more rows than the format. That a loop ends isn't promised. `worked_links` and
//! `worked_steps` have two procs.
//!
//! What nothing forced, and why:
//! - The block machine names variables by their names. Terms name registers, so a world is made in which each
//!   variable's register has its word; pins play no part. That each set is pinned to its variable's register, as a
//!   well-formed proc says, is what lets the words follow it.
//! - What `link` asks of a listing is that its words compute the block's goal and may be run, that its instructions
//!   have words, and that there are at most 192. No law leads from a listing of a schedule that fits to `Computes`
//!   alone: `solve_goal` gives it with each scheduled result.
//! - Any branch of a listing is led to the block's other target. A listing has at most one, but the proof needs only
//!   that each leads to one word after the last.
//! - Each block ends with a branch on register 31, also if the next block's words stand right after it, so that the
//!   number of words is known before any word is made.
//! - That the answer is read back has a premise: each block's first graph has no more rows than the format allows. For
//!   texts of goals a law gives that from the text's length; for procs there is none.
#![tactic(auto)]

mod laws;
mod line_printing;
mod linking;
mod links;
mod listings;
mod places;
mod proc_texts;
mod worked;

pub use laws::linked_words_follow_the_blocks;
pub use linking::link;
pub use links::Linked;
pub use proc_texts::proc_text;
pub use worked::{worked_links, worked_steps};
