//! The launch graph of machine words themselves: what the given instructions compute, with no rule applied.
//!
//! A schedule of it is the given instructions in another order, in other registers, and without those whose values
//! nobody needs; equal words are one. So the fewest cycles of its schedules are what the instructions can be done in at
//! best.
//!
//! Proved: the graph is the one of its definition (`IsOwnGraph`) and well formed. In each world in which the words
//! don't trap it is true, and its sets are the memory and the words that the words leave (`IsTrueOf`).
//!
//! What nothing forced, and why:
//! - The alignment condition `and A m` is a row of the class of 0. If a given word computes the same `and`, that row
//!   stands in another class, and a row can't stand twice. Then the condition gets its operands the other way round; no
//!   given word has that row, since none computes the class of a constant.
#![tactic(auto)]

mod graphs;
mod multiples;
mod operands;
mod rows;
mod stepping;

pub use graphs::own_graph;
