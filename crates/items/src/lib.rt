//! A vector that contracts see as a list, and the name for running out of memory.
//!
//! Two vectors with the same items may differ in capacity and in place, and `≡` on a Rust value sees that. So a
//! public type whose values are compared holds `Items` where it would hold a `Vec`.
//!
//! Proved: `Items` is the list of its items, made from a vector and given back without memory.
#![tactic(auto)]

mod list;

pub use list::Items;
use std::alloc::AllocError;

/// There was no memory for what was asked.
pub type NoMemory = AllocError;
