//! The launches that satisfying values show.
//!
//! Proved: `read_off` gives the launches that values show, each as often and no other (`same`), by cycle, slot, row
//! and where they go, the pool first (`sorted`).
#![tactic(auto)]

mod reading;

pub use reading::read_off;
