//! Procs: blocks of guarded multi-assignments over variables in registers, each of which leads to a block or to the
//! end.
//!
//! `read` reads a text of a proc, or refuses it with the first fault. `print` gives the canonical text, which is read
//! as that proc again. `input_of` gives the goals, one for each block.
//!
//! Proved: `read` gives exactly the proc that a text says, or the text's first fault; a text is at most one proc, and
//! one that is has no fault (`procs_have_one_reading`). What is read is well formed (`read_procs_are_well_formed`),
//! what is printed is read as that proc (`printed_procs_are_read`), and the goals of the blocks are a well-formed input
//! (`goals_of_procs_are_well_formed`).
#![tactic(auto)]

mod blocks;
mod copies;
mod heads;
mod inputs;
mod laws;
mod printing;
mod procs;
mod reading;
mod sets;
mod targets;
mod variables;

pub use inputs::input_of;
pub use laws::{
    goals_of_procs_are_well_formed, printed_procs_are_read, procs_have_one_reading,
    read_procs_are_well_formed,
};
pub use printing::print;
pub use procs::{Block, Proc, Target, When};
pub use reading::read;
