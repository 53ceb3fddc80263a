//! Goals that are made from a number: a chain of that many operators over two inputs, without axioms. Each can be
//! scheduled in as many cycles as it has operators, whatever its graph is.
//!
//! Proved: `generated` gives the input whose one goal is the chain of so many operators that a sequence of numbers
//! picks. It is well formed (`generated_inputs_are_well_formed`), a world meets it
//! (`generated_goals_have_a_world`), and each well-formed graph that stands for it has a schedule in as many cycles
//! as it has operators (`generated_goals_can_be_scheduled`). So `gen` never answers that none fits, or that there
//! is no world. `worked_chains` says what the chains of three and four operators are.
//!
//! What nothing forced, and why:
//! - That a generated goal can be scheduled is said of graphs, not of rounds: a term's class is that of a row with its
//!   operator and the classes of its operands, so a row of each operator is there, whatever else is, and these rows are
//!   launched one after another in one slot.
//! - The goal is an input as one that was read would be, but isn't made by reading a text: that its canonical text is
//!   the one wanted is shown for five sizes.
#![tactic(auto)]

mod generating;
mod laws;
mod worked;

pub use generating::generated;
pub use laws::{
    generated_goals_can_be_scheduled, generated_goals_have_a_world,
    generated_inputs_are_well_formed,
};
pub use worked::worked_chains;
