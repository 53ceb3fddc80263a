//! Launch graphs: the E-graph of a goal, its rows and the classes and registers of the goal; when a graph is well
//! formed, and when it is true in a world.
//!
//! A graph is a list of rows, each an operator over classes that is itself in a class. The layers above choose from it
//! what to launch. `launch_graph` prints and reads one. `Stop` says why the rounds of matching that made one ended.
//!
//! Proved: the look-ups are exact. In a well-formed graph a class has one sort and at most one constant, and its number
//! is below the number of rows (`graphs_are_consistent`); where the graph is true, a class has the value of its
//! constant and of its input, and one of its sort (`classes_have_values`); the registers of a proper graph are apart
//! (`registers_are_apart`). `multiples` gives for each class of rows the greatest power of 2, at most 8, of which the
//! rows show its value to be a multiple, and where the rows are true its value is one (`classes_are_multiples`). A
//! graph keeps those of its rows (`known_multiples`); where it is true, the value of a class and the sum of a base and
//! a displacement are multiples of what is known of them (`known_multiples_are_true`).
//!
//! What nothing forced, and why:
//! - Multiples are shown by a relation over rows (`IsShown`), and a class has the greatest power that is shown, which
//!   is the least solution of what the rows ask. So the law that such a class has such a value is an induction over the
//!   showing, and the queue is seen by no clause.
//! - A graph keeps its multiples, found once from its rows, so that what can be launched is told without memory. The
//!   list is empty if every address will do for each row's instruction: nothing is found for graphs whose accesses are
//!   of bytes and 64-bit words.
//! - What a well-formed graph promises of a class stands in laws, each for all graphs, since the layers above hold
//!   classes and not rows.
#![tactic(auto)]

mod graphs;
mod laws;
mod lookups;
mod powers;
mod row_rules;
mod stops;

pub use graphs::{Guard, InputClass, LaunchGraph, LaunchRow, SetClass};
pub use laws::{
    classes_are_multiples, classes_have_values, graphs_are_consistent, known_multiples_are_true,
    registers_are_apart,
};
pub use powers::{known_multiples, multiples};
pub use stops::Stop;
