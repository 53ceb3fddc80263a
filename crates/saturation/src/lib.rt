//! Rounds of matching over an E-graph, from the first graph of a goal to the launch graph made from the last one: each
//! equality that the rules give in these rounds is in it, and no other.
//!
//! Proved: from a graph that has exactly the equalities of a start, `saturate` gives one that has exactly those
//! that can be derived in its number of rounds; no smaller number ends, and why it ends is reported exactly
//! (`saturated`, `rounds_end_once`). What stands in a world stays so (`stands`). It refuses exactly where two
//! different constants are equal after a number of rounds that is reached (`fault`), and then the rules hold in no
//! world (`hopeless`). `start` gives a goal's graph before any round (`grown`, `stands`, `few_rows`). `to_launch`
//! gives the launch graph (`launched`): the same equalities (`grown`), ended for the same cause (`stops`), with
//! values that are those of the goal's terms in each world in which axioms and assumptions hold
//! (`launched_graphs_stand`). The axioms are those of the text: what a library asks for beside them is true in every
//! world (`axioms_make_rules_true`). Two graphs after one number of rounds differ in order and numbers alone
//! (`grown_graphs_are_one`); terms inserted before any round are the goal's as much as the others
//! (`more_terms_may_be_inserted`).
//!
//! All this is said of the goal without lets, which no call makes: a let is inserted once, its name stands for its
//! class, and it has no more rows than its own term has operators (`few_rows`).
//!
//! What nothing forced, and why:
//! - What rounds derive is an inductive relation over terms (`Derives`), which knows nothing of graphs: terms and pairs
//!   of the start, equal operands, and both sides of a rule one round after its left side is there. A graph is grown
//!   for a number of rounds if two terms have one class exactly if that makes them equal.
//! - A round asks for all that is unmet in the graph at its start, and then makes it, so no round matches in a graph
//!   that it changes. Quiet is tested before the limit, and the limit before the number of rounds.
//! - Rounds go on where the unmet matches need a number of rows within the limit. Said the other way, that they need
//!   none past it, a proof would have to show that they need one number only.
#![tactic(auto)]

mod applying;
mod asking;
mod axiom_rules;
mod faults;
mod first_graph;
mod goal_laws;
mod instance;
mod launch_laws;
mod launching;
mod laws;
mod lets;
mod more_terms;
mod needing;
mod numbering;
mod quiet;
mod rounds;
mod rule_lists;
mod searching;
mod stepping;

pub use axiom_rules::rules;
pub use faults::{SaturateFault, StartFault};
pub use first_graph::start;
pub use goal_laws::axioms_make_rules_true;
pub use launch_laws::{grown_graphs_can_be_launched, launched_graphs_stand};
pub use launching::to_launch;
pub use laws::{grown_graphs_are_one, rounds_end_once};
pub use lets::{let_classes, lets_are_their_terms};
pub use more_terms::more_terms_may_be_inserted;
pub use rounds::{Saturated, saturate};
pub use rule_lists::Rules;
