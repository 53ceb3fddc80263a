//! The clauses of a goal in an answer as a text in the DIMACS format, for solvers that others wrote. They are the
//! clauses that are built where what the answer claims is tested, in their order, so lines of a refutation in the
//! answer name them by the same numbers.
//!
//! Proved: `dimacs` gives the text of a formula exactly, and a text has one formula (`one_text_has_one_formula`).
//! `clauses_text` reads an answer and gives the text of these clauses, or says why there are none (`clauses`), or
//! the text's first fault (`error`).
#![tactic(auto)]

mod goal_clauses;
mod laws;
mod printing;

pub use goal_clauses::clauses_text;
pub use laws::one_text_has_one_formula;
pub use printing::dimacs;
