//! What inputs of cases of two programs have: formulas, lines of refutations, libraries, and
//! what schedules are asked for.
#![tactic(auto)]

mod checks;
mod formulas;
mod libraries;
mod questions;
mod sums;

pub use checks::{lines_in, put_check};
pub use formulas::{formula, literals, over};
pub use libraries::library_in;
pub use questions::{Question, question_in};
pub use sums::put_formula;
