//! The library's axioms as a text: words that name families, a sink, and the status with which the program ends.
//!
//! Proved: `run` appends the text of the families that the words name, or the line `usage`, with status 0 or 2
//! (`reply`, `usage`); nothing where memory is refused (`memory`), and a front of it after a counted failure, with
//! status 7 (`sink_fault`, `writes`). No other status is given (`ends`). Words name families exactly where they are
//! the names of these in this order, one or more and no two the same, and these are of the nine families that the
//! program writes (`words_name_families`). In front of the canonical text of goals alone, what is written makes the
//! canonical text of these goals with the axioms (`texts_stand_before_goals`). `worked_texts` says what some words ask
//! for.
//!
//! What nothing forced, and why:
//! - The program is no command of `denali`: it reads nothing, and a change of the library proves nothing of `denali`
//!   anew. It prints an input that has nothing but these axioms, so what it writes is in the canonical form of a goal
//!   text.
//! - Nine of the families are written. Of the other four a text can have only eight rules, of `fields`: in all others
//!   constants are computed, or variables are memories.
#![tactic(auto)]

mod asked;
mod laws;
mod names;
mod texts;
mod top;
mod worked;

pub use laws::{texts_stand_before_goals, words_name_families};
pub use top::run;
pub use worked::worked_texts;
