//! Whether hand-written words are a goal of an input: the terms that they give registers and memory are matched beside
//! the goal's, and compared with them after the rounds.
//!
//! `read` reads a text of goals and of codes for them. `verify` checks one code against its goal, and `verify_text`
//! prints a line for each code of a text.
//!
//! Proved: `read` gives exactly the goals and codes that a text says (`codes`, `read`, `well_formed`), or its first
//! fault (`fault`, `refused`); a text has one reading (`codes_have_one_reading`). `verify` gives a right answer
//! (`right`), and two right answers on a code say the same: `yes`, `unknown` with one number of rounds and one
//! part, or `noworld` (`codes_have_one_answer`). `Yes` is right where the graph of the goal's terms and of those that
//! the words write shows each address on which a word might trap to be a multiple of its width, and guard, exit,
//! targets and memory are the same in it; then the words have the goal's outcome in every world in which the text's
//! axioms and the goal's assumptions hold, and don't trap on the way. The rules of a library, which may join those of
//! the text, ask nothing of a world. `NoWorld` is right where two different constants are equal after a round that is
//! reached. `verify_text` gives a line for each code (`told`). Laws:
//! `terms_are_what_words_compute`, `same_code_does_the_goal`, `compared_graphs_decide`, `written_terms_are_sorted`.
//!
//! What nothing forced, and why:
//! - The faults of the goals come before those of the codes, wherever they stand, since the codes are read for goals
//!   that are known. In a code a missing `at` is looked for before its parts, and an `at` without all its parts names
//!   no target. A code has as many words as its list has parts, also if one of them is no word, so which displacement a
//!   branch must have doesn't depend on faults after it.
//! - Register r is `input r` at entry, also if the goal has no input there, and isn't inserted for that. A part whose
//!   term has no class isn't the same, so a code that leaves a target where it never wrote is `unknown`, unless the
//!   register is the input's. What a word writes to register 31 isn't a term of the code, so neither are its operands.
//! - The code keeps a class for each register that was written, and inserts at most five rows a word; the terms
//!   themselves, which may be exponentially large, are in the contracts alone.
//! - That a word can't trap is asked first, of the graph after the rounds: the class of its address must be one that
//!   the rows show to be a multiple. Names of declared operators are left out, since none of these says anything of
//!   multiples.
//! - Of inputs after the code falls through nothing is promised, unlike of a printed schedule: hand-written code may
//!   overwrite them.
//! - `noworld` says nothing of the words, but each code of such a goal gets this line: its terms may let constants meet
//!   in a round that the goal alone doesn't come to.
#![tactic(auto)]

mod branches;
mod code_terms;
mod codes;
mod comparing;
mod heads;
mod inserting;
mod laws;
mod places;
mod reading;
mod replies;
mod trapping;
mod verifying;
mod words;

pub use codes::{At, Checked, Code, Part, Verified};
pub use laws::{
    codes_have_one_answer, codes_have_one_reading, compared_graphs_decide, same_code_does_the_goal,
    terms_are_what_words_compute, written_terms_are_sorted,
};
pub use reading::read;
pub use replies::{Told, verify_text};
pub use verifying::verify;
