//! Checks the lines of a refutation, hint by hint. Whoever has lines accepted here needs no trust in the solver that
//! wrote them.
//!
//! Proved: `check` accepts exactly the lines that refute the formula, and then no assignment satisfies it; else it
//! gives the first refused line and its least reason. `check_lemmas` is the same for lemmas. Lines are printed exactly,
//! and read back wherever they stand in a text; accepted lines can be read back (`printed_lines_are_read_back`).
//!
//! What nothing forced, and why:
//! - The literals and the hints of a line are read by two loops of one shape. One loop over both would be over a trait,
//!   whose law that no item is written as the zero has its proof in `specs/` alone, beside the definitions that a
//!   reader must believe.
//! - `check` clears its marks once a call, and a line writes its own number into them, so that nothing is undone
//!   between lines and no memory is taken.
#![tactic(auto)]

mod hints;
mod laws;
mod lines;
mod reading;
mod text;
mod values;
mod words;

pub use laws::printed_lines_are_read_back;
pub use lines::{Rejected, check, check_lemmas};
pub use reading::read;
pub use text::print;
pub use values::Marks;
