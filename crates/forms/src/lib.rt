//! Forms: the trees of a text with what their atoms say, and the faults that a form and its parts may have.
//!
//! Goals, axioms and machine tables are read from forms. A reader says which faults a form has of its own, and what its
//! parts are to be read as; from this the faults of a whole form, and which of them is the first, are defined here
//! once.
//!
//! Proved: `trees` gives exactly the trees of a text, or its first fault of bytes or parentheses, both ways; no text
//! has two readings, and its forms stand one after another within it (`one_reading`). What a tree says, a name, a
//! register, a number or a list with its parts, each with its place, is read off exactly. Printed forms are read back
//! as the same forms (`printed_lines_are_read`).
#![tactic(auto)]

mod laws;
mod reading;
mod texts;

pub use laws::{one_reading, printed_lines_are_read, sexps_are_forms};
pub use reading::{at, name, number, parts, place, register};
pub use texts::trees;
