//! The work of the commands on machine words: `lift`, from a text of lifts to that of their goals; `improve`, to words
//! that do the same in the fewest cycles; and `cycles`, to the number of cycles in which the given words can be done.
//!
//! Proved: `lift_text` gives the canonical text of the goals of the lifts that the text reads as. `improve_text` and
//! `improve_least_text` give right results of these goals, whose words do what the given ones do from all registers and
//! memory from which those don't trap (`answered`, by the law `improved_code_is_the_same`). `cycles_text` gives for
//! each lift a line that is true of the launch graph of its own words (`answered`, `count_cycles`). Each call gives the
//! first fault of another text (`error`).
//!
//! What nothing forced, and why:
//! - `cycles` speaks of the graph of the given words, and there is no clause that the words of its schedules do what
//!   the given ones do: nothing of a schedule is written.
//! - `improve` with `--least` is a command of its own in the code, as `solve` with it is, since its report has lines
//!   after the answer.
#![tactic(auto)]

mod counting;
mod cycles_texts;
mod improved_texts;
mod laws;
mod lifted_texts;

pub use counting::{CycleCount, count_cycles};
pub use cycles_texts::cycles_text;
pub use improved_texts::{improve_least_text, improve_text};
pub use laws::improved_code_is_the_same;
pub use lifted_texts::lift_text;
