//! Schedules with the fewest launches: among those that fit in as many cycles, one with lines that show that no other
//! has fewer; and these lines behind the text of an answer, written, read and tested.
//!
//! Proved, whether launches keep their registers to the end of the block or by live ranges: `fewer` builds exactly the
//! clauses of schedules with at most n launches in k cycles (`formula`, `plan`), or gives their counts (`size`,
//! `within`); values that satisfy them show such a schedule, and where one fits they can be satisfied
//! (`fewer_clauses_say_fits`). `least` gives, from a schedule that fits, one with at most as many launches, and beside
//! it nothing, exactly where it has no launch, lines that refute the clauses for one launch fewer, lemmas, or counts
//! (`fewest`). `solve_least_text` gives right results with such schedules, their text and what is said of each
//! (`answered`), which is read back as it was (`tailed_answers_are_read`); such a text is read in one way
//! (`one_tailed_answer`). Where `check_least_text` says `least`, no schedule that fits in as many cycles, by the
//! allocation of the text's encoding, has fewer launches, whoever wrote the text (`checked`).
//!
//! What nothing forced, and why:
//! - `--least` is a flag of `solve`, `improve` and `check`: `proc` solves its blocks without it, since its answer has
//!   linked words after it and no room for what is said of launches. Inside, each is a command of its own, with its
//!   texts, faults and reports.
//! - An answer ends at the first line `tail`; no line of an answer can be that one. `check` without the flag says
//!   `BadLine` there.
//! - The clauses for fewer launches are those of encoding 3 also after an answer of version 1, whose graph has no pins:
//!   they speak of its schedules as well.
//! - `check --least` doesn't ask that the lines after `most L spent` are as many as some budget; it tests that each is
//!   a lemma.
//! - A schedule in hand gives its variables the score 1 in the next search, so that a pick by scores begins near it.
//!   What is proved of the answer doesn't depend on it.
#![tactic(auto)]

mod check_reporting;
mod checking;
mod counting;
mod encoding;
mod laws;
mod refusing;
mod reporting;
mod results;
mod searching;
mod solving;
mod tail_lines;
mod tail_printing;
mod tail_reading;
mod tails;
mod verdicts;

pub use check_reporting::check_least_text;
pub use checking::check_said;
pub use encoding::fewer;
pub use laws::{fewer_clauses_say_fits, one_tailed_answer, tailed_answers_are_read};
pub use reporting::report_least;
pub use results::{Least, Proof};
pub use searching::least;
pub use solving::{LeastResults, solve_least_input, solve_least_text};
pub use tail_reading::read_tailed;
pub use tails::{Tail, Tailed};
pub use verdicts::TailVerdict;
