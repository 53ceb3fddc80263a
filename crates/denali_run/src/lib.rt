//! The work of each command: `solve`, from the bytes of a text of goals to those of their answers; `check`, from those
//! of an answer to a line for each of its goals; `run`, from those of a program's text to those of its report; and
//! `gen`, from a number to the line of the goal that is made from it.
//!
//! Proved: `solve_text` gives the lines of right results of the goals that the text reads as, and their status
//! (`answered`), or its first fault (`error`); `solve_goal` a right result of one goal (`right`). Two lists of right
//! results of one input with one text are one (`one_text_has_one_answer`). The bytes of right results are read as the
//! answer that they make, if the first graph of each goal has at most 1,000,000 rows, as for each text of at most 2^20
//! bytes (`right_answers_are_read`); that `check` has room for all of them is no clause. `fewest_cycles` tells of any
//! graph where the trial of numbers of cycles in rising order ends (`reached`). `check_text`, `run_text` and `gen_text`
//! give exactly their reports (`checked`, `ran`, `answered`), or the first fault of a text that is read.
//!
//! What nothing forced, and why:
//! - What a goal is answered by is a value (`Answered`), and the lines are a function of input and results
//!   (`answer_lines`), so the work and its text are apart. Each result holds its matched graph as one part (`Matched`),
//!   so that what holds of every result but `noworld` is said once.
//! - The settings say the encoding of `Right` (`encoding_in`). `IsVerdict` has it as an argument, since `check` takes
//!   the one that its text names.
//! - The outcome of a goal is the reader's own function (`outcome`): what running the words must do is said of its two
//!   cases, so a reader of `Computes` sees neither classes nor rounds.
//! - A right result has numbers that its lines can hold, so a list of right results is determined by its text alone.
//!   Which fitting schedule is found, the order of rows that rounds add, and the class of a `noworld` line are free.
//! - What `solve` writes is read as its answer (`read_back`), for texts of at most 2 ^ 20 bytes, as many as the program
//!   reads: the format has at most 1,000,000 rows for a goal, and five bytes of a text write at most four operators, so
//!   no goal of such a text has more at its start, and rounds add none past `--nodes`.
//! - The result of a generated goal is one of `solve`, found by the same calls. The two results that can't come have no
//!   line (`IsGeneratedLine`), and the arms for them are proved never to be reached: they rest on laws of all graphs
//!   that stand for such a goal, and not on what the solver does.
//! - That the counts of the clauses were within their limits is a part of each result for each number of cycles that
//!   was tried (`within`), so `spent size` comes exactly if they pass one.
#![tactic(auto)]

mod claiming;
mod generated_solving;
mod goal_solving;
mod laws;
mod results;
mod searching;
mod settings;
mod statuses;
mod text_checking;
mod text_running;
mod text_solving;

pub use answer_texts::{AnswerText, Claim, Claimed, print_answer, read_answer};
pub use claiming::answer_text;
pub use cycle_encoding::Encoding;
pub use generated_solving::gen_text;
pub use goal_solving::solve_goal;
pub use laws::{one_text_has_one_answer, right_answers_are_read};
pub use pick_rule::Pick;
pub use reports::{Report, Status, TextError};
pub use results::{Answered, Found, Large, Matched, Missing, Tried};
pub use schedule_meaning::Allocation;
pub use searching::{Reached, Trial, fewest_cycles};
pub use settings::{Settings, encoding_for};
pub use text_checking::check_text;
pub use text_running::run_text;
pub use text_solving::{solve_input, solve_text};
