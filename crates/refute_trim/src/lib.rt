//! Refutations without the lines that aren't needed, alone and in the text of an answer.
//!
//! Proved: `trim` gives the needed lines of a refutation in their order, numbered anew (`trimmed`): the last line,
//! and each that is a hint of a needed one. They refute the formula (`refutes`), and each except the last is a hint
//! of a later one (`hints`). Trimming twice gives what trimming once gives (`trimmed_lines_refute`,
//! `trimmed_lines_stay`, `lines_are_trimmed_in_one_way`). `trim_text` gives an answer trimmed so, or the line of
//! the first goal that is rejected (`trimmed`), or the text's first fault (`error`, `one_trim_report`). All other
//! lines stay byte for byte (`only_refutations_change`); what is written reads as the same answer with its
//! refutations trimmed (`trimmed_answers_are_read`), and `check` accepts it where it accepts the answer
//! (`trimmed_answers_are_accepted`, `trimmed_texts_stay`). That the cost is linear is no clause.
#![tactic(auto)]

mod answer_laws;
mod answers;
mod goals;
mod laws;
mod needed;
mod numbers;
mod trimming;

pub use answer_laws::{
    one_trim_report, only_refutations_change, trimmed_answers_are_accepted,
    trimmed_answers_are_read, trimmed_texts_stay,
};
pub use answers::trim_text;
pub use laws::{lines_are_trimmed_in_one_way, trimmed_lines_refute, trimmed_lines_stay};
pub use trimming::trim;
