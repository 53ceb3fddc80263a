//! The text of an answer: what it says of each goal, read from the text and printed again.
//!
//! Each text parses to exactly one answer, or has exactly one first fault. Whether what it claims is true is tested
//! elsewhere.
//!
//! Proved: `read_answer` gives exactly the answer that a text of each version says (`answer`, `read`), or its
//! first fault, exactly where there is one (`fault`, `refused`). A text says one answer at most, and then it has no
//! fault (`one_answer`). What was read prints the bytes that were read (`read_answers_print_their_text`), and each
//! answer that can be printed (`Printable`) is what its text says (`printed_answers_are_read`). Only tables within
//! the limits and well-formed graphs are read, with the lines that a claim needs and an encoding that goes with the
//! version (`read_answers_are_well_formed`).
//!
//! What nothing forced, and why:
//! - An answer is read by a grammar of parts (`LineParts`): a part says which lines say which value, and beside it
//!   stands the first fault of lines that aren't that part. One part after another is one word (`Leads`), so that a
//!   text says one thing, or has one first fault, is proved once and then for the whole grammar. The format is
//!   canonical: each line is what its value prints.
//! - The version of an answer decides two things: how its graphs are read, and which encodings it may name
//!   (`GoTogether`). Graphs of version 1 have no pins, so there no register stands after a launch, without a rule of
//!   its own. A claim on no graph, which no text says, prints no launches.
//! - What a claim has beside it is one type for all kinds (`Claimed`), with no graph and no lines if a goal has no
//!   world; `IsClaimed` says which combinations are read. `solve` prints by making of each result what is claimed of
//!   it, so there is one definition of the lines. For that a claim can be lent (`ClaimRef`, `ClaimedRef`).
//! - `check` speaks of the graph alone, so it has nothing to say of the line `library`.
#![tactic(auto)]

mod answers;
mod claim_reading;
mod goal_reading;
mod hexadecimal;
mod laws;
mod lent;
mod library_lines;
mod line_printing;
mod line_reading;
mod parts;
mod printing;
mod reading;
mod schedule_printing;
mod schedule_reading;
mod table_printing;
mod table_reading;
mod word_lines;

pub use answers::{AnswerText, Claim, Claimed};
pub use laws::{
    launches_have_own_lines, one_answer, printed_answers_are_read, read_answers_are_well_formed,
    read_answers_print_their_text, word_lines_can_be_lines,
};
pub use lent::{ClaimRef, ClaimedRef};
pub use printing::{print_answer, put_goal, put_head};
pub use reading::read_answer;
pub use schedule_printing::put_codes;
