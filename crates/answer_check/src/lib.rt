//! Tests what an answer claims of each goal, whoever wrote it.
//!
//! Nothing that was read is trusted: the clauses are built from the printed graph and table alone, and they are counted
//! before any is built. The tests come in this order: the schedule fits; the words and places are those of its listing;
//! sizes; the refutation; lemmas.
//!
//! Proved: `check_goal` gives the verdict on a claim (`verdict`), and where all tests hold the claim is true of the
//! printed graph (`sound`); a claim has one verdict (`one_verdict`), and lines have one first refusal at most
//! (`one_first_refusal`). `check_answer` gives the lines of all verdicts, and whether some claim is rejected.
//!
//! What nothing forced, and why:
//! - Where the counts of the clauses that `refute` lines are for pass a limit and the printed counts are wrong too, `no
//!   NAME size` tells the former: they are tested first.
//! - `check` builds one formula at a time, and counts all that it will build before the first. It looks for no lemma
//!   that was known before.
#![tactic(auto)]

mod checking;
mod counting;
mod laws;
mod listed;
mod refusing;
mod reporting;
mod verdicts;

pub use checking::check_goal;
pub use counting::refuted_cycles;
pub use laws::{one_first_refusal, one_verdict};
pub use reporting::{check_answer, encoding_named, put_verdict};
pub use verdicts::{Checked, Verdict};
