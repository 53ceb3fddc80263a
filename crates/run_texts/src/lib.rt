//! Texts of programs to be run: reading them, and printing what running them leaves.
//!
//! A text has the program's words, then the words that registers hold at first, then those that places of memory hold.
//! The report says how the program ends, and lists the registers and places that don't hold 0 then.
//!
//! Proved: `read` gives exactly the program that a text says, within the limits, and only one that can be run
//! (`program`, `runnable`, `read`), or its first fault (`fault`, `refused`), never both (`one_program`). A program
//! starts with what its text gives and 0 elsewhere (`programs_start_as_given`). `report` prints exactly the end,
//! registers and places of the state to which the machine's steps lead from there; a program has one report
//! (`one_report`).
//!
//! What nothing forced, and why:
//! - A program's text is faulty at the first line with which its lines are the front of no program (`IsRunFaultAt`). A
//!   front of a program is a program itself, so no text that goes on after needs to be named. A line past a limit that
//!   is otherwise right is `LimitPassed`; there is no limit on registers to pass, since each of the 31 comes once.
#![tactic(auto)]

mod laws;
mod line_reading;
mod reading;
mod reporting;
mod texts;

pub use laws::{one_program, one_report, programs_start_as_given};
pub use reading::read;
pub use reporting::report;
pub use texts::{PlaceWord, RegisterWord, RunText};
