//! The top call: words, a source and a sink, and the status with which the program ends.
//!
//! Proved: the clauses of `run`, which docs/PROVED.md puts into words. A text gets a fault exactly where it is too
//! long or has one, and a report exactly where it has a reading (`replies_are_exact`). `worked_words` says of some
//! lists of words what they ask for, and `refused_words` of others that they ask for nothing, by computing clap's
//! definition.
//!
//! What nothing forced, and why:
//! - The headline goes by the words asked for and by every status that reports on goals (`IsReported`), and not by
//!   status 0 alone, so that other commands and other statuses can be added beside it. What a command reads is a format
//!   (`format_of`), or none; its limit, reading and first fault go by the format. So a further command is a case of
//!   `format_of` and of `Reports`.
//! - A command that reads nothing has the empty text. Each text has a reading for it and none has a fault, so the rows
//!   of replies stay three for every command. That nothing is read for it, and that it never ends with status 6, are
//!   clauses of their own (`unread`, `asked`).
//! - A plain form, a command and pairs of an option and its value, is recognised by its pairs, which needs no memory,
//!   so it is never refused. What other words mean is clap's own definition for a command with one level of
//!   subcommands, over a value that says which options there are (`program`), and the parser that is built is proved to
//!   be that one. That both agree on plain forms is shown for worked lists of words, not for all. The value of a number
//!   is read off its decimal digits, so `04` and `+4` are none.
//! - The words that clap is given don't have the program's name in front. A word that isn't UTF-8 never comes to it:
//!   std refuses it before, and the status is 9. A request for help or for a version counts as a refusal: clap's texts
//!   aren't printed.
#![tactic(auto)]

mod commands;
mod decide;
mod laws;
mod options;
mod spelling;
mod top;
mod words;
mod worked;

pub use laws::replies_are_exact;
pub use top::run;
pub use worked::{refused_words, worked_words};
