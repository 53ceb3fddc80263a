//! What the work of a command comes to: what it writes and how it ends, or why its text has no report.
#![tactic(auto)]

mod reports;
mod statuses;

pub use reports::{Report, TextError};
pub use statuses::Status;
