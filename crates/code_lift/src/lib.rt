//! Lifts: machine words, from which goals are made that say what the words do.
//!
//! `read` reads a text of lifts, or refuses it with the first fault. `goals` gives a goal for each lift, in which each
//! word that writes a register or memory is a let.
//!
//! Proved: `read` gives exactly the lifts that a text says, or the text's first fault; a text is at most one list of
//! lifts, and one that is has no fault (`lifts_have_one_reading`). What is read is well formed
//! (`read_lifts_are_well_formed`), and the goals of well-formed lifts are a well-formed input
//! (`goals_of_lifts_are_well_formed`). Where a goal's assumptions hold, the words do what its targets say, and where
//! one of them doesn't hold, the words trap (`lifted_goals_are_their_code`).
//!
//! What nothing forced, and why:
//! - A word whose number of sets passes the limit is found at the register of `out` by which it does, since only there
//!   is it known which sets there are.
//! - `goals` takes lifts as a value: its input keeps their table, and nothing has to be copied.
#![tactic(auto)]

mod heads;
mod laws;
mod lift_goals;
mod lifting;
mod lifts;
mod limits;
mod reading;
mod registers;
mod terms;
mod words;

pub use laws::{
    goals_of_lifts_are_well_formed, lifted_goals_are_their_code, lifts_have_one_reading,
    read_lifts_are_well_formed,
};
pub use lift_goals::{goal, goals};
pub use lifting::{Address, Lifting, Value, counts, lifted, register_written, stores};
pub use lifts::{Lift, Lifts};
pub use reading::read;
