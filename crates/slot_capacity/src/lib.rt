//! How much the slots of a machine can take: which classes have to be launched, from which cycle to which, and where
//! they are too many for the slots; and the clauses that say so.
//!
//! A class is due where a target or the guard has it, or where each row that makes a due class reads it. It has a first
//! cycle, and a deadline that its readers set. As many due classes can be launched from one cycle to another as there
//! are slots and cycles; where more could come, a counter limits them. By live ranges a formula has these clauses; they
//! change no answer, but without them a solver finds by trying that eight loads don't fit into three cycles of two
//! slots.
//!
//! Proved: `Capacity::of` finds exactly the deadlines and limits of the definitions, whose numbers are small and whose
//! classes differ; `capacity_sizes` gives the counts of the clauses before any is built, and `extend_by_capacity` adds
//! exactly these clauses. A schedule that fits launches each due class from its first cycle on and by its deadline, and
//! no more of them than there are slots, so that values which show it extend to the clauses (`slots_suffice`).
//!
//! What nothing forced, and why:
//! - A copy counts as a row that makes its class, unless it reads it: a pinned set of a constant is made by its copy
//!   alone.
#![tactic(auto)]

mod clauses;
mod counts;
mod deadlines;
mod due;
mod groups;
mod laws;
mod limits;
mod makers;
mod sets;
mod spans;

pub use clauses::extend_by_capacity;
pub use counts::capacity_sizes;
pub use deadlines::Deadline;
pub use laws::{capacity_is_counted, slots_suffice};
pub use limits::{Capacity, Limit};
pub use spans::Span;
