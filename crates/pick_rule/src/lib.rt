//! The strategies by which a solver picks its next decision among the free variables.
//!
//! Proved: of the scores of the free variables, in the order of their numbers, `Pick::place` answers the place that a
//! strategy picks: the first (`first_place`), the last (`last_place`), or the first of the greatest score
//! (`busiest_place`). These are the definition as plain programs; a solver finds the same variable without a list of all.
//! Under `Activity` any free variable is right.
#![tactic(auto)]

mod pick;
mod places;

pub use pick::Pick;
pub use places::{busiest_place, first_place, last_place};
