//! The clauses of a schedule: memory in order, a guard's branch, registers, pins and, by live ranges, what the slots
//! can take; and the whole formula, which can be satisfied exactly where a schedule fits.
//!
//! `formula_size` counts the whole formula, and builds none of it; `full` and `build_formula` give it at once;
//! `add_memory`, `add_guard`, `add_pool`, `add_pins` and `add_capacity` add its parts one after another to the formula
//! of cycles, slots and values.
//!
//! Proved: values that satisfy all clauses show a schedule that fits, and each schedule that fits has a part that
//! fits and is what some values show, in each encoding (`each_encoding_says_fits`, `clauses_say_fits`), since
//! launches without variables may go (`launches_without_variables_may_go`); in the wide encoding each schedule that
//! fits is shown itself. Each call builds exactly its clauses, or gives the counts exactly where one passes its
//! limit. The counts are found row by row, without memory (`counts_are_found`). `worked_formulas` and
//! `worked_pinned_formulas` have the clauses of small goals and the counts of a copy loop.
//!
//! What nothing forced, and why:
//! - One set of families serves all encodings, over graphs with pins and without; that by live ranges has families of
//!   its own for registers, and those of capacity besides. Where no set has a pin, a launch has one destination,
//!   nothing is overwritten and each input's class is safe, so the narrow encoding is that with pins, word for word.
//! - Which launches may go where they have no variables is decided by these rules alone: each store, each branch and
//!   each launch to a pinned set has one (`parts_keep_rules`), and the other rules say nothing that a launch less can
//!   break.
//! - The parts that are added are said of any formula and any launches with variables; the formulas of the calls are
//!   these over the one below.
#![tactic(auto)]

mod adding;
mod counts;
mod cycles;
mod guard;
mod held_memory;
mod holds;
mod kinds;
mod laws;
mod live_counts;
mod live_ranges;
mod memory;
mod needs;
mod pin_counts;
mod pins;
mod plans;
mod pool;
mod sizes;
mod tallies;
mod whole;

pub use adding::{add_capacity, add_guard, add_memory, add_pins, add_pool};
pub use laws::{
    clauses_say_fits, counts_are_found, each_encoding_says_fits, launches_without_variables_may_go,
    parts_are_counted, worked_formulas, worked_pinned_formulas,
};
pub use whole::{build_formula, formula_size, full, full_as};
