//! Formulas in conjunctive normal form, counters over their literals, and the lines of a refutation.
//!
//! Variables and clauses are numbered from 1. The definitions of what solver and checker promise stand in `specs/`.
//!
//! Proved: a formula is its list of clauses; `at_most` adds exactly the stated clauses of a counter, and an assignment
//! of the old variables extends to them exactly where at most so many of the literals are true. What counters say, and
//! both of their counts, are laws for all lists (`counters_count`); lines that refute leave no solution, whoever wrote
//! them (`refutations_leave_no_solution`). A refused call leaves the formula as it was.
//!
//! What nothing forced, and why:
//! - The literals of all clauses lie in one vector, with the place where each clause ends: a few bytes a literal, and
//!   no allocation a clause. A counter is pushed into the formula's own list, which a refused call cuts back.
//! - A checker and a solver find the status of a clause by one function, over whoever keeps the values (`Values`,
//!   `status_of`).
//! - The numbers of a counter's variables and clauses can be had before it is built, as 64-bit numbers below 2 ^ 60, so
//!   that a caller can add them up and stop at its limit.
//! - `Refutes`, `AreLemmas` and `IsFirstRefusal` take the test of where an empty lemma may stand, so that both checks
//!   share one loop and one definition.
#![tactic(auto)]

mod counter;
mod formula;
mod laws;
mod line;
mod literal;
mod store;
mod values;

pub use counter::{at_most, at_most_one, at_most_size, at_most_vars};
pub use formula::{Cnf, satisfied};
pub use laws::{counters_count, refutations_leave_no_solution};
pub use line::{Line, Lines};
pub use literal::Lit;
pub use store::Clauses;
pub use values::{ClauseStatus, Values, status_of};
