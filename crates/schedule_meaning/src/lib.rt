//! When a schedule fits: which rows of a launch graph are launched in which slots and cycles of a machine, and which
//! rule a list of launches breaks first.
//!
//! A launch reads operands that were launched early enough, and memory as earlier stores left it. Its word goes to a
//! register of the pool, or to that of a pinned set, which may be an input's. Word order, in which the instructions of
//! a schedule stand, is told here too. A launch keeps its register of the pool to the end of the block, or as long as
//! its class is needed (`Allocation`).
//!
//! Proved, for both: `fits` says of any list of launches, graph and table whether it fits in k cycles (`fits`, `not`),
//! or the least of the nine rules that it breaks and the first launch that breaks it (`broken`); it takes no memory. A
//! schedule fits or breaks one rule first, never both, and what fits in k cycles fits in more
//! (`schedules_fit_or_break`) and in any order of its launches (`fits_in_any_order`). What fits has at most eight
//! launches a cycle, all below k (`fitting_schedules_are_small`); which memory the stores of earlier cycles leave
//! is one class (`memories_are_left`). On a graph without pins the rules are those without pins
//! (`pins_may_be_absent`). What fits where registers are kept to the end of the block fits by live ranges
//! (`blocks_fit_by_live_ranges`), and a class that isn't needed any more stays so (`need_never_comes_back`). The
//! look-ups are exact; `worked_schedules` has a list that breaks each rule first.
//!
//! What nothing forced, and why:
//! - `fits` has no condition on graph and table, so a reader of answers may ask it of any; `operand_at` gives the
//!   operands of a row by place and value, since an operate of a graph that isn't well formed has as many as its row
//!   says. The list is shorter than 2 ^ 29, so that its length is a launch's number.
//! - By live ranges all launches of a needed class hold, so computing a value again frees nothing, and a word never
//!   writes the register that it reads, but for pins. A rule by places in word order instead of cycles would allow
//!   that; its clauses are some times as many.
//! - What overwrites stands last in its cycle, so other launches of the cycle still read the input. 'Another launch' is
//!   recognised by slot and cycle, which differs from the place in the list only if two launches collide, and then an
//!   earlier rule is broken. A launch that overwrites doesn't read what another overwrites in its own cycle, since of
//!   those two one stands first.
//! - Two launches to one set break the rule on targets: exactly one goes there, or none if the class is in the register
//!   from the start.
//! - Word order knows nothing of how the code sorts.
#![tactic(auto)]

mod destinations;
mod fitting;
mod laws;
mod lifetimes;
mod lookups;
mod operands;
mod readers;
mod schedules;
mod stores;
mod targets;
mod testing;
mod worked;

pub use fitting::{Broken, Rule, fits};
pub use laws::{
    blocks_fit_by_live_ranges, fits_in_any_order, fitting_schedules_are_small, memories_are_left,
    need_never_comes_back, pins_may_be_absent, schedules_fit_or_break,
};
pub use lifetimes::{holds, is_needed};
pub use lookups::{
    class_at, cluster_of, copied_at, gives, gives_word, group_of, instr_at, is_branch, is_held,
    is_load, is_store, memory_class_at, operand_class, overwrites, pin_of, ready_in, takes_pool,
};
pub use operands::{operand_at, operand_count};
pub use readers::{input_for, may_take, taken_before};
pub use schedules::{Allocation, Group, Launch, MOST_CYCLES, Operand, Schedule, To};
pub use worked::worked_schedules;
