//! The clauses of cycles, slots and values: which launches may be made, what they read and when it is there.
//!
//! The first variables of a formula are those of the launches; a plan tells which is which.
//!
//! Proved: `encode_as` builds exactly these clauses (`formula`, `plan`), or gives their counts where one passes its
//! limit, exactly there (`size`, `within`), before any list is built. There are four encodings, by one body: the wide
//! one has a variable for each launch that ends in time; the narrow one, that with pins and that by live ranges speak
//! only of wanted classes and of launches whose operands can have come. `earliest_cycles` finds exactly which classes
//! have come by each cycle up to 24, `wanted` which are wanted. What the values of these clauses show keeps the first
//! four rules of a schedule, and the fifth for targets without a pin; each list of launches that keeps these has a part
//! that does and is shown (`cycle_clauses_say_rules`, `parts_keep_rules`). An encoding gives a graph and a table one
//! list at most (`each_encoding_has_one_list`).
//!
//! What nothing forced, and why:
//! - What has variables is a scope: the clauses are functions of two lists, the launches that have variables, and where
//!   classes are seen. Counts and clauses are found for any such scope, and the wide encoding is the one that leaves
//!   nothing out. With pins it has each launch by where it goes too; no text names it with a graph that has pins.
//! - A family of clauses is a function of lists of variables with the things that they stand for, and never computes a
//!   number: 'the variables of the launches that pass a test' is what a clause has, so a thing without a variable isn't
//!   in it. So another choice of which launches have variables keeps the families and their proofs.
//! - The narrow encoding's lists are relations (`HasCome`, `Wanted`), the least that meet their rules; any walk may
//!   find them. What is said of a goal's answer names a function from numbers of cycles to formulas: for each number
//!   that may be asked for, the formula over some list of the encoding.
//! - Wanted classes with pins: the guard's class counts as the branch's operand, so a zero class of a guard isn't
//!   wanted. A set that holds the memory has no pin in a launch graph, so no clause asks which name a pinned set has.
//! - The law says that some values show a list of launches with all values that are the same up to the formula's last
//!   variable (`AreShown`), so that the formula with memory, guard, registers and pins goes on with its own. It has
//!   what the upper crate's clauses say of pins as its condition, as a record of its own (`ArePinsKept`). The fifth
//!   rule for targets with a pin isn't here, since the clauses that say it need no value's place.
//! - Counters stand one after another, and an assignment is extended over them from the front, since each is over the
//!   variables before it and its own.
#![tactic(auto)]

mod buckets;
mod by_destination;
mod coming;
mod counts;
mod destined_counts;
mod encoding;
mod encodings;
mod facts;
mod families;
mod frames;
mod launches;
mod laws;
mod marks;
mod needed;
mod needs_counts;
mod operands;
mod overwriting;
mod plans;
mod reaching;
mod scopes;
mod seen;
mod sizes;
mod slots;
mod wanting;

pub use buckets::{empty_lists, put_into};
pub use coming::delay;
pub use counts::{Sizes, one_size, one_vars, row_count, slot_count};
pub use encoding::{add_vars, build_cycles, encode, encode_as};
pub use encodings::Encoding;
pub use facts::{Facts, next_class};
pub use families::{add_implied, variables};
pub use frames::Frame;
pub use launches::{Made, can_begin, may_use};
pub use laws::{
    cycle_clauses_say_rules, cycle_counts_are_found, each_encoding_has_one_list, parts_keep_rules,
};
pub use marks::{filled, mark};
pub use needs_counts::takes_input;
pub use overwriting::{OverwrittenVars, overwritten_vars, push_lost};
pub use plans::{EncodeFault, Encoded, VarPlan, launch_of};
pub use reaching::{destination_count, goes, late, takes_register};
pub use scopes::Scope;
pub use sizes::{cycle_sizes, is_overwriting};
