//! E-matching: every substitution of classes under which the left side is in the graph; `unmet` keeps those whose right
//! side isn't yet in its class.
//!
//! Proved: `matches` lists every list of classes for a rule's variables under which the graph has the left side,
//! each once and no other (`exact`); `unmet` those under which the right side has no class or another one; `need`
//! is their number times the operators of the right side, up to 2 ^ 64 - 1. The `calc_` calls are the same for the
//! computed rules, and `folds` lists the rows that are an unmet match of folding, in order, with the constant
//! (`exact`). `class_of_pattern` gives the class of a term over given classes, or none exactly where it has none. A
//! term has one class at most (`terms_have_one_class`), and a match's classes are of the sorts of the rule's
//! variables (`matches_have_sorts`).
//!
//! What nothing forced, and why:
//! - Places of a match are classes of rows. Otherwise a left side that is a variable would match any number.
//! - Lists of matches have no stated order: `Lists` says that each is there, once, and nothing else; `Count` is a
//!   number by such a list.
//! - The walk keeps a list of what is known of variables, each item of which stands for all lists of classes that agree
//!   with it; no two items have one in common. So one lemma serves rows, operands and classes, and no order of
//!   variables is assumed.
//! - A fold is stated by the row that it is of, whose operands are the match's classes.
//! - `matches` and `folds` give `Items`, as `equations` does, and not a `Vec`.
#![tactic(auto)]

mod computed;
mod constants;
mod folding;
mod found;
mod laws;
mod plain;
mod reading;
mod row_lists;
mod searching;
mod walk;

pub use computed::{calc_matches, calc_need, calc_unmet, find_calc_unmet};
pub use folding::folds;
pub use found::{Fold, Match};
pub use laws::{matches_have_sorts, terms_have_one_class};
pub use plain::{find_unmet, matches, need, operators, unmet};
pub use reading::class_of_pattern;
pub use row_lists::RowTables;
