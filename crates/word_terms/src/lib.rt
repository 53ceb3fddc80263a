//! Terms over an operator type: what an operator type says of itself, and the calls on terms that every such type
//! shares.
//!
//! `Op` of `word_ops` is such a type. `SmallOp` is another, small enough to be read at a glance: the tests of each
//! crate that is generic in its operators run at both.
//!
//! Proved for every operator type that keeps the laws of `Operator`, as `Op` and `SmallOp` do: `subst` gives the term
//! with terms put in for its variables, whose value in every world is that of the first under the values of what was
//! put in; `same` is equality of terms, `same_operator` of operators, and `copy` gives an equal term. An operator gives
//! a value of its sort and in range, equal keys are equal operators, a constant has its value. Which tree a term is,
//! and the value of a tree after a substitution, is a law (`terms_are_trees`).
//!
//! What nothing forced, and why:
//! - `Term` holds itself through `Vec`, so `≡` on it would compare capacities: clauses speak of `tree_of`, a fold that
//!   reads the items alone. The value of a tree is one definition for any type of values, words and memories as well as
//!   the values that a graph's classes are given.
//! - An operator type has one member `signature` (arity, sorts, constant, key) in place of five, so that a clause names
//!   it once; and `meaning`, which reads a world and the name of each declared operator's number.
//! - The law that values are in range is a clause of a function that does nothing (`gives_its_sort`), beside the laws
//!   that are members: a member's proof can cite `specs/` alone, and the ranges of `Op` are a clause of `word_ops`. For
//!   the same reason the laws' proofs stand in `specs/` (`Laws`).
//! - A word operator's key is its number, its place in the list of operators. The definition writes the 61 numbers,
//!   since a search of the list wouldn't compute if the operator is a variable; a law ties them to the list.
//! - When a tree is well formed is said over any signature, since readers of terms that don't know rules say it too.
//! - `SmallOp` is public, since a test's own type can't be used in another crate. It has a memory and an operator that
//!   takes one, so that sorts can be refused in tests.
//! - A type that contracts see by trees needs a code of trees, which the toolchain hasn't: `Codes` builds it from the
//!   operators' keys.
#![tactic(auto)]

mod building;
mod laws;
mod operator;
mod small;
mod term;
mod word_operator;

pub use building::{
    constant, displaced_read, displaced_written, one, operate_1, operate_2, read, select, store,
    three, two, written,
};
pub use laws::terms_are_trees;
pub use operator::Operator;
pub use small::SmallOp;
pub use term::{Term, application, same, same_operator, subst, variable};
