//! Inputs and goals: declared operators, axioms and guarded multi-assignments of terms; when they are well formed, when
//! axioms and assumptions hold in a world, and what a goal's outcome in it is.
//!
//! `goal_reader` reads inputs from texts and prints them.
//!
//! A goal may name terms by lets. What it means is said of the expanded goal, which has no lets: a goal without lets is
//! what it is expanded to (`goals_without_lets_are_expanded`), and the expanded terms have the sorts of the terms that
//! they stand for (`expanded_terms_are_sorted`).
//!
//! These meanings are definitions, with laws on them: axioms hold for all goals of an input alike
//! (`axioms_hold_for_all_goals`), and each goal has an outcome in a world (`goals_have_outcomes`).
#![tactic(auto)]

mod goals;
mod laws;

pub use goals::{
    Assume, Axiom, DeclaredOp, FREE_REGISTERS, Goal, Input, InputReg, Let, MOST_LETS, Set,
};
pub use laws::{
    axioms_hold_for_all_goals, expanded_terms_are_sorted, goals_have_outcomes,
    goals_without_lets_are_expanded,
};
