// What a formula is made over, before any clause.
use crate::{Facts, Scope};
use machine_table::Table;

/// What is known before any clause: a graph's facts, a table, what has variables, and in how many cycles a schedule is.
#[derive(Clone, Copy)]
pub struct Frame<'a> {
    pub facts: &'a Facts<'a>,
    pub table: &'a Table,
    pub scope: &'a Scope,
    pub k: u32,
}
