//! An E-graph: rows of operators over classes of terms that have one value, closed under congruence.
//!
//! Classes are numbered from 0 as they are made. A merge puts classes into one; every class ever made can still be
//! named, and is read as the class that it is in at present. An index finds a row by what it applies, and lists beside
//! each class find the rows that name it, so that a merge touches these alone.
//!
//! Proved for any operator type: `insert` gives the class of the row that is there, or adds one with a class of its
//! own; `merge` joins exactly the classes that congruence forces, for each class ever made, and refuses exactly
//! where two different constants meet in a class, with these. No two rows agree, and no class has two constants.
//! Values under which all rows are true stay so if the merged classes have one value, and extend to a new class;
//! whatever a merge answers, they give one value to any two classes that it would join (`joined_values`). Classes
//! keep their sorts (`keeps_sorts`). Each reading call is exact. What a call costs is no clause.
//!
//! What nothing forced, and why:
//! - Clauses name no representation: they speak of the list of rows and of the class that each class ever made is in.
//!   Which of the joined classes stays, and the order of rows after a merge, is free. What is fixed: a class that stays
//!   was present before, and an insert puts its row at the end with the number of classes made so far.
//! - There is no second, slow E-graph to compare with: the clauses are exact, so any two bodies that keep them give the
//!   same rows and classes.
//! - Sorts are a relation over rows: the rows of a class give one sort, and an operand's class has the sort that is
//!   taken there. No function from classes to sorts is kept, so a caller shows a sort by a row of the class
//!   (`IsOfSort`), which moves along inserts and merges without a condition.
//! - Values are kept for every function from an operator and values to a value, and not only for what operators mean in
//!   a world: congruence needs no more.
//! - The calls from which a graph comes say that it is one (`IsGraph`), since a caller sees the value of a model and
//!   not its invariant. That there are at most 2 ^ 31 classes, and no more rows than classes, is part of it, so that
//!   `made` and `rows` need no condition.
//! - `NoWorld` names a class that the closure joins with both constants; which of these classes, and which constant
//!   comes first, is free.
//! - Of two classes the one that fewer rows name goes, the second at a tie. A row counts once for its class and once
//!   for each of its operands.
//! - The tables say at least what is there, and what they find is looked at: a list beside a class has the keys of all
//!   rows that it is for, and may have others; an entry of the index is compared with the row that is found. So no step
//!   of an insert has to be undone when memory is refused.
//! - What moves the rows of a class takes the allocator, though it takes no memory: a row's operands are taken out
//!   while they are relabelled, since `Items` gives no mutable slice.
#![tactic(auto)]

mod class_constants;
mod class_lists;
mod faults;
mod graph;
mod growing;
mod joining;
mod laws;
mod moving;
mod row_index;
mod rows;
mod tables;
mod twins;

pub use faults::MergeFault;
pub use graph::Egraph;
pub use laws::{
    classes_have_one_sort, inserts_keep_rows, merges_keep_classes, rows_name_present_classes,
};
pub use rows::Row;
