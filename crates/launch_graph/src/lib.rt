//! The texts of launch graphs: the lines of a graph, printed, and read back or refused with the first fault.
//!
//! `graph_meaning` says what a graph is, and when it is well formed; its types and calls are exported again here.
//!
//! Proved: `print` gives exactly the lines of a graph, and those of a well-formed graph are lines of words wherever
//! they stand (`printed_graphs_are_lines`). `read_as` gives exactly the graph whose lines begin at a line of a text, in
//! a version of the format, and only well-formed ones, in version 1 without pins (`graph`, `read`), or the first fault
//! of these lines (`fault`, `refused`). Lines have one graph at most from a line on, and then no fault, and those that
//! a well-formed graph prints have it (`one_graph`, `one_graph_of_each_version`), so what was printed is read back,
//! however large.
//!
//! What nothing forced, and why:
//! - A graph's lines are a function of it (`graph_lines (said g)`), a list of words for each line. `said` has the rows
//!   as lines have them, where a declared operator goes by its name and a word may name no operator: a reader of lines
//!   needs that, so the printer is said in the same words.
//! - `print` has no condition. That its lines can be read is a law of well-formed graphs.
//! - A line is `BadLine` if no text of the format goes on so (`GoesOn`): some text begins with the lines before it, and
//!   none with it too. Nothing in that copies a reader, and it says wrong words, missing lines and counts in one.
//! - Lines say something before rows and classes are judged (`GraphLines`), so that `BadRow` and `BadClass` don't
//!   disturb `BadLine`. `IsFaultAt` takes the format of the whole text and that of the graph alone, so a format with a
//!   graph among its lines has the same faults there.
//! - A class's sort is that of its first row that tells one, also if that row stands after the line in question. A
//!   graph ends where no `guard` or `set` line stands after it, else a front of its targets would be a graph too.
//! - A number on a line with a class is below 2 ^ 31 wherever it counts, so that two numbers aren't one word.
//! - The version of a graph's lines is a number in their definitions, and asked in one place, whether a set may tell a
//!   pin (`PinFits`); each other number is as 1.
#![tactic(auto)]

mod behind_rows;
mod class_marks;
mod index;
mod laws;
mod line_faults;
mod line_reading;
mod numbering;
mod printing;
mod reading;
mod row_lines;
mod row_reading;
mod rows_reading;
mod seen_rows;

pub use graph_meaning::{
    Guard, InputClass, LaunchGraph, LaunchRow, SetClass, classes_have_values,
    graphs_are_consistent, registers_are_apart,
};
pub use laws::{one_graph, one_graph_of_each_version, printed_graphs_are_lines};
pub use printing::{print, put_graph};
pub use reading::{read, read_as};
pub use row_lines::{LineOp, RowLine};
