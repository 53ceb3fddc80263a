//! Tokens, trees and lines of the texts that the superoptimiser reads, and the faults that a text may have.
//!
//! A text of goals is read in passes: its bytes as tokens, the tokens as trees, and the trees as forms in the crates
//! above. A pass runs where the one before found no fault, and gives its earliest fault. Answers and programs are
//! read as lines of words.
//!
//! Proved, both ways, except for running out of memory: `lex` gives exactly the tokens of a text or its earliest fault,
//! `tree` the trees of tokens, at most 64 deep, or the first misplaced parenthesis, `lines` the lines of a text or its
//! first fault. No text has two readings (`one_lexing`, `one_parsing`, `one_splitting`); tokens and trees stand one
//! after another within the text. Printed lines are read back as the same words wherever they stand, and each text of
//! lines is what its words print (`printed_lines_are_lines`). `decimal` and `is_name` are exact both ways; a name token
//! is a name; a fault prints as stated.
//!
//! What nothing forced, and why:
//! - A fault of the parentheses is first by its token, so `tree` needs no condition on places; a law gives 'earliest by
//!   place' for the tokens of a text.
//! - A parenthesis is matched by tokens that spell trees. So an open list inside 64 others is too deep only if the
//!   outermost of those that it stands in is closed later; otherwise that one is the earlier fault, as unclosed. No
//!   tree deeper than 64 is built, so nothing recurses without a bound.
//! - `lines` looks at all bytes first, since a byte that isn't allowed comes before all other faults, wherever it
//!   stands.
//! - `Sexp` holds a plain `Vec`, since a type can't be seen by a model if it holds itself; clauses see it through
//!   `sexp_trees`.
//! - What puts words and numbers after a text, and asks for the form of a line, is for all crates with lines. Those of
//!   goal texts print numbers without a space before them, and have their own.
#![tactic(auto)]

mod faults;
mod laws;
mod lexer;
mod limits;
mod line_forms;
mod line_index;
mod line_printing;
mod names;
mod numbers;
mod parser;
mod pieces;
mod sexps;
mod splitter;
mod tokens;

pub use faults::{Fault, Kind, TextFault};
pub use laws::{one_lexing, one_parsing, one_splitting, printed_lines_are_lines, sexps_are_trees};
pub use lexer::lex;
pub use limits::{
    MOST_ASSUMES, MOST_AXIOMS, MOST_BLOCKS, MOST_CODE_WORDS, MOST_CODES, MOST_DECLARED, MOST_GOALS,
    MOST_INPUTS, MOST_NESTING, MOST_PLACES, MOST_SETS, MOST_VARIABLES, MOST_WORDS,
};
pub use line_forms::{begins_with, has_form, same};
pub use line_index::TextLines;
pub use line_printing::{put, put_number, put_numbered, put_word};
pub use names::{Name, is_name};
pub use numbers::decimal;
pub use parser::tree;
pub use sexps::Sexp;
pub use splitter::lines;
pub use tokens::{Token, TokenKind};
