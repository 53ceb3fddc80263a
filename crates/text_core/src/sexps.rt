// Trees of tokens.
use crate::Token;

/// An atom, or a list of trees and the place of its opening parenthesis. A tree that was read is at most 64 lists deep.
#[derive(Drop)]
pub enum Sexp {
    Atom(Token),
    List { place: u32, parts: Vec<Sexp> },
}
