// Numbers, tokens, trees and lines of texts.
ghost use Rattle.std.specs.Prelude.{◌<◌, ◌≤◌, ◌^◌, length};

use case_files::{Trouble, faulty, put, put_number, put_numbers};
use std::alloc::Global;
use text_core::{Sexp, TokenKind, decimal, lex, tree};

/// The number that a word is, or `none`.
pub(crate) fn decimals(alloc: Global, input: &[u8]) -> Result<Vec<u8>, Trouble> {
    let mut report = Vec::new(alloc);
    match decimal(input) {
        Some(number) => put_numbers(&mut report, b"number", &[number])?,
        None => put(&mut report, b"none\n")?,
    }
    Ok(report)
}

/// The tokens of a text, or its fault. A token's line has its kind, its place and its length, and a number's value.
pub(crate) fn tokens(alloc: Global, input: &[u8]) -> Result<Vec<u8>, Trouble>
    requires { length input.now ≤ 2 ^ 24 }
{
    let tokens = match lex(alloc, input) {
        Ok(tokens) => tokens,
        Err(fault) => return faulty(alloc, fault),
    };
    let mut report = Vec::new(alloc);
    for token in &tokens {
        let kind = match token.kind {
            TokenKind::Opening => b"opening".as_slice(),
            TokenKind::Closing => b"closing".as_slice(),
            TokenKind::Name => b"name".as_slice(),
            TokenKind::Register => b"register".as_slice(),
            TokenKind::Number(_) => b"number".as_slice(),
        };
        put(&mut report, kind)?;
        put_number(&mut report, u64::from(token.place))?;
        put_number(&mut report, u64::from(token.len))?;
        if let TokenKind::Number(value) = token.kind {
            put_number(&mut report, value)?;
        }
        put(&mut report, b"\n")?;
    }
    Ok(report)
}

/// The places of atoms and of the parentheses of lists.
fn put_trees(report: &mut Vec<u8>, trees: &[Sexp]) -> Result<(), Trouble> {
    for tree in trees {
        match tree {
            Sexp::Atom(token) => put_number(report, u64::from(token.place))?,
            Sexp::List { place, parts } => {
                put(report, b" (")?;
                put_number(report, u64::from(*place))?;
                put_trees(report, parts)?;
                put(report, b" )")?;
            }
        }
    }
    Ok(())
}

/// The trees of a text in one line, or its fault.
pub(crate) fn trees(alloc: Global, input: &[u8]) -> Result<Vec<u8>, Trouble>
    requires { length input.now ≤ 2 ^ 24 }
{
    let tokens = match lex(alloc, input) {
        Ok(tokens) => tokens,
        Err(fault) => return faulty(alloc, fault),
    };
    if tokens.len() > 1 << 24 {
        return Err(Trouble::Unread);
    }
    match tree(alloc, &tokens) {
        Ok(trees) => {
            let mut report = Vec::from_slice(alloc, b"trees")?;
            put_trees(&mut report, &trees)?;
            put(&mut report, b"\n")?;
            Ok(report)
        }
        Err(fault) => faulty(alloc, fault),
    }
}

/// The lines of a text and its end, or its fault. For each line there are its place, and its words between bars.
pub(crate) fn lines(alloc: Global, input: &[u8]) -> Result<Vec<u8>, Trouble>
    requires { length input.now ≤ 2 ^ 24 }
{
    let text = match text_core::lines(alloc, input) {
        Ok(text) => text,
        Err(fault) => return faulty(alloc, fault),
    };
    let mut report = Vec::new(alloc);
    for line in 0..text.count() {
        put(&mut report, b"line")?;
        put_number(&mut report, u64::from(text.place(line)))?;
        for at in 0..text.words(line) {
            put(&mut report, b" |")?;
            put(&mut report, text.word(line, at))?;
        }
        put(&mut report, b"\n")?;
    }
    let end = u64::from(text.place(text.count()));
    put_numbers(&mut report, b"end", &[end])?;
    Ok(report)
}
