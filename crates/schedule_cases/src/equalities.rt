// Rewrite rules, and the constants that computed rules give.
use axiom_base::{CALC_KINDS, Calc, FURTHER_KINDS, Given, calc, calc_left, calc_right};
use case_files::{Trouble, Words, put, put_number};
use itoa::Buffer;
use std::alloc::Global;
use word_ops::{Op, op_name};
use word_terms::Term;

/// The name of an operator, with what it holds.
fn put_operator(report: &mut Vec<u8>, op: Op) -> Result<(), Trouble> {
    match op {
        Op::Entry => put(report, b"memory"),
        Op::Input(register) => {
            put(report, b"input")?;
            put_number(report, u64::from(register))
        }
        Op::Constant(word) => put(report, Buffer::new().format(word).as_bytes()),
        Op::Word(op) => put(report, op_name(op)),
        Op::Select(access) => put(report, access.select_name()),
        Op::Store(access) => put(report, access.store_name()),
        Op::Load(access) => put(report, access.load_name()),
        Op::Put(access) => put(report, access.put_name()),
        Op::Declared { index, .. } => {
            put(report, b"use")?;
            put_number(report, u64::from(index))
        }
    }
}

/// A term, whose variable number n is written xn.
fn put_term(report: &mut Vec<u8>, term: &Term<Op>) -> Result<(), Trouble> {
    match term {
        Term::Var(number) => {
            put(report, b"x")?;
            put(report, Buffer::new().format(*number).as_bytes())
        }
        Term::App(op, operands) => {
            if operands.is_empty() {
                return put_operator(report, *op);
            }
            put(report, b"(")?;
            put_operator(report, *op)?;
            for operand in operands {
                put(report, b" ")?;
                put_term(report, operand)?;
            }
            put(report, b")")
        }
    }
}

/// Two sides as a line.
fn sides(alloc: Global, left: &Term<Op>, right: &Term<Op>) -> Result<Vec<u8>, Trouble> {
    let mut report = Vec::new(alloc);
    put_term(&mut report, left)?;
    put(&mut report, b" = ")?;
    put_term(&mut report, right)?;
    put(&mut report, b"\n")?;
    Ok(report)
}

/// The sides of the equation of a number, from 1.
pub(crate) fn equations(alloc: Global, input: &[u8]) -> Result<Vec<u8>, Trouble> {
    let number = Words { rest: input }.small()?;
    let rules = axiom_base::equations(alloc)?;
    match rules.as_slice().get(number.wrapping_sub(1) as usize) {
        Some(rule) => sides(alloc, rule.left(), rule.right()),
        None => Ok(Vec::from_slice(alloc, b"none\n")?),
    }
}

/// The kind of computed rules of a number, from 1.
pub(crate) fn kind_of(number: u32) -> Result<Calc, Trouble> {
    let at = number.wrapping_sub(1) as usize;
    if let Some(kind) = CALC_KINDS.get(at) {
        return Ok(*kind);
    }
    match FURTHER_KINDS.get(at.wrapping_sub(CALC_KINDS.len())) {
        Some(kind) => Ok(*kind),
        None => Err(Trouble::Unread),
    }
}

/// The sides of a computed rule, by its kind's number and the constants that are given: one or two.
pub(crate) fn computed(alloc: Global, input: &[u8]) -> Result<Vec<u8>, Trouble> {
    let mut words = Words { rest: input };
    let kind = kind_of(words.small()?)?;
    let e = words.number()?;
    let f = if words.rest.is_empty() {
        0
    } else {
        words.number()?
    };
    sides(
        alloc,
        &calc_left(alloc, kind)?,
        &calc_right(alloc, kind, Given { e, f })?,
    )
}

/// What a computed rule gives for constants, by its kind's number: one constant, or two, of which the second is never
/// 0.
pub(crate) fn constants(alloc: Global, input: &[u8]) -> Result<Vec<u8>, Trouble> {
    let mut words = Words { rest: input };
    let kind = kind_of(words.small()?)?;
    let mut values = Vec::new(alloc);
    values.push(words.number()?)?;
    if !words.rest.is_empty() {
        values.push(words.number()?)?;
    }
    if values.len() != axiom_base::constants(kind) {
        return Err(Trouble::Unread);
    }
    let mut report = Vec::new(alloc);
    match calc(kind, &values) {
        Some(given) => {
            put(&mut report, b"gives")?;
            put_number(&mut report, given.e)?;
            if given.f != 0 {
                put_number(&mut report, given.f)?;
            }
            put(&mut report, b"\n")?;
        }
        None => put(&mut report, b"none\n")?,
    }
    Ok(report)
}
