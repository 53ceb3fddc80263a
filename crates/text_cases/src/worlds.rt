// The values of operators, and memories.
use case_files::{Lines, Trouble, Words, put, put_numbers};
use std::alloc::Global;
use word_ops::{Mem, apply, arity, op_name, op_of};

/// How many places of words a memory has.
const PLACES: u64 = 1 << 61;

/// The value of an operator, which is named before its operands.
pub(crate) fn operators(alloc: Global, input: &[u8]) -> Result<Vec<u8>, Trouble> {
    let mut words = Words { rest: input };
    let mut report = Vec::new(alloc);
    let name = words.word()?;
    let Some(op) = op_of(name) else {
        put(&mut report, b"no operator\n")?;
        return Ok(report);
    };
    if op_name(op) != name {
        put(&mut report, b"another name\n")?;
        return Ok(report);
    }
    let operands = words.numbers(alloc)?;
    if operands.len() != arity(op) {
        put_numbers(&mut report, b"operands", &[arity(op) as u64])?;
        return Ok(report);
    }
    put_numbers(&mut report, b"word", &[apply(op, &operands)])?;
    Ok(report)
}

/// Does what a line says with a memory, and answers what it asks.
fn take_line(memory: &mut Mem, report: &mut Vec<u8>, line: &[u8]) -> Result<(), Trouble> {
    let mut words = Words { rest: line };
    match words.word()? {
        b"set" => {
            let at = words.number()? % PLACES;
            memory.set(at, words.number()?)?;
        }
        b"get" => {
            let at = words.number()? % PLACES;
            put_numbers(report, b"word", &[memory.get(at)])?;
        }
        b"entries" => {
            for (at, word) in &memory.entries()? {
                put_numbers(report, b"place", &[*at, *word])?;
            }
        }
        _ => return Err(Trouble::Unread),
    }
    Ok(())
}

/// Input: lines that say what is done with a memory, which holds nothing at first: `set PLACE WORD`, `get PLACE`,
/// `entries`, and `copy`, which goes on with a copy and changes the first memory.
pub(crate) fn memories(alloc: Global, input: &[u8]) -> Result<Vec<u8>, Trouble> {
    let mut report = Vec::new(alloc);
    let mut memory = Mem::new(alloc);
    let mut lines = Lines { rest: input };
    for _ in 0..input.len() {
        let Some(line) = lines.next() else {
            break;
        };
        if line == b"copy".as_slice() {
            let copy = memory.copy()?;
            memory.set(0, 1)?;
            memory = copy;
        } else {
            take_line(&mut memory, &mut report, line)?;
        }
    }
    Ok(report)
}
