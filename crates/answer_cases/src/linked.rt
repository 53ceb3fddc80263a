// Procs: the words into which their blocks are linked, and what these do.
use crate::calls::{call_of, replied, status_and_check};
use crate::states::{put_memory, state_of};
use alpha_machine::{State, step};
use case_files::{Lines, Trouble, Words, hexadecimal, put, put_number, split_before, split_line};
use std::alloc::Global;

/// The most steps of a run.
const MOST_STEPS: u32 = 100_000;

/// Steps through the words from a state until the pc is past the last of them, and whether it comes there.
fn ends(words: &[u32], state: &mut State) -> Result<bool, Trouble> {
    for _ in 0..MOST_STEPS {
        let Some(word) = words.get((state.pc() / 4) as usize) else {
            return Ok(true);
        };
        if step(state, *word).is_err() {
            return Err(Trouble::Unread);
        }
    }
    Ok(false)
}

/// Whether a run of the words from the state of a line `run reg N WORD.. mem ADDRESS WORD..` comes to their end, and
/// the state then: the words in the registers of the line, and each address that doesn't hold 0.
fn put_run(alloc: Global, report: &mut Vec<u8>, words: &[u32], line: &[u8]) -> Result<(), Trouble> {
    let asked = line.strip_prefix(b"run ").ok_or(Trouble::Unread)?;
    let mut state = state_of(alloc, &mut Words { rest: asked })?;
    if ends(words, &mut state)? {
        put(report, b"end")?;
    } else {
        put(report, b"going")?;
    }
    let mut words = Words { rest: asked };
    for _ in 0..asked.len() {
        let Some(kind) = words.next() else {
            break;
        };
        let at = words.number()?;
        words.number()?;
        if kind == b"reg".as_slice() {
            let reg = (at % 31) as u8;
            put(report, b" reg")?;
            put_number(report, u64::from(reg))?;
            put_number(report, state.register(reg))?;
        }
    }
    put_memory(report, state.memory())
}

/// Input: lines `run reg N WORD.. mem ADDRESS WORD..`, a line `of`, and a call of `proc`. Answers with the status, what
/// `check` writes of the answer in front of the linked words, and for each run of these the state at its end.
pub(crate) fn linked(alloc: Global, input: &[u8]) -> Result<Vec<u8>, Trouble> {
    let (asked, rest) = split_before(input, b"of\n");
    let (written, status) = replied(alloc, call_of(alloc, split_line(rest).1)?)?;
    let (answer, rest) = split_before(&written, b"linked ");
    let mut report = status_and_check(alloc, status, b"check", answer)?;
    let mut words = Vec::new(alloc);
    let mut lines = Lines { rest };
    for _ in 0..rest.len() {
        let Some(line) = lines.next() else {
            break;
        };
        if let Some(rest) = line.strip_prefix(b"word ") {
            let digits = Words { rest }.word()?;
            words.push(hexadecimal(digits).ok_or(Trouble::Unread)?)?;
        }
    }
    let mut lines = Lines { rest: asked };
    for _ in 0..asked.len() {
        let Some(line) = lines.next() else {
            break;
        };
        put_run(alloc, &mut report, &words, line)?;
    }
    Ok(report)
}
