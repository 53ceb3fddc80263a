// What is solved: whether `check` accepts it, and what its words do.
use crate::calls::{call_of, replied, status_and_check};
use crate::states::{put_memory, state_of};
use alpha_machine::{End, run};
use answer_texts::{Claim, Claimed, read_answer};
use case_files::{Lines, Trouble, Words, put, put_number, put_numbers, split_before, split_line};
use std::alloc::Global;

/// Input: a call of `solve --least`. Answers with the status, and with what `check --least` writes of the answer, so
/// that a case doesn't depend on the solver's choice.
pub(crate) fn least_solved(alloc: Global, input: &[u8]) -> Result<Vec<u8>, Trouble> {
    let (written, status) = replied(alloc, call_of(alloc, input)?)?;
    status_and_check(alloc, status, b"check --least", &written)
}

/// How a run of a goal's words ends: the end, behind the last word each target with the word in its place, and each
/// address that doesn't hold 0.
fn put_run(
    alloc: Global,
    report: &mut Vec<u8>,
    goal: &Claimed,
    words: &mut Words<'_>,
) -> Result<(), Trouble> {
    let claim = &goal.claim;
    let Claim::Scheduled {
        words: code,
        places,
        ..
    } = claim
    else {
        return put(report, b"not scheduled\n");
    };
    let mut state = state_of(alloc, words)?;
    if code.len() > 1 << 20 {
        return Err(Trouble::Unread);
    }
    match run(code.as_slice(), &mut state) {
        Ok(End::Fall) => {
            put(report, b"fall")?;
            for place in places.as_slice() {
                put(report, b" ")?;
                put(report, place.name.bytes())?;
                put_number(report, state.register(place.reg % 32))?;
            }
        }
        Ok(End::Exit) => put(report, b"exit")?,
        Ok(End::Trap) => put(report, b"trap")?,
        Err(_) => return Err(Trouble::Unread),
    }
    put_memory(report, state.memory())
}

/// How many of the answer's instruction words are of these names: a name is a word in hexadecimal digits, or an
/// instruction's name.
fn count_words(answer: &[u8], names: &[u8]) -> u64 {
    let mut count = 0u64;
    let mut lines = Lines { rest: answer };
    for _ in 0..answer.len() {
        let Some(line) = lines.next() else {
            break;
        };
        let mut words = Words { rest: line };
        if words.next() == Some(b"word".as_slice()) {
            let (word, name) = (words.next(), words.next());
            let mut wanted = Words { rest: names };
            for _ in 0..names.len() {
                let one = wanted.next();
                if one.is_some() && (one == word || one == name) {
                    count = count.wrapping_add(1);
                }
            }
        }
    }
    count
}

/// Answers the lines that ask of an answer: `run GOAL reg N WORD mem ADDRESS WORD..` runs the words of a goal, by its
/// number from 0; `count NAME..` counts words.
fn put_asked(
    alloc: Global,
    report: &mut Vec<u8>,
    written: &[u8],
    asked: &[u8],
) -> Result<(), Trouble> {
    if asked.is_empty() || written.len() > 1 << 24 {
        return Ok(());
    }
    let Ok(answer) = read_answer(alloc, written) else {
        return put(report, b"no answer\n");
    };
    let mut lines = Lines { rest: asked };
    for _ in 0..asked.len() {
        let Some(line) = lines.next() else {
            break;
        };
        let mut words = Words { rest: line };
        if words.word()? == b"run".as_slice() {
            let at = words.small()? as usize;
            let goal = answer.goals.as_slice().get(at).ok_or(Trouble::Unread)?;
            put_run(alloc, report, goal, &mut words)?;
        } else {
            put_numbers(report, b"count", &[count_words(written, words.rest)])?;
        }
    }
    Ok(())
}

/// Input: lines that ask of an answer, a line `of`, and a call of `solve`. Answers with the status, what `check` writes
/// of the answer, and what is asked, so that a case doesn't depend on the solver's choice. A first line `pieces STEP`
/// also asks whether the same bytes are written where the source gives at most STEP bytes a call.
pub(crate) fn solved(alloc: Global, input: &[u8]) -> Result<Vec<u8>, Trouble> {
    let (asked, rest) = split_before(input, b"of\n");
    let call = split_line(rest).1;
    let (written, status) = replied(alloc, call_of(alloc, call)?)?;
    let mut report = status_and_check(alloc, status, b"check", &written)?;
    let (first, behind) = split_line(asked);
    let Some(word) = first.strip_prefix(b"pieces ") else {
        put_asked(alloc, &mut report, &written, asked)?;
        return Ok(report);
    };
    let step = Words { rest: word }.small()? as usize;
    let mut again = call_of(alloc, call)?;
    again.source_step = step;
    if replied(alloc, again)?.0.as_slice() == written.as_slice() {
        put(&mut report, b"same\n")?;
    } else {
        put(&mut report, b"differs\n")?;
    }
    put_asked(alloc, &mut report, &written, behind)?;
    Ok(report)
}
