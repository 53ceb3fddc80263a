// Calls of the top: what is written, with which status.
use case_files::{Lines, Trouble, Words, put, put_numbers, split_before, split_line};
use outside_io::{FailingSink, FailingSource};
use reports::Status;
use std::alloc::Global;

/// A call of the top: its words, a source and a sink.
#[derive(Drop)]
pub(crate) struct Call {
    words: Vec<String>,
    text: Vec<u8>,
    pub(crate) source_step: usize,
    pub(crate) source_fails: Vec<u64>,
    room: usize,
    pub(crate) sink_step: usize,
    pub(crate) sink_fails: Vec<u64>,
}

/// What a call has before a case says otherwise.
fn plain_call(alloc: Global) -> Call {
    Call {
        words: Vec::new(alloc),
        text: Vec::new(alloc),
        source_step: 4096,
        source_fails: Vec::new(alloc),
        room: 1 << 22,
        sink_step: 1 << 22,
        sink_fails: Vec::new(alloc),
    }
}

fn add_word(alloc: Global, call: &mut Call, word: &[u8]) -> Result<(), Trouble> {
    let Ok(word) = String::from_utf8(word.to_vec(alloc)?) else {
        return Err(Trouble::Unread);
    };
    call.words.push(word)?;
    Ok(())
}

fn add_words(alloc: Global, call: &mut Call, words: Words<'_>) -> Result<(), Trouble> {
    let mut words = words;
    for _ in 0..words.rest.len() {
        let Some(word) = words.next() else {
            break;
        };
        add_word(alloc, call, word)?;
    }
    Ok(())
}

/// Takes a line of a call's head.
fn take_line(alloc: Global, call: &mut Call, line: &[u8]) -> Result<(), Trouble> {
    if let Some(word) = line.strip_prefix(b"word ") {
        return add_word(alloc, call, word);
    }
    let mut words = Words { rest: line };
    match words.word()? {
        b"words" => add_words(alloc, call, words)?,
        b"source" => {
            call.source_step = words.small()? as usize;
            call.source_fails = words.numbers(alloc)?;
        }
        b"sink" => {
            call.room = words.small()? as usize;
            call.sink_step = words.small()? as usize;
            call.sink_fails = words.numbers(alloc)?;
        }
        b"fill" => {
            let (count, byte) = (words.small()?, words.small()?);
            for _ in 0..count {
                call.text.push((byte % 256) as u8)?;
            }
        }
        _ => return Err(Trouble::Unread),
    }
    Ok(())
}

/// Input: `words WORD..` or `word WORD`, which may be empty; `source STEP CALL..` and `sink ROOM STEP CALL..`, with the
/// calls that fail; `fill COUNT BYTE`, behind which nothing else is read; and behind a line `text` the text. Gives the
/// call of the top.
pub(crate) fn call_of(alloc: Global, input: &[u8]) -> Result<Call, Trouble> {
    let (head, rest) = split_before(input, b"text\n");
    let mut call = plain_call(alloc);
    let mut lines = Lines { rest: head };
    for _ in 0..head.len() {
        let Some(line) = lines.next() else {
            break;
        };
        take_line(alloc, &mut call, line)?;
    }
    let (_, text) = split_line(rest);
    put(&mut call.text, text)?;
    Ok(call)
}

/// What the top call writes, and its status.
pub(crate) fn replied(alloc: Global, call: Call) -> Result<(Vec<u8>, Status), Trouble> {
    let Call {
        words: owned,
        text,
        source_step,
        source_fails,
        room,
        sink_step,
        sink_fails,
    } = call;
    if source_step < 1 || sink_step < 1 {
        return Err(Trouble::Unread);
    }
    let mut words = Vec::new(alloc);
    for word in &owned {
        words.push(word.as_str())?;
    }
    let mut source = FailingSource::new(text, source_step, source_fails);
    let mut sink = FailingSink::new(alloc, room, sink_step, sink_fails)?;
    let status = denali_cli::run(alloc, &words, &mut source, &mut sink);
    Ok((sink.written().to_vec(alloc)?, status))
}

/// The status and the bytes of a call.
pub(crate) fn commands(alloc: Global, input: &[u8]) -> Result<Vec<u8>, Trouble> {
    let call = call_of(alloc, input)?;
    let (written, status) = replied(alloc, call)?;
    let mut report = Vec::new(alloc);
    put_numbers(&mut report, b"status", &[u64::from(status.code())])?;
    put(&mut report, &written)?;
    Ok(report)
}

/// What a command with these words writes of a text.
pub(crate) fn written_by(alloc: Global, words: &[u8], text: &[u8]) -> Result<Vec<u8>, Trouble> {
    let mut call = plain_call(alloc);
    add_words(alloc, &mut call, Words { rest: words })?;
    put(&mut call.text, text)?;
    Ok(replied(alloc, call)?.0)
}

/// The status of a call, and what a command with these words writes of what the call wrote.
pub(crate) fn status_and_check(
    alloc: Global,
    status: Status,
    check: &[u8],
    written: &[u8],
) -> Result<Vec<u8>, Trouble> {
    let mut report = Vec::new(alloc);
    put_numbers(&mut report, b"status", &[u64::from(status.code())])?;
    put(&mut report, &written_by(alloc, check, written)?)?;
    Ok(report)
}
