// Sources that are read to their end, and sinks that are written to.
ghost use Rattle.std.specs.Prelude.{◌≤◌, IfOk};

use case_files::{Trouble, Words, put, put_line, put_numbers, split_line};
use outside_io::{FailingSink, FailingSource, ReadAllFault, SinkFault, read_all, write_all};
use std::alloc::Global;

/// How a stream behaves: a limit or a room, how many bytes it moves in a call at most, and which calls fail.
#[derive(Drop)]
struct Behaviour {
    most: u32,
    step: usize,
    fails: Vec<u64>,
}

/// The behaviour that a line `MOST STEP CALL..` tells.
fn behaviour_in(alloc: Global, line: &[u8]) -> Result<Behaviour, Trouble>
    ensures { IfOk result (λ told. 1 ≤ told.step) }
{
    let mut words = Words { rest: line };
    let most = words.small()?;
    let step = words.small()? as usize;
    if step < 1 {
        return Err(Trouble::Unread);
    }
    let fails = words.numbers(alloc)?;
    Ok(Behaviour { most, step, fails })
}

/// Input: a line `LIMIT STEP CALL..` and a text. Answers with what `read_all` with this limit gives over a source of
/// the text that gives at most STEP bytes a call, and fails at the calls of these numbers.
pub(crate) fn reads(alloc: Global, input: &[u8]) -> Result<Vec<u8>, Trouble> {
    let (head, text) = split_line(input);
    let Behaviour { most, step, fails } = behaviour_in(alloc, head)?;
    let mut source = FailingSource::new(text.to_vec(alloc)?, step, fails);
    let mut report = Vec::new(alloc);
    match read_all(alloc, &mut source, most) {
        Ok(bytes) => {
            put_numbers(&mut report, b"read", &[bytes.len() as u64])?;
            put_line(&mut report, &[&bytes])?;
        }
        Err(ReadAllFault::SourceFault) => put(&mut report, b"source fault\n")?,
        Err(ReadAllFault::TooLong) => put(&mut report, b"too long\n")?,
        Err(ReadAllFault::Memory) => return Err(Trouble::Memory),
    }
    Ok(report)
}

/// Input: a line `ROOM STEP CALL..` and a text. Answers with what `write_all` gives over a sink with this room that
/// takes at most STEP bytes a call, and fails at the calls of these numbers; and with what was written.
pub(crate) fn writes(alloc: Global, input: &[u8]) -> Result<Vec<u8>, Trouble> {
    let (head, text) = split_line(input);
    let Behaviour { most, step, fails } = behaviour_in(alloc, head)?;
    let mut sink = FailingSink::new(alloc, most as usize, step, fails)?;
    let mut report = Vec::new(alloc);
    match write_all(&mut sink, text) {
        Ok(()) => put(&mut report, b"written\n")?,
        Err(SinkFault) => put(&mut report, b"sink fault\n")?,
    }
    put_line(&mut report, &[sink.written()])?;
    Ok(report)
}
