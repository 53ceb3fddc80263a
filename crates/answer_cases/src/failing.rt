// A call of the top whose reads or writes fail one after another.
use crate::calls::{call_of, replied};
use case_files::{Trouble, Words, put, put_numbers, split_line};
use reports::Status;
use std::alloc::Global;

/// The most calls of a source or a sink that are made to fail.
const MOST_CALLS: u64 = 1 << 16;

/// Input: a line `source STEP` or `sink STEP`, and a call, which is made again and again: first its first read or write
/// fails, then its second, and so on until none does. For each there is a line with its number, the status, and how
/// many bytes were written; for the last one the status and the bytes.
pub(crate) fn failing(alloc: Global, input: &[u8]) -> Result<Vec<u8>, Trouble> {
    let (line, call) = split_line(input);
    let mut words = Words { rest: line };
    let is_source = match words.word()? {
        b"source" => true,
        b"sink" => false,
        _ => return Err(Trouble::Unread),
    };
    let step = words.small()? as usize;
    let mut report = Vec::new(alloc);
    for at in 1..MOST_CALLS {
        let mut call = call_of(alloc, call)?;
        if is_source {
            call.source_step = step;
            call.source_fails.push(at)?;
        } else {
            call.sink_step = step;
            call.sink_fails.push(at)?;
        }
        let (written, status) = replied(alloc, call)?;
        let code = u64::from(status.code());
        if status != Status::SourceFault && status != Status::SinkFault {
            put_numbers(&mut report, b"status", &[code])?;
            put(&mut report, &written)?;
            return Ok(report);
        }
        put_numbers(&mut report, b"call", &[at, code, written.len() as u64])?;
    }
    Err(Trouble::Unread)
}
