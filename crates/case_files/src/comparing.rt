// Whether cases pass.
use crate::notation::{Written, next_case, unescaped};
use crate::reading::split_line;
use crate::reports::Trouble;
use crate::subjects::Subject;
use std::alloc::Global;

/// A case that didn't pass.
#[derive(Drop)]
pub(crate) struct Failure {
    pub(crate) name: Vec<u8>,
    pub(crate) input: Vec<u8>,
    pub(crate) wanted: Vec<u8>,
    pub(crate) came: Vec<u8>,
}

/// The case, if it doesn't pass. Where the subject has no answer, a line that says why is compared.
pub(crate) fn failing<S: Subject>(
    alloc: Global,
    subject: S,
    name: &[u8],
    input: Vec<u8>,
    wanted: Vec<u8>,
) -> Result<Option<Failure>, Trouble> {
    let came = if input.len() > 1 << 24 {
        Vec::from_slice(alloc, b"the input is too long\n")?
    } else {
        match subject.answer(alloc, &input) {
            Ok(report) => report,
            Err(Trouble::Unread) => Vec::from_slice(alloc, b"the input can't be read\n")?,
            Err(Trouble::Memory) => Vec::from_slice(alloc, b"out of memory\n")?,
        }
    };
    if came.as_slice() == wanted.as_slice() {
        return Ok(None);
    }
    let name = Vec::from_slice(alloc, name)?;
    Ok(Some(Failure {
        name,
        input,
        wanted,
        came,
    }))
}

/// How many cases of a file pass, or the first that doesn't.
pub(crate) fn run_file<S: Subject>(
    alloc: Global,
    text: &[u8],
) -> Result<Result<u64, Failure>, Trouble> {
    let (head, mut rest) = split_line(text);
    let name = head.strip_prefix(b"subject ").ok_or(Trouble::Unread)?;
    let subject = S::named(name).ok_or(Trouble::Unread)?;
    let mut count = 0u64;
    for _ in 0..rest.len() {
        if rest.is_empty() {
            break;
        }
        let (case, behind) = next_case(rest)?;
        if let Some(case) = case {
            let input = unescaped(alloc, case.input)?;
            let mut wanted = unescaped(alloc, case.wanted)?;
            if case.is_line {
                wanted.push(b'\n')?;
            }
            if let Some(failure) = failing(alloc, subject, case.name, input, wanted)? {
                return Ok(Err(failure));
            }
            count = count.wrapping_add(1);
        }
        rest = behind;
    }
    Ok(Ok(count))
}
