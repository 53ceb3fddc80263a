// How cases are written.
//
// Behind the line of the subject a file has blocks or lines. A block is
//
//     == NAME
//     INPUT
//     --
//     WANTED
//
// where the input ends before the line feed in front of `--`, and what is wanted before the line feed in front of the
// next block or of the end: an empty line there means that it ends with a line feed. A line `INPUT => WANTED` is a case
// too, whose wanted answer has one line. In a case `\` and two hexadecimal digits stand for a byte. Empty lines between
// cases, and lines there that begin with `#`, say nothing.
use crate::reading::{hexadecimal, split_before, split_line};
use crate::reports::Trouble;
use std::alloc::Global;

/// A case as it is written.
#[derive(Clone, Copy)]
pub(crate) struct Written<'a> {
    pub(crate) name: &'a [u8],
    pub(crate) input: &'a [u8],
    pub(crate) wanted: &'a [u8],
    /// Whether what is wanted has a line feed that isn't written.
    pub(crate) is_line: bool,
}

/// The text without its last line feed.
fn without_feed(text: &[u8]) -> &[u8] {
    text.strip_suffix(b"\n").unwrap_or(text)
}

/// What one line begins: a case and what stands behind it, or nothing.
pub(crate) fn next_case<'a>(text: &'a [u8]) -> Result<(Option<Written<'a>>, &'a [u8]), Trouble> {
    let (line, rest) = split_line(text);
    if let Some(name) = line.strip_prefix(b"== ") {
        let (input, rest) = split_before(rest, b"--\n");
        let (wanted, behind) = split_before(split_line(rest).1, b"== ");
        let written = Written {
            name,
            input: without_feed(input),
            wanted: without_feed(wanted),
            is_line: false,
        };
        return Ok((Some(written), behind));
    }
    if line.is_empty() || line.starts_with(b"#") {
        return Ok((None, rest));
    }
    let arrow = line.windows(4).position(|part| part == b" => ".as_slice());
    let at = arrow.ok_or(Trouble::Unread)?;
    let (Some(input), Some(wanted)) = (line.get(..at), line.get(at + 4..)) else {
        return Err(Trouble::Unread);
    };
    let written = Written {
        name: input,
        input,
        wanted,
        is_line: true,
    };
    Ok((Some(written), rest))
}

/// A text in which each `\` with two digits is the byte that they mean.
pub(crate) fn unescaped(alloc: Global, text: &[u8]) -> Result<Vec<u8>, Trouble> {
    let mut bytes = Vec::new(alloc);
    let mut skipped = 0u8;
    for at in 0..text.len() {
        if skipped > 0 {
            skipped -= 1;
        } else if text[at] == b'\\' {
            let digits = text[at + 1..].get(..2).ok_or(Trouble::Unread)?;
            let byte = hexadecimal(digits).ok_or(Trouble::Unread)?;
            bytes.push((byte % 256) as u8)?;
            skipped = 2;
        } else {
            bytes.push(text[at])?;
        }
    }
    Ok(bytes)
}
