// The lines of a graph that are no rows, each by itself.
ghost use Rattle.std.specs.Prelude.{◌<◌, length, IfOk, MatchOption};
ghost use Rattle.text_core.specs.Lines.{line_at};
ghost use Rattle.text_core.specs.LineTexts.{SaysNone};
ghost use Rattle.launch_graph.specs.LineReading.{IsHeaderLine, IsEntryLine, IsInputLine, IsPoolLine, IsGuardLine, IsPinnedSet, IsPlainSet, IsSetLine};

use crate::row_reading::below;
use graph_meaning::{Guard, InputClass, SetClass};
use items::{Items, NoMemory};
use std::alloc::Global;
use text_core::{Name, TextLines, begins_with, has_form, is_name, same};

/// The most rows that a text of a graph may have.
const MOST_ROWS: u32 = 1_000_000;

/// The number of rows that a header tells.
pub(crate) fn header_line(text: &TextLines<'_>, line: u32) -> Option<u32>
    requires { line < length text.now }
    ensures { MatchOption result (SaysNone IsHeaderLine (line_at text.now line).words)
        (IsHeaderLine (line_at text.now line).words) }
{
    if !has_form(text, line, b"rows", 2) {
        return None;
    }
    below(text.word(line, 1), MOST_ROWS + 1)
}

/// The class of the memory at entry.
pub(crate) fn entry_line(text: &TextLines<'_>, line: u32) -> Option<u32>
    requires { line < length text.now }
    ensures { MatchOption result (SaysNone IsEntryLine (line_at text.now line).words)
        (IsEntryLine (line_at text.now line).words) }
{
    if !has_form(text, line, b"entry", 2) {
        return None;
    }
    below(text.word(line, 1), 1 << 31)
}

/// The input of a line.
pub(crate) fn input_line(
    alloc: Global,
    text: &TextLines<'_>,
    line: u32,
) -> Result<Option<InputClass>, NoMemory>
    requires { line < length text.now }
    ensures { IfOk result (λ found. MatchOption found (SaysNone IsInputLine (line_at text.now line).words)
        (IsInputLine (line_at text.now line).words)) }
{
    if !has_form(text, line, b"in", 4) {
        return Ok(None);
    }
    let name = text.word(line, 1);
    if !is_name(name) {
        return Ok(None);
    }
    let Some(register) = below(text.word(line, 2), 31) else {
        return Ok(None);
    };
    let Some(class) = below(text.word(line, 3), 1 << 31) else {
        return Ok(None);
    };
    Ok(Some(InputClass {
        name: Name::new(alloc, name)?,
        reg: register as u8,
        class,
    }))
}

/// The registers of the pool.
pub(crate) fn pool_line(
    alloc: Global,
    text: &TextLines<'_>,
    line: u32,
) -> Result<Option<Items<u8>>, NoMemory>
    requires { line < length text.now }
    ensures { IfOk result (λ found. MatchOption found (SaysNone IsPoolLine (line_at text.now line).words)
        (IsPoolLine (line_at text.now line).words)) }
{
    if !begins_with(text, line, b"pool") {
        return Ok(None);
    }
    let mut pool = Items::new(alloc);
    for at in 1..text.words(line) {
        match below(text.word(line, at), 31) {
            Some(register) => pool.push(register as u8)?,
            None => return Ok(None),
        }
    }
    Ok(Some(pool))
}

/// The guard of a line.
pub(crate) fn guard_line(text: &TextLines<'_>, line: u32) -> Option<Guard>
    requires { line < length text.now }
    ensures { MatchOption result (SaysNone IsGuardLine (line_at text.now line).words)
        (IsGuardLine (line_at text.now line).words) }
{
    if !has_form(text, line, b"guard", 3) {
        return None;
    }
    let Some(class) = below(text.word(line, 1), 1 << 31) else {
        return None;
    };
    let word = text.word(line, 2);
    if same(word, b"held") {
        Some(Guard { class, held: true })
    } else if same(word, b"free") {
        Some(Guard { class, held: false })
    } else {
        None
    }
}

/// The target of a line that tells no pin.
fn plain_set_line(
    alloc: Global,
    text: &TextLines<'_>,
    line: u32,
) -> Result<Option<SetClass>, NoMemory>
    requires { line < length text.now }
    ensures { IfOk result (λ found. MatchOption found (SaysNone IsPlainSet (line_at text.now line).words)
        (IsPlainSet (line_at text.now line).words)) }
{
    if !has_form(text, line, b"set", 3) {
        return Ok(None);
    }
    let name = text.word(line, 1);
    if !is_name(name) {
        return Ok(None);
    }
    let Some(class) = below(text.word(line, 2), 1 << 31) else {
        return Ok(None);
    };
    Ok(Some(SetClass {
        name: Name::new(alloc, name)?,
        class,
        pin: None,
    }))
}

/// The target of a line that tells its pin, which the memory doesn't have.
fn pinned_set_line(
    alloc: Global,
    text: &TextLines<'_>,
    line: u32,
) -> Result<Option<SetClass>, NoMemory>
    requires { line < length text.now }
    ensures { IfOk result (λ found. MatchOption found (SaysNone IsPinnedSet (line_at text.now line).words)
        (IsPinnedSet (line_at text.now line).words)) }
{
    if !has_form(text, line, b"set", 4) {
        return Ok(None);
    }
    let name = text.word(line, 1);
    if !is_name(name) || name == b"M".as_slice() {
        return Ok(None);
    }
    let Some(class) = below(text.word(line, 2), 1 << 31) else {
        return Ok(None);
    };
    let Some(register) = below(text.word(line, 3), 31) else {
        return Ok(None);
    };
    Ok(Some(SetClass {
        name: Name::new(alloc, name)?,
        class,
        pin: Some(register as u8),
    }))
}

/// The target of a line. There are pins from version 2 on.
pub(crate) fn set_line(
    alloc: Global,
    version: u8,
    text: &TextLines<'_>,
    line: u32,
) -> Result<Option<SetClass>, NoMemory>
    requires { line < length text.now }
    ensures { IfOk result (λ found. MatchOption found (SaysNone (IsSetLine version) (line_at text.now line).words)
        (IsSetLine version (line_at text.now line).words)) }
{
    if version >= 2 && text.words(line) == 4 {
        return pinned_set_line(alloc, text, line);
    }
    plain_set_line(alloc, text, line)
}
