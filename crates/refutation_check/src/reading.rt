// Lines of a text as lines of a refutation.
ghost use Rattle.std.specs.Prelude.{◌≡◌, ◌+◌, ◌<◌, ◌≤◌, List, length, decimal, IfOk, IfErr, MatchOption};
ghost use Rattle.cnf_core.specs.declared.line.Line.{Line as Row};
ghost use Rattle.text_core.specs.Lines.{line_at};
ghost use Rattle.refutation_check.specs.LineWords.{IsId, IsIdLiteral, IsLineOf, AreLinesAt, IsReadFault, IsBadLineAt, literal_word, IsRun, IsNoRun};

use crate::words::{id, is_zero, literal, number};
use cnf_core::{Line, Lines, Lit};
use items::{Items, NoMemory};
use std::alloc::Global;
use text_core::{Fault, Kind, TextFault, TextLines};

/// Reads `count` lines from the line `from` on. A line that isn't of this form is a fault at its first byte, and a
/// missing line is one at the end of the text.
pub fn read(alloc: Global, text: &TextLines<'_>, from: u32, count: u32) -> Result<Lines, TextFault>
    requires { from ≤ length text.now }
    ensures ok { IfOk result (λ read. AreLinesAt text.now from count read.lines) }
    ensures only { IfOk result (λ read. (others : List Row)
        → AreLinesAt text.now from count others → others ≡ read.lines) }
    ensures fault { IfErr result (IsReadFault text.now from count) }
{
    let last = text.count();
    let mut lines = Items::new(alloc);
    for done in 0..count {
        let line = from + done;
        if line == last {
            return Err(bad_line(text, line));
        }
        match read_line(alloc, text, line)? {
            Some(read) => lines.push(read)?,
            None => return Err(bad_line(text, line)),
        }
    }
    Ok(Lines { lines })
}

fn bad_line(text: &TextLines<'_>, line: u32) -> TextFault
    requires { line ≤ length text.now }
    ensures { IsBadLineAt text.now line result }
{
    TextFault::Fault(Fault {
        place: text.place(line),
        kind: Kind::BadLine,
    })
}

/// The literals from a word on, and the place after the zero that ends them; `None` where the words aren't literals up
/// to a zero.
fn literals(
    alloc: Global,
    text: &TextLines<'_>,
    line: u32,
    from: u32,
) -> Result<Option<(Items<Lit>, u32)>, NoMemory>
    requires { line < length text.now }
    ensures { IfOk result (λ found. MatchOption found
        (IsNoRun literal_word IsIdLiteral (line_at text.now line).words from)
        (λ p. IsRun literal_word IsIdLiteral (line_at text.now line).words from p.0 p.1)) }
{
    let mut lits = Items::new(alloc);
    for at in from..text.words(line) {
        let word = text.word(line, at);
        if is_zero(word) {
            return Ok(Some((lits, at + 1)));
        }
        match literal(word) {
            Some(lit) => lits.push(lit)?,
            None => return Ok(None),
        }
    }
    Ok(None)
}

/// The same of hints.
fn hints(
    alloc: Global,
    text: &TextLines<'_>,
    line: u32,
    from: u32,
) -> Result<Option<(Items<u32>, u32)>, NoMemory>
    requires { line < length text.now }
    ensures { IfOk result (λ found. MatchOption found
        (IsNoRun decimal IsId (line_at text.now line).words from)
        (λ p. IsRun decimal IsId (line_at text.now line).words from p.0 p.1)) }
{
    let mut ids = Items::new(alloc);
    for at in from..text.words(line) {
        let word = text.word(line, at);
        if is_zero(word) {
            return Ok(Some((ids, at + 1)));
        }
        match id(word) {
            Some(hint) => ids.push(hint)?,
            None => return Ok(None),
        }
    }
    Ok(None)
}

/// The line of a refutation that the words of a line of the text are, if they are one.
fn read_line(alloc: Global, text: &TextLines<'_>, line: u32) -> Result<Option<Line>, NoMemory>
    requires { line < length text.now }
    ensures { IfOk result (λ found. MatchOption found
        ((l : Row) → IsLineOf (line_at text.now line).words l → ⊥)
        (IsLineOf (line_at text.now line).words)) }
{
    if text.words(line) == 0 {
        return Ok(None);
    }
    let Some(id) = number(text.word(line, 0)) else {
        return Ok(None);
    };
    let Some((lits, after)) = literals(alloc, text, line, 1)? else {
        return Ok(None);
    };
    let Some((hints, end)) = hints(alloc, text, line, after)? else {
        return Ok(None);
    };
    if end < text.words(line) {
        return Ok(None);
    }
    Ok(Some(Line { id, lits, hints }))
}
