// The lines behind an answer, each by itself.
ghost use Rattle.std.specs.Prelude.{◌≡◌, ◌<◌, ◌≤◌, ◌^◌, ℕ, length, IfSome, IfNone, MatchOption};
ghost use Rattle.std.specs.Prelude as std;
ghost use Rattle.text_core.specs.Faults.{IsFaultBy};
ghost use Rattle.text_core.specs.Lines.{line_at};
ghost use Rattle.text_core.specs.LineTexts.{SaysNone};
ghost use Rattle.answer_texts.specs.LineParts.{IsBadOrMissingLine};
ghost use Rattle.least_launch.specs.TailParts.{IsTailLine};
ghost use Rattle.least_launch.specs.TailedAnswers.{HasNoTail, IsTailAt};
ghost use Rattle.least_launch.specs.declared.tails.TailLine.TheVariants as lines_of;

use crate::tails::TailLine;
use text_core::{Fault, Kind, TextFault, TextLines, decimal, has_form, same};

/// Numbers on lines are below this one, except counts of variables and clauses.
const LIMIT: u64 = 1 << 31;

/// The fault of a line, or of the end of the text where the line is the count.
pub(crate) fn bad_line(text: &TextLines<'_>, line: u32) -> TextFault
    requires { line ≤ length text.now }
    ensures { IsFaultBy (IsBadOrMissingLine text.now line) result }
{
    TextFault::Fault(Fault {
        place: text.place(line),
        kind: Kind::BadLine,
    })
}

/// The first line that is `tail`.
pub(crate) fn tail_line(text: &TextLines<'_>) -> Option<u32>
    ensures found { MatchOption result (HasNoTail text.now) (IsTailAt text.now) }
    ensures few { IfSome result (λ line. line < 2 ^ 29) }
{
    for line in 0..text.count() {
        if has_form(text, line, b"tail", 1) {
            return Some(line);
        }
    }
    None
}

/// The number that a word writes, below the limit of lines.
fn small(word: &[u8]) -> Option<u32>
    ensures some { IfSome result (λ n. (word.now ≡ std.decimal n) × (n < 2 ^ 31)) }
    ensures none { IfNone result ((n : ℕ) → n < 2 ^ 31 → word.now ≡ std.decimal n → ⊥) }
{
    let number = decimal(word)?;
    if number < LIMIT {
        Some(number as u32)
    } else {
        None
    }
}

/// The number of some launches that a word writes.
fn some_launches(word: &[u8]) -> Option<u32>
    ensures some { IfSome result (λ n. (word.now ≡ std.decimal n) × (1 ≤ n) × (n < 2 ^ 31)) }
    ensures none { IfNone result ((n : ℕ) → 1 ≤ n → n < 2 ^ 31 → word.now ≡ std.decimal n → ⊥) }
{
    let number = small(word)?;
    if number == 0 { None } else { Some(number) }
}

/// The line of a schedule with the fewest launches. Without launches there are no lines behind it.
fn least_line(text: &TextLines<'_>, line: u32) -> Option<TailLine>
    requires { line < length text.now }
    ensures { let words = (line_at text.now line).words in
        MatchOption result ((launches count : ℕ) → ¬ IsTailLine words (lines_of.Least launches count))
        (IsTailLine words) }
{
    if !has_form(text, line, b"least", 3) {
        return None;
    }
    let launches = small(text.word(line, 1))?;
    let count = small(text.word(line, 2))?;
    if launches == 0 {
        if count != 0 {
            return None;
        }
    }
    Some(TailLine::Least { launches, count })
}

/// The line of a schedule for which a budget was spent on fewer launches.
fn spent_line(text: &TextLines<'_>, line: u32) -> Option<TailLine>
    requires { line < length text.now }
    ensures { let words = (line_at text.now line).words in
        MatchOption result ((launches count : ℕ) → ¬ IsTailLine words (lines_of.Spent launches count))
        (IsTailLine words) }
{
    if !has_form(text, line, b"most", 4) || !same(text.word(line, 2), b"spent") {
        return None;
    }
    let launches = some_launches(text.word(line, 1))?;
    let count = small(text.word(line, 3))?;
    Some(TailLine::Spent { launches, count })
}

/// The line of a schedule for which the clauses for fewer launches are too large.
fn size_line(text: &TextLines<'_>, line: u32) -> Option<TailLine>
    requires { line < length text.now }
    ensures { let words = (line_at text.now line).words in
        MatchOption result ((launches vars clauses : ℕ) → ¬ IsTailLine words (lines_of.Size launches vars clauses))
        (IsTailLine words) }
{
    if !has_form(text, line, b"most", 5) || !same(text.word(line, 2), b"size") {
        return None;
    }
    let launches = some_launches(text.word(line, 1))?;
    let vars = decimal(text.word(line, 3))?;
    let clauses = decimal(text.word(line, 4))?;
    Some(TailLine::Size {
        launches,
        vars,
        clauses,
    })
}

/// The first line of what is said of a schedule.
pub(crate) fn said_line(text: &TextLines<'_>, line: u32) -> Option<TailLine>
    requires { line < length text.now }
    ensures { MatchOption result (SaysNone IsTailLine (line_at text.now line).words)
        (IsTailLine (line_at text.now line).words) }
{
    if let Some(found) = least_line(text, line) {
        return Some(found);
    }
    if let Some(found) = spent_line(text, line) {
        return Some(found);
    }
    size_line(text, line)
}
