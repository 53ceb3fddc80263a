// The lines of an answer that begin as they do and have a fixed number of words, each by itself.
ghost use Rattle.std.specs.Prelude.{◌≡◌, ◌<◌, ◌≤◌, ◌↔◌, ℕ, length, IfOk, IfSome, IfNone, IsTrue, MatchOption};
ghost use Rattle.std.specs.Prelude as std;
ghost use Rattle.schedule_meaning.specs.Limits.{most_cycles};
ghost use Rattle.text_core.specs.Faults.{IsFaultBy};
ghost use Rattle.text_core.specs.Lines.{line_at};
ghost use Rattle.text_core.specs.LineTexts.{SaysNone};
ghost use Rattle.graph_meaning.specs.declared.stops.Stop.{Stop as StopOf};
ghost use Rattle.answer_texts.specs.AnswerLines.{end_words, stop_name};
ghost use Rattle.answer_texts.specs.AnswerParts.{GoTogether, IsBodyLine, IsClaimLine, IsCount, IsCross, IsEncoding, IsGoalName, IsTableLine, IsVersion};
ghost use Rattle.answer_texts.specs.LineParts.{IsBadOrMissingLine};
ghost use Rattle.answer_texts.specs.declared.parts.BodyLine.TheVariants as bodies;
ghost use Rattle.answer_texts.specs.declared.parts.ClaimLine.TheVariants as lines_of;

use crate::parts::{BodyLine, ClaimLine, TableLine};
use graph_meaning::Stop;
use items::NoMemory;
use machine_table::Slot;
use schedule_meaning::MOST_CYCLES;
use std::alloc::Global;
use text_core::{
    Fault, Kind, Name, TextFault, TextLines, begins_with, decimal, has_form, is_name, same,
};

/// The numbers of versions are 1 up to below this one.
const VERSIONS: u64 = 4;

/// The numbers of encodings are 1 up to below this one.
const ENCODINGS: u64 = 5;

/// Numbers on lines are below this one, except words of 64 bits.
pub(crate) const LIMIT: u64 = 1 << 31;

/// The fault of a line, or of the end of the text where the line is the count.
pub(crate) fn bad_line(text: &TextLines<'_>, line: u32) -> TextFault
    requires { line ≤ length text.now }
    ensures { IsFaultBy (IsBadOrMissingLine text.now line) result }
{
    TextFault::Fault(Fault {
        place: text.place(line),
        kind: Kind::BadLine,
    })
}

/// The number that a word writes, below a limit.
pub(crate) fn below(word: &[u8], limit: u64) -> Option<u64>
    ensures some { IfSome result (λ n. (word.now ≡ std.decimal n) × (n < limit)) }
    ensures none { IfNone result ((n : ℕ) → n < limit → word.now ≡ std.decimal n → ⊥) }
{
    let number = decimal(word)?;
    if number < limit { Some(number) } else { None }
}

/// The version of the format.
pub(crate) fn version_line(text: &TextLines<'_>, line: u32) -> Option<u8>
    requires { line < length text.now }
    ensures { MatchOption result (SaysNone IsVersion (line_at text.now line).words)
        (IsVersion (line_at text.now line).words) }
{
    if !has_form(text, line, b"denali", 2) {
        return None;
    }
    let version = below(text.word(line, 1), VERSIONS)?;
    if version == 0 {
        None
    } else {
        Some(version as u8)
    }
}

/// Whether a text of the version may name the encoding.
fn go_together(version: u8, encoding: u64) -> bool
    ensures { IsTrue result ↔ GoTogether version encoding }
{
    match version {
        1 => encoding == 1 || encoding == 2,
        2 => encoding == 3,
        3 => encoding == 4,
        _ => false,
    }
}

/// The encoding of the clauses in a text of the version.
pub(crate) fn encoding_line(text: &TextLines<'_>, line: u32, version: u8) -> Option<u8>
    requires { line < length text.now }
    ensures { MatchOption result (SaysNone (IsEncoding version) (line_at text.now line).words)
        (IsEncoding version (line_at text.now line).words) }
{
    if !has_form(text, line, b"encoding", 2) {
        return None;
    }
    let encoding = below(text.word(line, 1), ENCODINGS)?;
    if go_together(version, encoding) {
        Some(encoding as u8)
    } else {
        None
    }
}

/// Whether the table is the built-in one.
pub(crate) fn table_line(text: &TextLines<'_>, line: u32) -> Option<TableLine>
    requires { line < length text.now }
    ensures { MatchOption result (SaysNone IsTableLine (line_at text.now line).words)
        (IsTableLine (line_at text.now line).words) }
{
    if !has_form(text, line, b"table", 2) {
        return None;
    }
    if same(text.word(line, 1), b"ev6") {
        Some(TableLine::BuiltIn)
    } else if same(text.word(line, 1), b"own") {
        Some(TableLine::Own)
    } else {
        None
    }
}

/// The delay between clusters, behind these slots.
pub(crate) fn cross_line(text: &TextLines<'_>, line: u32, slots: &[Slot]) -> Option<u32>
    requires { line < length text.now }
    ensures { MatchOption result (SaysNone (IsCross slots.now) (line_at text.now line).words)
        (IsCross slots.now (line_at text.now line).words) }
{
    if slots.is_empty() || !has_form(text, line, b"cross", 2) {
        return None;
    }
    let cross = below(text.word(line, 1), 5)?;
    Some(cross as u32)
}

/// The name of a goal.
pub(crate) fn goal_line(
    alloc: Global,
    text: &TextLines<'_>,
    line: u32,
) -> Result<Option<Name>, NoMemory>
    requires { line < length text.now }
    ensures { IfOk result (λ found. MatchOption found (SaysNone IsGoalName (line_at text.now line).words)
        (IsGoalName (line_at text.now line).words)) }
{
    if !has_form(text, line, b"goal", 2) {
        return Ok(None);
    }
    let name = text.word(line, 1);
    if !is_name(name) {
        return Ok(None);
    }
    Ok(Some(Name::new(alloc, name)?))
}

/// Why rounds ended, by its name.
fn stop_of(word: &[u8]) -> Option<Stop>
    ensures { MatchOption result ((stop : StopOf) → word.now ≡ stop_name stop → ⊥)
        (λ stop. word.now ≡ stop_name stop) }
{
    if same(word, b"quiet") {
        Some(Stop::Quiet)
    } else if same(word, b"rounds") {
        Some(Stop::Rounds)
    } else if same(word, b"full") {
        Some(Stop::Full)
    } else {
        None
    }
}

/// The line behind a goal's name.
pub(crate) fn body_line(text: &TextLines<'_>, line: u32) -> Option<BodyLine>
    requires { line < length text.now }
    ensures { MatchOption result (SaysNone IsBodyLine (line_at text.now line).words)
        (IsBodyLine (line_at text.now line).words) }
{
    if has_form(text, line, b"noworld", 4) {
        let class = below(text.word(line, 1), LIMIT)?;
        let a = decimal(text.word(line, 2))?;
        let b = decimal(text.word(line, 3))?;
        return Some(BodyLine::NoWorld {
            class: class as u32,
            a,
            b,
        });
    }
    if !has_form(text, line, b"rounds", 4) || !same(text.word(line, 2), b"stop") {
        return None;
    }
    let rounds = below(text.word(line, 1), LIMIT)?;
    let stop = stop_of(text.word(line, 3))?;
    Some(BodyLine::Rounds {
        rounds: rounds as u32,
        stop,
    })
}

/// A number of cycles that a claim may speak of.
fn cycles(word: &[u8]) -> Option<u32>
    ensures some { IfSome result (λ k. (word.now ≡ std.decimal k) × (k ≤ most_cycles)) }
    ensures none { IfNone result ((k : ℕ) → k ≤ most_cycles → word.now ≡ std.decimal k → ⊥) }
{
    let k = below(word, u64::from(MOST_CYCLES) + 1)?;
    Some(k as u32)
}

/// The line of a budget that was spent.
fn spent_line(text: &TextLines<'_>, line: u32) -> Option<ClaimLine>
    requires { line < length text.now }
    ensures { let words = (line_at text.now line).words in
        MatchOption result
        (((k : ℕ) → IsClaimLine words (lines_of.Conflicts k) → ⊥)
        × ((k vars clauses : ℕ) → IsClaimLine words (lines_of.Size k vars clauses) → ⊥))
        (IsClaimLine words) }
{
    if has_form(text, line, b"spent", 3) {
        if !same(text.word(line, 1), b"conflicts") {
            return None;
        }
        let k = cycles(text.word(line, 2))?;
        return Some(ClaimLine::Conflicts { k });
    }
    if !has_form(text, line, b"spent", 5) || !same(text.word(line, 1), b"size") {
        return None;
    }
    let k = cycles(text.word(line, 2))?;
    let vars = decimal(text.word(line, 3))?;
    let clauses = decimal(text.word(line, 4))?;
    Some(ClaimLine::Size { k, vars, clauses })
}

/// The first line of a claim.
pub(crate) fn claim_line(text: &TextLines<'_>, line: u32) -> Option<ClaimLine>
    requires { line < length text.now }
    ensures { MatchOption result (SaysNone IsClaimLine (line_at text.now line).words)
        (IsClaimLine (line_at text.now line).words) }
{
    if has_form(text, line, b"scheduled", 2) {
        let k = cycles(text.word(line, 1))?;
        Some(ClaimLine::Scheduled { k })
    } else if has_form(text, line, b"none", 2) {
        let k = cycles(text.word(line, 1))?;
        Some(ClaimLine::Missing { k })
    } else {
        spent_line(text, line)
    }
}

/// The number of lines that a line tells which begins with this word and names this number of cycles.
pub(crate) fn count_line(text: &TextLines<'_>, line: u32, first: &[u8], k: u32) -> Option<u32>
    requires { line < length text.now }
    ensures { MatchOption result (SaysNone (IsCount first.now k) (line_at text.now line).words)
        (IsCount first.now k (line_at text.now line).words) }
{
    if !has_form(text, line, first, 3) {
        return None;
    }
    let cycles = decimal(text.word(line, 1))?;
    if cycles != u64::from(k) {
        return None;
    }
    let count = below(text.word(line, 2), LIMIT)?;
    Some(count as u32)
}
