// An answer read from its text.
ghost use Rattle.std.specs.Prelude.{◌≡◌, ◌≤◌, ◌+◌, ◌<◌, ◌^◌, ◌⊎◌, ℕ, length, IfOk, IfErr, Ok, Err};
ghost use Rattle.text_core.specs.Faults.{IsFaultBy};
ghost use Rattle.text_core.specs.declared.faults.Kind.{Kind as KindOf};
ghost use Rattle.text_core.specs.declared.faults.TextFault.TheVariants as faults;
ghost use Rattle.answer_texts.specs.AnswerParts.{AnswerPart, AnswerPartFault, IsEncoding, IsVersion};
ghost use Rattle.answer_texts.specs.LineParts.{IsOneLine, IsNoLine};
ghost use Rattle.answer_texts.specs.ReadAnswers.{IsAnswerFault, ReadsAnswer};
ghost use Rattle.answer_texts.specs.declared.answers.AnswerText.{AnswerText as Answer};

use crate::answers::AnswerText;
use crate::goal_reading::read_goals;
use crate::laws::one_answer;
use crate::library_lines::read_library;
use crate::line_reading::{bad_line, encoding_line, version_line};
use crate::table_reading::read_table;
use std::alloc::Global;
use text_core::{TextFault, TextLines, lines};

/// The version that the line tells.
fn read_version(text: &TextLines<'_>, from: u32) -> Result<u8, TextFault>
    requires { from ≤ length text.now }
    ensures ok { IfOk result (IsOneLine IsVersion text.now from (from + 1)) }
    ensures fault { IfErr result (IsFaultBy (IsNoLine IsVersion text.now from)) }
{
    if from == text.count() {
        return Err(bad_line(text, from));
    }
    match version_line(text, from) {
        Some(version) => Ok(version),
        None => Err(bad_line(text, from)),
    }
}

/// The encoding that the line tells in a text of the version.
fn read_encoding(text: &TextLines<'_>, from: u32, version: u8) -> Result<u8, TextFault>
    requires { from ≤ length text.now }
    ensures ok { IfOk result (IsOneLine (IsEncoding version) text.now from (from + 1)) }
    ensures fault { IfErr result (IsFaultBy (IsNoLine (IsEncoding version) text.now from)) }
{
    if from == text.count() {
        return Err(bad_line(text, from));
    }
    match encoding_line(text, from, version) {
        Some(encoding) => Ok(encoding),
        None => Err(bad_line(text, from)),
    }
}

/// The answer that the lines of a text say.
fn answer_in(alloc: Global, text: &TextLines<'_>) -> Result<AnswerText, TextFault>
    ensures ok { IfOk result (AnswerPart text.now 0 (length text.now)) }
    ensures fault { IfErr result (IsFaultBy (AnswerPartFault text.now 0)) }
{
    let version = read_version(text, 0)?;
    let encoding = read_encoding(text, 1, version)?;
    let (table, builtin, behind_table) = read_table(alloc, text, 2)?;
    let (library, middle) = read_library(alloc, text, behind_table)?;
    let goals = read_goals(alloc, text, version, &table, middle)?;
    Ok(AnswerText {
        version,
        encoding,
        table,
        builtin,
        library,
        goals,
    })
}

/// The answer that a text says.
fn answer(alloc: Global, text: &[u8]) -> Result<AnswerText, TextFault>
    requires { length text.now < 2 ^ 29 }
    ensures answer { IfOk result (ReadsAnswer text.now) }
    ensures fault { IfErr result (IsFaultBy (IsAnswerFault text.now)) }
{
    let text = lines(alloc, text)?;
    answer_in(alloc, &text)
}

/// Reads the text of an answer in version 1, 2 or 3. In versions 2 and 3 targets may have pins, and a launch may go to one of
/// them. A fault is the text's first: BadByte, BadLine, BadRow or BadClass. The cost is linear in the length of the text,
/// beside the cost of reading its graphs, and for each launch to a pin that of looking at the targets of its goal.
pub fn read_answer(alloc: Global, text: &[u8]) -> Result<AnswerText, TextFault>
    requires { length text.now < 2 ^ 29 }

    // What is read is what the text says, and what the text says is read.
    ensures answer { IfOk result (ReadsAnswer text.now) }
    ensures read { (answer : Answer) → ReadsAnswer text.now answer
        → (result ≡ Ok answer) ⊎ (result ≡ Err faults.Memory) }

    // A fault is the first one, and where there is one it is answered.
    ensures fault { IfErr result (IsFaultBy (IsAnswerFault text.now)) }
    ensures refused { (place : ℕ) (kind : KindOf) → IsAnswerFault text.now place kind
        → (result ≡ Err (faults.Fault (record { place = place; kind = kind }))) ⊎ (result ≡ Err faults.Memory) }
{
    one_answer();
    answer(alloc, text)
}
