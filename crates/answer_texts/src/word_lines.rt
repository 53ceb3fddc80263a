// The line of a word of the machine: its hexadecimal digits, and the text of its instruction.
ghost use Rattle.std.specs.Prelude.{◌≡◌, ◌<◌, ◌^◌, ◌∷◌, [], ◌↔◌, ◌++◌, ℕ, List, length, drop, IfOk, IfSome, IfNone, IsTrue, MatchOption};
ghost use Rattle.alpha_encode.specs.Formats.{IsWellFormed};
ghost use Rattle.text_core.specs.Lines.{line_at};
ghost use Rattle.answer_texts.specs.AnswerLines.{hex_digit, hex_text, instr_words, word_words};
ghost use Rattle.answer_texts.specs.AnswerParts.{AreCodes};

use alpha_encode::{Instr, decode};
use items::NoMemory;
use std::alloc::Global;
use text_core::{TextLines, begins_with, one_splitting, printed_lines_are_lines};
use word_ops::operators_are_listed;

/// The value of an upper-case hexadecimal digit.
fn hex_value(byte: u8) -> Option<u32>
    ensures some { IfSome result (λ n. (byte ≡ hex_digit n) × (n < 16)) }
    ensures none { IfNone result ((n : ℕ) → n < 16 → byte ≡ hex_digit n → ⊥) }
{
    match byte {
        b'0'..=b'9' => Some(u32::from(byte - b'0')),
        b'A'..=b'F' => Some(u32::from(byte - b'A') + 10),
        _ => None,
    }
}

/// The value of eight upper-case hexadecimal digits.
fn hex_word(digits: &[u8]) -> Option<u32>
    ensures { MatchOption result ((word : ℕ) → word < 2 ^ 32 → digits.now ≡ hex_text word → ⊥)
        (λ word. (word < 2 ^ 32) × (digits.now ≡ hex_text word)) }
{
    if digits.len() != 8 {
        return None;
    }
    let mut word = 0u64;
    for byte in digits {
        let digit = hex_value(*byte)?;
        word = word * 16 + u64::from(digit);
    }
    Some(word as u32)
}

/// What stands behind the front of some bytes.
fn behind<'a>(bytes: &'a [u8], front: &[u8]) -> Option<&'a [u8]>
    ensures { MatchOption result ((rest : List ℕ) → bytes.now ≡ front.now ++ rest → ⊥)
        (λ rest. bytes.now ≡ front.now ++ rest.now) }
{
    bytes.strip_prefix(front)
}

/// Whether the words of a line from the third on are the text of an instruction.
fn has_text(alloc: Global, text: &TextLines<'_>, line: u32, instr: Instr) -> Result<bool, NoMemory>
    requires line { line < length text.now }
    requires instr { IsWellFormed instr }
    ensures { IfOk result (λ has. IsTrue has ↔ (drop 2 (line_at text.now line).words ≡ instr_words instr)) }
{
    one_splitting();
    operators_are_listed();
    printed_lines_are_lines();
    let mut printed = Vec::from_slice(alloc, b" ")?;
    printed.extend_from_slice(alpha_encode::text(alloc, instr)?.as_slice())?;
    let mut rest = printed.as_slice();
    for at in 2..text.words(line) {
        let Some(word) = behind(rest, b" ") else {
            return Ok(false);
        };
        let Some(next) = behind(word, text.word(line, at)) else {
            return Ok(false);
        };
        rest = next;
    }
    Ok(rest.is_empty())
}

/// The word of a line, where the text behind it is that of its instruction.
pub(crate) fn word_line(
    alloc: Global,
    text: &TextLines<'_>,
    line: u32,
) -> Result<Option<u32>, NoMemory>
    requires { line < length text.now }
    ensures { IfOk result (λ found. MatchOption found
        ((word : ℕ) → (line_at text.now line).words ≡ word_words word → AreCodes (word ∷ []) → ⊥)
        (λ word. ((line_at text.now line).words ≡ word_words word) × AreCodes (word ∷ []))) }
{
    if text.words(line) < 3 || !begins_with(text, line, b"word") {
        return Ok(None);
    }
    let Some(word) = hex_word(text.word(line, 1)) else {
        return Ok(None);
    };
    let Some(instr) = decode(word) else {
        return Ok(None);
    };
    if has_text(alloc, text, line, instr)? {
        Ok(Some(word))
    } else {
        Ok(None)
    }
}
