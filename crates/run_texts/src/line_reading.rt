// The lines of a program's text, each by itself.
ghost use Rattle.std.specs.Prelude.{◌≡◌, ◌<◌, ◌^◌, ℕ, length, IfSome, IfNone, MatchOption};
ghost use Rattle.std.specs.Prelude as std;
ghost use Rattle.std.specs.Str.Parse.{digits_value};
ghost use Rattle.text_core.specs.Lines.{line_at};
ghost use Rattle.text_core.specs.LineTexts.{words_of_lines, SaysNone};
ghost use Rattle.run_texts.specs.RunTexts.{IsHexWord};
ghost use Rattle.run_texts.specs.RunFaults.{word_count};
ghost use Rattle.run_texts.specs.LineReading.{IsWordLine, IsRegisterLine, IsPlaceLine};

use crate::texts::{PlaceWord, RegisterWord};
use text_core::{TextLines, begins_with, decimal, has_form};

/// How many registers a text may name: 0 to 30.
const REGISTERS: u64 = 31;

/// How many lines at the front begin with `word`.
pub(crate) fn word_lines(text: &TextLines<'_>) -> u32
    ensures count { result ≡ word_count (words_of_lines text.now) }
    ensures few { result < 2 ^ 29 }
{
    for line in 0..text.count() {
        if !begins_with(text, line, b"word") {
            return line;
        }
    }
    text.count()
}

/// The value of eight hexadecimal digits of either case.
fn hex_word(digits: &[u8]) -> Option<u32>
    ensures { MatchOption result (IsHexWord digits.now → ⊥)
        (λ word. IsHexWord digits.now × (word ≡ digits_value 16 digits.now)) }
{
    if digits.len() != 8 {
        return None;
    }
    let mut word = 0u64;
    for byte in digits {
        let digit = char::from(*byte).to_digit(16)?;
        word = word * 16 + u64::from(digit);
    }
    Some(word as u32)
}

/// The word of a line.
pub(crate) fn word_line(text: &TextLines<'_>, line: u32) -> Option<u32>
    requires { line < length text.now }
    ensures { MatchOption result (SaysNone IsWordLine (line_at text.now line).words)
        (IsWordLine (line_at text.now line).words) }
{
    if !has_form(text, line, b"word", 2) {
        return None;
    }
    hex_word(text.word(line, 1))
}

/// The number of a register, 0 to 30.
fn register(word: &[u8]) -> Option<u8>
    ensures some { IfSome result (λ n. (word.now ≡ std.decimal n) × (n < 31)) }
    ensures none { IfNone result ((n : ℕ) → n < 31 → word.now ≡ std.decimal n → ⊥) }
{
    let number = decimal(word)?;
    if number < REGISTERS {
        Some(number as u8)
    } else {
        None
    }
}

/// A register and its word.
pub(crate) fn register_line(text: &TextLines<'_>, line: u32) -> Option<RegisterWord>
    requires { line < length text.now }
    ensures { MatchOption result (SaysNone IsRegisterLine (line_at text.now line).words)
        (IsRegisterLine (line_at text.now line).words) }
{
    if !has_form(text, line, b"reg", 3) {
        return None;
    }
    let Some(register) = register(text.word(line, 1)) else {
        return None;
    };
    let Some(word) = decimal(text.word(line, 2)) else {
        return None;
    };
    Some(RegisterWord { register, word })
}

/// An address and the word of its place.
pub(crate) fn place_line(text: &TextLines<'_>, line: u32) -> Option<PlaceWord>
    requires { line < length text.now }
    ensures { MatchOption result (SaysNone IsPlaceLine (line_at text.now line).words)
        (IsPlaceLine (line_at text.now line).words) }
{
    if !has_form(text, line, b"mem", 3) {
        return None;
    }
    let Some(address) = decimal(text.word(line, 1)) else {
        return None;
    };
    let Some(word) = decimal(text.word(line, 2)) else {
        return None;
    };
    Some(PlaceWord { address, word })
}
