// Pieces of lines, put behind a text.
ghost use Rattle.std.specs.Prelude.{◌≡◌, ◌++◌, ◌∷◌, [], OnOk, length, map, decimal};
ghost use Rattle.text_core.specs.LineTexts.{line_text, lines_text};
ghost use Rattle.refutation_check.specs.LineWords.{line_words};

use cnf_core::Lines;
use items::NoMemory;
use std::alloc::Global;
use text_core::{put, put_number, put_word};

/// A line of two words.
pub(crate) fn put_pair(text: &mut Vec<u8>, word: &[u8], other: &[u8]) -> Result<(), NoMemory>
    ensures { OnOk result (text.new.items ≡ text.old.items ++ line_text (word.now ∷ other.now ∷ [])) }
{
    put(text, word)?;
    put_word(text, other)?;
    put(text, b"\n")
}

/// Appends a line with the number of cycles and of lines, and then the lines of a refutation or of lemmas.
pub(crate) fn put_lines(
    alloc: Global,
    text: &mut Vec<u8>,
    word: &[u8],
    cycles: u32,
    lines: &Lines,
) -> Result<(), NoMemory>
    ensures { OnOk result (text.new.items ≡ text.old.items ++ lines_text
        ((word.now ∷ decimal cycles ∷ decimal (length lines.now.lines) ∷ []) ∷ map line_words lines.now.lines)) }
{
    put(text, word)?;
    put_number(text, u64::from(cycles))?;
    put_number(text, lines.lines.len() as u64)?;
    put(text, b"\n")?;
    put(text, &refutation_check::print(alloc, lines)?)
}
