// What form a line has.
ghost use Rattle.std.specs.Prelude.{◌≡◌, ◌<◌, ◌↔◌, length, IsTrue};
ghost use Rattle.text_core.specs.Lines.{line_at, line_word};

use crate::line_index::TextLines;

/// Whether two words are the same bytes.
pub fn same(word: &[u8], other: &[u8]) -> bool
    ensures { IsTrue result ↔ (word.now ≡ other.now) }
{
    word == other
}

/// Whether a line begins with this word.
pub fn begins_with(text: &TextLines<'_>, line: u32, first: &[u8]) -> bool
    requires { line < length text.now }
    ensures { IsTrue result ↔ (line_word text.now line 0 ≡ first.now) }
{
    text.words(line) > 0 && same(text.word(line, 0), first)
}

/// Whether a line has this number of words, and this one first.
pub fn has_form(text: &TextLines<'_>, line: u32, first: &[u8], count: u32) -> bool
    requires { line < length text.now }
    ensures { IsTrue result
        ↔ ((length (line_at text.now line).words ≡ count) × (line_word text.now line 0 ≡ first.now)) }
{
    text.words(line) == count && begins_with(text, line, first)
}
