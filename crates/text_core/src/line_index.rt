// The lines and the words of a text, by their numbers.
ghost use Rattle.std.specs.Prelude.{◌≡◌, ◌<◌, ◌≤◌, ◌^◌, length};
ghost use Rattle.text_core.specs.Lines.{IsLineWord, line_at, line_word, text_length};
ghost use Rattle.text_core.specs.LineIndex.{IsIndex, lines_in};

use std::marker::Model;

/// A text of lines of words, in which each line and each word is found in constant time. It borrows the text, and keeps
/// four bytes for each line and each word.
#[derive(Drop)]
pub struct TextLines<'a> {
    text: &'a [u8],
    // The place of each word of the text, and the text's length.
    words: Vec<u32>,
    // For each line, which of the words is its first, and how many words there are.
    firsts: Vec<u32>,
}

impl<'a> Model for TextLines<'a> {
    ghost use Rattle.std.specs.Prelude.{List};
    ghost use Rattle.text_core.specs.Lines.{Line};

    ghost Value = { List Line };

    ghost use Rattle.text_core.specs.LineIndex.{IsIndex, lines_in};

    ghost view = { λ a. lines_in a.text.now };

    ghost invariant = { λ a. IsIndex a.text.now (lines_in a.text.now) a.words.items a.firsts.items };
}

impl<'a> TextLines<'a> {
    pub(crate) fn new(text: &'a [u8], words: Vec<u32>, firsts: Vec<u32>) -> TextLines<'a>
        requires { IsIndex text.now (lines_in text.now) words.items firsts.items }
        ensures { result ≡ lines_in text.now }
    {
        TextLines {
            text,
            words,
            firsts,
        }
    }

    /// The number of lines.
    pub fn count(&self) -> u32
        ensures count { result ≡ length self.now }
        ensures few { result < 2 ^ 29 }
    {
        self.firsts.len() as u32 - 1
    }

    /// The offset of a line's first byte, or the text's length where the line is the number of lines.
    pub fn place(&self, line: u32) -> u32
        requires { line ≤ length self.now }
        ensures line { line < length self.now → result ≡ (line_at self.now line).place }
        ensures end { line ≡ length self.now → result ≡ text_length self.now }
        ensures small { result < 2 ^ 29 }
    {
        self.words[self.firsts[line as usize] as usize]
    }

    /// How many words a line has.
    pub fn words(&self, line: u32) -> u32
        requires { line < length self.now }
        ensures count { result ≡ length (line_at self.now line).words }
        ensures some { 0 < result }
        ensures few { result < 2 ^ 29 }
    {
        self.firsts[line as usize + 1] - self.firsts[line as usize]
    }

    /// A word of a line.
    pub fn word(&self, line: u32, at: u32) -> &[u8]
        requires line { line < length self.now }
        requires at { at < length (line_at self.now line).words }
        ensures value { result.now ≡ line_word self.now line at }
        ensures word { IsLineWord result.now }
        ensures small { length result.now < 2 ^ 29 }
    {
        let index = self.firsts[line as usize] as usize + at as usize;
        let start = self.words[index] as usize;
        let next = self.words[index + 1] as usize;
        &self.text[start..next - 1]
    }
}
