// The lines and words of a case's input.
ghost use Rattle.std.specs.Prelude.{◌<◌, ◌≤◌, length};

use crate::reports::Trouble;
use std::alloc::Global;
use text_core::decimal;

/// A line without its line feed, and what stands behind that.
pub fn split_line(text: &[u8]) -> (&[u8], &[u8])
    ensures line { length result.0.now ≤ length text.now }
    ensures rest { length result.1.now ≤ length text.now }
{
    match text.iter().position(|byte| *byte == b'\n') {
        Some(at) => (&text[..at], &text[at + 1..]),
        None => (text, &[]),
    }
}

/// The text before the first line with this front, and from it on.
pub fn split_before<'a>(text: &'a [u8], front: &[u8]) -> (&'a [u8], &'a [u8])
    ensures before { length result.0.now ≤ length text.now }
    ensures rest { length result.1.now ≤ length text.now }
{
    for at in 0..text.len() {
        if (at == 0 || text[at - 1] == b'\n') && text[at..].starts_with(front) {
            return (&text[..at], &text[at..]);
        }
    }
    (text, &[])
}

/// The number that hexadecimal digits are, if it is below 2^32.
pub fn hexadecimal(digits: &[u8]) -> Option<u32> {
    let mut number = 0u32;
    for byte in digits {
        let digit = char::from(*byte).to_digit(16)?;
        number = number.checked_mul(16)?.checked_add(digit)?;
    }
    Some(number)
}

/// The lines of a text that are left.
#[derive(Clone, Copy)]
pub struct Lines<'a> {
    pub rest: &'a [u8],
}

impl<'a> Lines<'a> {
    /// The next line without its line feed, if there is one.
    pub fn next(&mut self) -> Option<&'a [u8]> {
        if self.rest.is_empty() {
            return None;
        }
        let (line, rest) = split_line(self.rest);
        self.rest = rest;
        Some(line)
    }
}

/// The words of a line that are left, with one space between two.
#[derive(Clone, Copy)]
pub struct Words<'a> {
    pub rest: &'a [u8],
}

impl<'a> Words<'a> {
    /// The next word, if there is one.
    pub fn next(&mut self) -> Option<&'a [u8]> {
        if self.rest.is_empty() {
            return None;
        }
        match self.rest.iter().position(|byte| *byte == b' ') {
            Some(at) => {
                let word = &self.rest[..at];
                self.rest = &self.rest[at + 1..];
                Some(word)
            }
            None => {
                let word = self.rest;
                self.rest = &[];
                Some(word)
            }
        }
    }

    /// The next word, which has to be there.
    pub fn word(&mut self) -> Result<&'a [u8], Trouble> {
        self.next().ok_or(Trouble::Unread)
    }

    /// The next word as a number.
    pub fn number(&mut self) -> Result<u64, Trouble> {
        decimal(self.word()?).ok_or(Trouble::Unread)
    }

    /// The next word as a number below 2^32.
    pub fn small(&mut self) -> Result<u32, Trouble> {
        match u32::try_from(self.number()?) {
            Ok(number) => Ok(number),
            Err(_) => Err(Trouble::Unread),
        }
    }

    /// The words that are left, as numbers.
    pub fn numbers(&mut self, alloc: Global) -> Result<Vec<u64>, Trouble> {
        let mut numbers = Vec::new(alloc);
        for _ in 0..self.rest.len() {
            if self.rest.is_empty() {
                break;
            }
            numbers.push(self.number()?)?;
        }
        Ok(numbers)
    }
}
