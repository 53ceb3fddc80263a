// Texts of answers and programs, cut into lines of words.
ghost use Rattle.std.specs.Prelude.{◌≡◌, ◌+◌, ◌<◌, ◌≤◌, ◌^◌, ℕ, List, [], ◌∷◌, ◌++◌, OnOk, IfOk, IfErr, MatchOption, length};
ghost use Rattle.text_core.specs.Faults.{IsFaultBy, GivesUnlessMemory, RefusesUnlessMemory};
ghost use Rattle.text_core.specs.LineIndex.{IsSplitTo, AreLineBytes, IsFirstRefused};
ghost use Rattle.text_core.specs.Lines.{Line, HasLines, IsFirstLineFault, is_line_byte};
ghost use Rattle.text_core.specs.declared.faults.Kind.{Kind};

use crate::{Fault, Kind, TextFault, TextLines};
use items::NoMemory;
use std::alloc::Global;

fn is_allowed(byte: u8) -> bool
    ensures { result ≡ is_line_byte byte }
{
    matches!(byte, b' '..=b'~' | b'\n')
}

/// Where the first byte stands that no text of lines has.
fn refused_byte(text: &[u8]) -> Option<usize>
    ensures { MatchOption result (AreLineBytes text.now) (IsFirstRefused text.now) }
{
    for (at, byte) in text.iter().enumerate() {
        if !is_allowed(*byte) {
            return Some(at);
        }
    }
    None
}

/// The index of a text so far. A line and a word are open, which may have no byte yet.
#[derive(Drop)]
struct Splitter {
    words: Vec<u32>,
    firsts: Vec<u32>,
    // Where the open line begins.
    line: usize,
    // How many words stand before it.
    first: usize,
    // Where the open word begins.
    start: usize,
}

impl Splitter {
    fn bad_line(&self) -> TextFault
        requires { self.now.line < 2 ^ 29 }
        ensures { result ≡ TextFault.Fault (record { place = self.now.line; kind = Kind.BadLine }) }
    {
        TextFault::Fault(Fault {
            place: self.line as u32,
            kind: Kind::BadLine,
        })
    }

    /// Ends the open word before the byte at a place.
    fn end_word(&mut self, at: usize) -> Result<(), NoMemory>
        requires at { at < 2 ^ 29 }
        requires start { self.old.start < 2 ^ 29 }
        ensures words { OnOk result (self.new.words.items ≡ self.old.words.items ++ self.old.start ∷ []) }
        ensures start { OnOk result (self.new.start ≡ at + 1) }
        ensures firsts { self.new.firsts.items ≡ self.old.firsts.items }
        ensures line { self.new.line ≡ self.old.line }
        ensures first { self.new.first ≡ self.old.first }
    {
        self.words.push(self.start as u32)?;
        self.start = at + 1;
        Ok(())
    }

    /// Ends the open line with the byte at a place.
    fn end_line(&mut self, at: usize) -> Result<(), NoMemory>
        requires at { at < 2 ^ 29 }
        requires first { self.old.first < 2 ^ 29 }
        ensures firsts { OnOk result (self.new.firsts.items ≡ self.old.firsts.items ++ self.old.first ∷ []) }
        ensures first { OnOk result (self.new.first ≡ length self.old.words.items) }
        ensures line { OnOk result (self.new.line ≡ at + 1) }
        ensures words { self.new.words.items ≡ self.old.words.items }
        ensures start { self.new.start ≡ self.old.start }
    {
        self.firsts.push(self.first as u32)?;
        self.first = self.words.len();
        self.line = at + 1;
        Ok(())
    }

    /// Takes the byte at a place of the text, which comes after those taken before.
    fn step(&mut self, text: &[u8], at: usize) -> Result<(), TextFault>
        requires small { length text.now < 2 ^ 29 }
        requires bytes { AreLineBytes text.now }
        requires within { at < length text.now }
        requires split { IsSplitTo text.now at
            self.old.line self.old.start self.old.words.items self.old.firsts.items self.old.first }
        ensures split { OnOk result (IsSplitTo text.now (at + 1)
            self.new.line self.new.start self.new.words.items self.new.firsts.items self.new.first) }
        ensures fault { IfErr result (IsFaultBy (IsFirstLineFault text.now)) }
    {
        match text[at] {
            b' ' => {
                if at == self.start {
                    return Err(self.bad_line());
                }
                self.end_word(at)?;
            }
            b'\n' => {
                if at == self.start {
                    return Err(self.bad_line());
                }
                self.end_word(at)?;
                self.end_line(at)?;
            }
            _ => {}
        }
        Ok(())
    }

    /// The lines of the text, all of which it took.
    fn finish<'a>(mut self, text: &'a [u8]) -> Result<TextLines<'a>, TextFault>
        requires small { length text.now < 2 ^ 29 }
        requires bytes { AreLineBytes text.now }
        requires split { IsSplitTo text.now (length text.now)
            self.line self.start self.words.items self.firsts.items self.first }
        ensures lines { IfOk result (λ lines. HasLines text.now lines) }
        ensures fault { IfErr result (IsFaultBy (IsFirstLineFault text.now)) }
    {
        if self.line < text.len() {
            return Err(self.bad_line());
        }
        self.words.push(self.start as u32)?;
        self.firsts.push(self.first as u32)?;
        Ok(TextLines::new(text, self.words, self.firsts))
    }
}

fn split<'a>(alloc: Global, text: &'a [u8]) -> Result<TextLines<'a>, TextFault>
    requires { length text.now < 2 ^ 29 }
    ensures lines { IfOk result (λ lines. HasLines text.now lines) }
    ensures fault { IfErr result (IsFaultBy (IsFirstLineFault text.now)) }
{
    if let Some(place) = refused_byte(text) {
        return Err(TextFault::Fault(Fault {
            place: place as u32,
            kind: Kind::BadByte,
        }));
    }
    let mut splitter = Splitter {
        words: Vec::new(alloc),
        firsts: Vec::new(alloc),
        line: 0,
        first: 0,
        start: 0,
    };
    for at in 0..text.len() {
        splitter.step(text, at)?;
    }
    splitter.finish(text)
}

/// The lines of a text of an answer or a program. The cost is linear in the length of the text.
pub fn lines<'a>(alloc: Global, text: &'a [u8]) -> Result<TextLines<'a>, TextFault>
    requires { length text.now < 2 ^ 29 }

    // What is read is in the grammar, and what is in it is read.
    ensures lines { IfOk result (λ lines. HasLines text.now lines) }
    ensures read { (lines : List Line) → HasLines text.now lines
        → GivesUnlessMemory (λ read. read ≡ lines) result }

    // A fault is the first one, and where there is one it is answered.
    ensures fault { IfErr result (IsFaultBy (IsFirstLineFault text.now)) }
    ensures refused { (place : ℕ) (kind : Kind) → IsFirstLineFault text.now place kind
        → RefusesUnlessMemory place kind result }
{
    split(alloc, text)
}
