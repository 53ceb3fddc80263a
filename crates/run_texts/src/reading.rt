// A program read from its text.
ghost use Rattle.std.specs.Prelude.{◌≡◌, ◌≢◌, ◌⊎◌, ◌<◌, ◌+◌, ◌^◌, ◌/◌, ℕ, All, codes, length, IfOk, IfErr, OnOk, Ok, Err, IsTrue, IsFalse};
ghost use Rattle.text_core.specs.Faults.{IsFaultBy};
ghost use Rattle.text_core.specs.Lines.{line_word};
ghost use Rattle.text_core.specs.LineTexts.{words_of_lines};
ghost use Rattle.text_core.specs.declared.faults.Kind.{Kind as KindOf};
ghost use Rattle.text_core.specs.declared.faults.TextFault.TheVariants as faults;
ghost use Rattle.run_texts.specs.RunFaults.{word_count, ReadsRun, IsRunFault, IsFirstRunFault};
ghost use Rattle.run_texts.specs.Reports.{CanRun};
ghost use Rattle.run_texts.specs.SoFar.{IsFaultAtLine, IsRunTextTo, AreSeen};
ghost use Rattle.run_texts.specs.declared.texts.RunText.{RunText as Program};

use crate::laws::one_program;
use crate::line_reading::{place_line, register_line, word_line, word_lines};
use crate::texts::{RegisterWord, RunText};
use alpha_machine::may_stand;
use items::Items;
use std::alloc::Global;
use text_core::{Fault, Kind, MOST_PLACES, MOST_WORDS, TextFault, TextLines, begins_with, lines};
use word_ops::{Mem, memories_hold_words};

/// The fault of a line.
fn line_fault(text: &TextLines<'_>, line: u32, kind: Kind) -> TextFault
    requires { line < length text.now }
    ensures { IsFaultAtLine text.now line kind result }
{
    TextFault::Fault(Fault {
        place: text.place(line),
        kind,
    })
}

/// Whether the register was given before. It looks at each in turn; there are 31 at most.
fn has_register(given: &[RegisterWord], register: u8) -> bool
    ensures yes { IsTrue result → All (λ r. r.register ≢ register) given.now → ⊥ }
    ensures no { IsFalse result → All (λ r. r.register ≢ register) given.now }
{
    given.iter().any(|r| r.register == register)
}

/// Reads a word behind the lines so far.
fn read_word(
    text: &TextLines<'_>,
    line: u32,
    count: u32,
    run: &mut RunText,
) -> Result<(), TextFault>
    requires line { line < length text.now }
    requires first { line_word text.now line 0 ≡ codes "word" }
    requires count { count ≡ word_count (words_of_lines text.now) }
    requires few { count < 2 ^ 29 }
    requires so_far { IsRunTextTo (words_of_lines text.now) line run.old }
    ensures ok { OnOk result (IsRunTextTo (words_of_lines text.now) (line + 1) run.new) }
    ensures places { OnOk result (run.new.places ≡ run.old.places) }
    ensures fault { IfErr result (IsFaultBy (IsFirstRunFault text.now)) }
{
    let Some(word) = word_line(text, line) else {
        return Err(line_fault(text, line, Kind::BadLine));
    };
    if !run.registers.is_empty() || !run.places.is_empty() {
        return Err(line_fault(text, line, Kind::BadLine));
    }
    if !may_stand(word, run.words.len(), count as usize) {
        return Err(line_fault(text, line, Kind::BadLine));
    }
    if run.words.len() == MOST_WORDS {
        return Err(line_fault(text, line, Kind::LimitPassed));
    }
    Ok(run.words.push(word)?)
}

/// Reads a register's word behind the lines so far.
fn read_register(text: &TextLines<'_>, line: u32, run: &mut RunText) -> Result<(), TextFault>
    requires line { line < length text.now }
    requires first { line_word text.now line 0 ≡ codes "reg" }
    requires so_far { IsRunTextTo (words_of_lines text.now) line run.old }
    ensures ok { OnOk result (IsRunTextTo (words_of_lines text.now) (line + 1) run.new) }
    ensures places { OnOk result (run.new.places ≡ run.old.places) }
    ensures fault { IfErr result (IsFaultBy (IsFirstRunFault text.now)) }
{
    let Some(given) = register_line(text, line) else {
        return Err(line_fault(text, line, Kind::BadLine));
    };
    if !run.places.is_empty() || has_register(run.registers.as_slice(), given.register) {
        return Err(line_fault(text, line, Kind::BadLine));
    }
    Ok(run.registers.push(given)?)
}

/// Reads a place's word behind the lines so far. In `seen`, the places that were given hold 1.
fn read_place(
    text: &TextLines<'_>,
    line: u32,
    run: &mut RunText,
    seen: &mut Mem,
) -> Result<(), TextFault>
    requires line { line < length text.now }
    requires no_word { line_word text.now line 0 ≢ codes "word" }
    requires no_register { line_word text.now line 0 ≢ codes "reg" }
    requires so_far { IsRunTextTo (words_of_lines text.now) line run.old }
    requires seen { AreSeen run.old.places seen.old }
    ensures ok { OnOk result (IsRunTextTo (words_of_lines text.now) (line + 1) run.new) }
    ensures seen { OnOk result (AreSeen run.new.places seen.new) }
    ensures fault { IfErr result (IsFaultBy (IsFirstRunFault text.now)) }
{
    memories_hold_words();
    let Some(given) = place_line(text, line) else {
        return Err(line_fault(text, line, Kind::BadLine));
    };
    let place = given.address / 8;
    if seen.get(place) != 0 {
        return Err(line_fault(text, line, Kind::BadLine));
    }
    if run.places.len() == MOST_PLACES {
        return Err(line_fault(text, line, Kind::LimitPassed));
    }
    seen.set(place, 1)?;
    Ok(run.places.push(given)?)
}

/// Reads a line behind the lines so far.
fn read_line(
    text: &TextLines<'_>,
    line: u32,
    count: u32,
    run: &mut RunText,
    seen: &mut Mem,
) -> Result<(), TextFault>
    requires line { line < length text.now }
    requires count { count ≡ word_count (words_of_lines text.now) }
    requires few { count < 2 ^ 29 }
    requires so_far { IsRunTextTo (words_of_lines text.now) line run.old }
    requires seen { AreSeen run.old.places seen.old }
    ensures ok { OnOk result (IsRunTextTo (words_of_lines text.now) (line + 1) run.new) }
    ensures seen { OnOk result (AreSeen run.new.places seen.new) }
    ensures fault { IfErr result (IsFaultBy (IsFirstRunFault text.now)) }
{
    if begins_with(text, line, b"word") {
        read_word(text, line, count, run)
    } else if begins_with(text, line, b"reg") {
        read_register(text, line, run)
    } else {
        read_place(text, line, run, seen)
    }
}

/// The program of the lines of a text.
fn run_of(alloc: Global, text: &TextLines<'_>) -> Result<RunText, TextFault>
    ensures ok { IfOk result (IsRunTextTo (words_of_lines text.now) (length text.now)) }
    ensures fault { IfErr result (IsFaultBy (IsFirstRunFault text.now)) }
{
    let count = word_lines(text);
    let mut run = RunText {
        words: Items::new(alloc),
        registers: Items::new(alloc),
        places: Items::new(alloc),
    };
    let mut seen = Mem::new(alloc);
    for line in 0..text.count() {
        read_line(text, line, count, &mut run, &mut seen)?;
    }
    Ok(run)
}

/// The program of a text.
fn program(alloc: Global, text: &[u8]) -> Result<RunText, TextFault>
    requires { length text.now < 2 ^ 29 }
    ensures program { IfOk result (ReadsRun text.now) }
    ensures fault { IfErr result (IsFaultBy (IsRunFault text.now)) }
{
    let text = lines(alloc, text)?;
    run_of(alloc, &text)
}

/// Reads the text of a program to be run. A fault is the text's first: BadByte, BadLine or LimitPassed. The cost is
/// linear in the length of the text, beside a look-up of each place among those before it.
pub fn read(alloc: Global, text: &[u8]) -> Result<RunText, TextFault>
    requires { length text.now < 2 ^ 29 }

    // What is read is what the text says, and it can be run; what the text says is read.
    ensures program { IfOk result (ReadsRun text.now) }
    ensures runnable { IfOk result CanRun }
    ensures read { (run : Program) → ReadsRun text.now run → (result ≡ Ok run) ⊎ (result ≡ Err faults.Memory) }

    // A fault is the first one, and where there is one it is answered.
    ensures fault { IfErr result (IsFaultBy (IsRunFault text.now)) }
    ensures refused { (place : ℕ) (kind : KindOf) → IsRunFault text.now place kind
        → (result ≡ Err (faults.Fault (record { place = place; kind = kind }))) ⊎ (result ≡ Err faults.Memory) }
{
    one_program();
    program(alloc, text)
}
