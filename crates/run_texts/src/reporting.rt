// What running a program prints.
ghost use Rattle.std.specs.Prelude.{◌≡◌, ◌++◌, ◌∷◌, ◌<◌, ◌^◌, [], length, take, map, IfOk, OnOk, decimal, slice_index, All};
ghost use Rattle.text_core.specs.LineTexts.{line_text, lines_text};
ghost use Rattle.alpha_machine.specs.Runs.{Runs, AllMayStand};
ghost use Rattle.run_texts.specs.Reports as reports;

use crate::texts::{PlaceWord, RegisterWord, RunText};
use alpha_machine::{End, RunFault, State, run};
use items::NoMemory;
use std::alloc::{AllocError, Global};
use text_core::{put, put_number};
use word_ops::Mem;

/// The registers that hold what is given, and 0 elsewhere.
fn registers(given: &[RegisterWord]) -> [u64; 32]
    requires { All (λ r. r.register < 31) given.now }
    ensures registers { result ≡ reports.start_registers given.now }
    ensures zero { slice_index result 31 ≡ 0 }
{
    let mut registers = [0; 32];
    for r in given {
        registers[r.register as usize] = r.word;
    }
    registers
}

/// The memory that holds what is given, and 0 elsewhere.
fn memory(alloc: Global, given: &[PlaceWord]) -> Result<Mem, NoMemory>
    ensures { IfOk result (λ memory. memory ≡ reports.start_memory given.now) }
{
    let mut memory = Mem::new(alloc);
    for p in given {
        memory.set(p.address / 8, p.word)?;
    }
    Ok(memory)
}

/// Runs words, each of which may stand where it does.
fn run_words(words: &[u32], state: &mut State) -> Result<End, NoMemory>
    requires few { length words.now < 2 ^ 29 }
    requires start { state.old.pc ≡ 0 }
    requires stand { AllMayStand words.now }
    ensures { IfOk result (λ end. Runs words.now state.old end state.new) }
{
    match run(words, state) {
        Ok(end) => Ok(end),
        Err(RunFault::Memory) => Err(AllocError),
        Err(RunFault::Bad { .. }) => unreachable!(),
    }
}

/// A line of a word and two numbers.
fn put_numbers(text: &mut Vec<u8>, word: &[u8], first: u64, second: u64) -> Result<(), NoMemory>
    ensures { OnOk result (text.new.items
        ≡ text.old.items ++ line_text (word.now ∷ decimal first ∷ decimal second ∷ [])) }
{
    put(text, word)?;
    put_number(text, first)?;
    put_number(text, second)?;
    put(text, b"\n")
}

fn put_end(text: &mut Vec<u8>, end: End) -> Result<(), NoMemory>
    ensures { OnOk result (text.new.items ≡ text.old.items ++ line_text (reports.report_end_words end)) }
{
    match end {
        End::Fall => put(text, b"end fall\n"),
        End::Exit => put(text, b"end exit\n"),
        End::Trap => put(text, b"end trap\n"),
    }
}

/// A register and its word, where that isn't 0.
fn put_register(text: &mut Vec<u8>, register: u8, word: u64) -> Result<(), NoMemory>
    ensures { OnOk result (text.new.items ≡ text.old.items ++ lines_text (reports.register_line register word)) }
{
    if word == 0 {
        return Ok(());
    }
    put_numbers(text, b"reg", u64::from(register), word)
}

fn put_registers(text: &mut Vec<u8>, state: &State) -> Result<(), NoMemory>
    ensures { OnOk result (text.new.items
        ≡ text.old.items ++ lines_text (reports.register_lines 0 (take 31 state.now.registers))) }
{
    for register in 0..31u8 {
        put_register(text, register, state.register(register))?;
    }
    Ok(())
}

#[tactic(auto, using(crate::proofs::Printed::line_more))]
fn put_places(text: &mut Vec<u8>, entries: &[(u64, u64)]) -> Result<(), NoMemory>
    requires { All (λ e. e.0 < 2 ^ 61) entries.now }
    ensures { OnOk result (text.new.items ≡ text.old.items ++ lines_text (map reports.report_entry_words entries.now)) }
{
    for (place, word) in entries {
        put_numbers(text, b"mem", 8 * *place, *word)?;
    }
    Ok(())
}

/// The lines of how a program ended.
fn print(alloc: Global, end: End, state: &State) -> Result<Vec<u8>, NoMemory>
    ensures { IfOk result (λ text. text.items ≡ lines_text (reports.report_lines end state.now)) }
{
    let mut text = Vec::new(alloc);
    put_end(&mut text, end)?;
    put_registers(&mut text, state)?;
    put_places(&mut text, state.memory().entries()?.as_slice())?;
    Ok(text)
}

/// Runs a program's words from the first one on, with what its text gives, and prints how it ended: the end, each
/// register from 0 to 30 that doesn't hold 0, and each place of memory that doesn't hold 0, by rising address.
pub fn report(alloc: Global, program: &RunText) -> Result<Vec<u8>, NoMemory>
    requires { reports.CanRun program.now }
    ensures { IfOk result (λ text. reports.IsRunReport program.now text.items) }
{
    let memory = memory(alloc, program.places.as_slice())?;
    let mut state = State::new(registers(program.registers.as_slice()), memory);
    let end = run_words(program.words.as_slice(), &mut state)?;
    print(alloc, end, &state)
}
