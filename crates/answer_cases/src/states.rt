// States of the machine: those from which words run, and those at which they end.
ghost use Rattle.std.specs.Prelude.{◌≡◌, IfOk};

use alpha_machine::State;
use case_files::{Trouble, Words, put, put_number};
use std::alloc::Global;
use word_ops::Mem;

/// The state that a line's pairs `reg N WORD` and `mem ADDRESS WORD` give.
pub(crate) fn state_of(alloc: Global, words: &mut Words<'_>) -> Result<State, Trouble>
    ensures { IfOk result (λ state. state.pc ≡ 0) }
{
    let mut regs = [0; 32];
    let mut memory = Mem::new(alloc);
    for _ in 0..words.rest.len() {
        let Some(kind) = words.next() else {
            break;
        };
        let at = words.number()?;
        let word = words.number()?;
        if kind == b"mem".as_slice() {
            memory.set(at / 8, word)?;
        } else {
            regs[(at % 31) as usize] = word;
        }
    }
    regs[31] = 0;
    Ok(State::new(regs, memory))
}

/// Each address that doesn't hold 0, with its word, and the end of the line.
pub(crate) fn put_memory(report: &mut Vec<u8>, memory: &Mem) -> Result<(), Trouble> {
    for (at, word) in &memory.entries()? {
        put(report, b" mem")?;
        put_number(report, at.wrapping_mul(8))?;
        put_number(report, *word)?;
    }
    put(report, b"\n")
}
