// Instruction words, and programs that are run.
ghost use Rattle.std.specs.Prelude.{◌<◌, ◌≤◌, ◌^◌, length};

use alpha_encode::{decode, encode, text};
use case_files::{Trouble, faulty, hexadecimal, put};
use run_texts::{read, report};
use std::alloc::Global;

/// The text of the instruction that a word is, or `none`. An instruction that isn't encoded as the word says so.
pub(crate) fn words(alloc: Global, input: &[u8]) -> Result<Vec<u8>, Trouble> {
    let word = hexadecimal(input).ok_or(Trouble::Unread)?;
    let Some(instr) = decode(word) else {
        return Ok(Vec::from_slice(alloc, b"none\n")?);
    };
    if encode(instr) != word {
        return Ok(Vec::from_slice(alloc, b"another word\n")?);
    }
    let mut report = text(alloc, instr)?;
    put(&mut report, b"\n")?;
    Ok(report)
}

/// What running a program prints, or the fault of its text.
pub(crate) fn programs(alloc: Global, input: &[u8]) -> Result<Vec<u8>, Trouble>
    requires { length input.now ≤ 2 ^ 24 }
{
    match read(alloc, input) {
        Ok(program) => Ok(report(alloc, &program)?),
        Err(fault) => faulty(alloc, fault),
    }
}
