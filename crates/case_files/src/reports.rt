// What a case's answer is written with, and why there may be none.
use items::NoMemory;
use itoa::Buffer;
use std::alloc::{AllocFailed, Global};
use text_core::TextFault;

/// Why a case has no answer: no memory, or an input that isn't in the notation of its subject.
#[derive(Clone, Copy, PartialEq, Eq, Drop)]
pub enum Trouble {
    Memory,
    Unread,
}

impl From<NoMemory> for Trouble {
    fn from(_: NoMemory) -> Trouble {
        Trouble::Memory
    }
}

impl<T: Drop> From<AllocFailed<T>> for Trouble {
    fn from(_: AllocFailed<T>) -> Trouble {
        Trouble::Memory
    }
}

/// Bytes behind a report.
pub fn put(report: &mut Vec<u8>, bytes: &[u8]) -> Result<(), Trouble> {
    report.extend_from_slice(bytes)?;
    Ok(())
}

/// A line of words.
pub fn put_line(report: &mut Vec<u8>, words: &[&[u8]]) -> Result<(), Trouble> {
    for (at, word) in words.iter().enumerate() {
        if at > 0 {
            put(report, b" ")?;
        }
        put(report, word)?;
    }
    put(report, b"\n")
}

/// A number behind a report, with a space before it.
pub fn put_number(report: &mut Vec<u8>, number: u64) -> Result<(), Trouble> {
    let mut buffer = Buffer::new();
    put(report, b" ")?;
    put(report, buffer.format(number).as_bytes())
}

/// A line of a word and numbers.
pub fn put_numbers(report: &mut Vec<u8>, word: &[u8], numbers: &[u64]) -> Result<(), Trouble> {
    put(report, word)?;
    for number in numbers {
        put_number(report, *number)?;
    }
    put(report, b"\n")
}

/// The line of a text's fault.
pub fn faulty(alloc: Global, fault: TextFault) -> Result<Vec<u8>, Trouble> {
    match fault {
        TextFault::Fault(fault) => {
            let mut line = fault.print(alloc)?;
            put(&mut line, b"\n")?;
            Ok(line)
        }
        TextFault::Memory => Err(Trouble::Memory),
    }
}
