// The faults of a text, and how they print.
ghost use Rattle.std.specs.Prelude.{◌≡◌, IfOk, Some};
ghost use Rattle.text_core.specs.Faults.{fault_text, kind_name, fault_number};
ghost use Rattle.text_core.specs.declared.faults.TextFault.TheVariants.{Memory};

use items::NoMemory;
use itoa::Buffer;
use std::alloc::{AllocFailed, Global};
use thiserror::Error;

/// Why a text is refused. Of two faults at one place, the one with the smaller number comes first.
#[derive(Clone, Copy, PartialEq, Eq, Debug)]
pub enum Kind {
    /// A byte outside comments that begins no token and isn't white space, or a byte that no text of lines may have.
    BadByte = 1,
    /// An open parenthesis without its closing one.
    Unclosed,
    /// A closing parenthesis with none open.
    Unopened,
    /// An atom that begins with a digit and is no number.
    BadNumber,
    /// An open parenthesis inside 64 others.
    TooDeep,
    /// A list or an atom that isn't what the grammar has there.
    BadForm,
    /// A name that nothing has.
    UnknownName,
    /// A name or a register that was given before, or that may not be used.
    Twice,
    /// An application with another count of operands.
    WrongArity,
    /// A word where a memory is wanted, or a memory where a word is wanted.
    WrongSort,
    /// A register that can't be used.
    BadRegister,
    /// An axiom whose left side is no application or lacks a variable of its right side.
    BadAxiom,
    /// More of something than the limits allow.
    LimitPassed,
    /// A slot that can't be, or is unknown or repeated.
    BadSlot,
    /// A latency or a cross delay out of its range.
    BadLatency,
    /// An instruction that the table named before.
    OpTwice,
    /// A row that can't stand in a graph.
    BadRow,
    /// A class that isn't there, or isn't of the sort that is wanted.
    BadClass,
    /// A line that the format doesn't have in its place.
    BadLine,
    /// A number that is no word of a code, or a branch that may not stand there.
    BadWord,
}

impl Kind {
    /// From 1 to 20, in the order of the declaration.
    pub fn number(self) -> u8
        ensures { result ≡ fault_number self }
    {
        self as u8
    }

    /// The name by which a fault of the kind prints.
    pub fn name(self) -> &'static [u8]
        ensures { result.now ≡ kind_name self }
    {
        match self {
            Kind::BadByte => b"BadByte",
            Kind::Unclosed => b"Unclosed",
            Kind::Unopened => b"Unopened",
            Kind::BadNumber => b"BadNumber",
            Kind::TooDeep => b"TooDeep",
            Kind::BadForm => b"BadForm",
            Kind::UnknownName => b"UnknownName",
            Kind::Twice => b"Twice",
            Kind::WrongArity => b"WrongArity",
            Kind::WrongSort => b"WrongSort",
            Kind::BadRegister => b"BadRegister",
            Kind::BadAxiom => b"BadAxiom",
            Kind::LimitPassed => b"LimitPassed",
            Kind::BadSlot => b"BadSlot",
            Kind::BadLatency => b"BadLatency",
            Kind::OpTwice => b"OpTwice",
            Kind::BadRow => b"BadRow",
            Kind::BadClass => b"BadClass",
            Kind::BadLine => b"BadLine",
            Kind::BadWord => b"BadWord",
        }
    }
}

/// A fault of a text, and the offset of the byte where it is, from 0.
#[derive(Clone, Copy, Debug)]
pub struct Fault {
    pub place: u32,
    pub kind: Kind,
}

impl Fault {
    /// `fault PLACE KIND`, with the kind's name and no line feed.
    pub fn print(&self, alloc: Global) -> Result<Vec<u8>, NoMemory>
        ensures { IfOk result (λ text. text.items ≡ fault_text self.now) }
    {
        let mut buffer = Buffer::new();
        let mut text = Vec::from_slice(alloc, b"fault ")?;
        text.extend_from_slice(buffer.format(self.place).as_bytes())?;
        text.extend_from_slice(b" ")?;
        text.extend_from_slice(self.kind.name())?;
        Ok(text)
    }
}

/// Why a pass over a text gave nothing.
#[derive(Clone, Copy, Debug, Error)]
pub enum TextFault {
    #[error("the text has a fault")]
    Fault(Fault),
    #[error("out of memory")]
    Memory,
}

impl From<NoMemory> for TextFault {
    ghost from_gives = { λ _ fault. fault ≡ Memory };

    fn from(_: NoMemory) -> TextFault {
        TextFault::Memory
    }
}

impl<T: Drop> From<AllocFailed<T>> for TextFault {
    ghost from_gives = { λ _ fault. fault ≡ Memory };

    fn from(_: AllocFailed<T>) -> TextFault {
        TextFault::Memory
    }
}
