// What the work of a command comes to.
ghost use Rattle.std.specs.Prelude.{◌≡◌};
ghost use Rattle.reports.specs.Errors.{fault_of};
ghost use Rattle.reports.specs.declared.reports.TextError.TheVariants.{Memory};

use crate::statuses::Status;
use items::NoMemory;
use text_core::{Fault, TextFault};
use thiserror::Error;

/// What a command writes, and how it ends.
#[derive(Drop)]
pub struct Report {
    pub bytes: Vec<u8>,
    pub status: Status,
}

/// Why a text has no report.
#[derive(Clone, Copy, Debug, Error)]
pub enum TextError {
    #[error("the text has a fault")]
    Read(Fault),
    #[error("out of memory")]
    Memory,
}

impl From<NoMemory> for TextError {
    ghost from_gives = { λ _ error. error ≡ Memory };

    fn from(_: NoMemory) -> TextError {
        TextError::Memory
    }
}

impl From<TextFault> for TextError {
    ghost from_gives = { λ fault error. fault_of error ≡ fault };

    fn from(fault: TextFault) -> TextError {
        match fault {
            TextFault::Fault(fault) => TextError::Read(fault),
            TextFault::Memory => TextError::Memory,
        }
    }
}
