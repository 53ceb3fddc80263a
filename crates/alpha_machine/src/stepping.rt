// One step.
ghost use Rattle.std.specs.Prelude.{◌≡◌, OnOk, IfErr, IsFalse, IsSomeAnd};
ghost use Rattle.alpha_encode.specs.Decoded.{decoded};
ghost use Rattle.alpha_machine.specs.Steps as steps;
ghost use Rattle.alpha_machine.specs.Refusals.{IsStepRefused};
ghost use Rattle.alpha_machine.specs.declared.stepping.StepFault.TheVariants.{Memory};

use crate::states::State;
use alpha_encode::decode;
use items::NoMemory;
use thiserror::Error;

/// Why a word wasn't executed.
#[derive(Clone, Copy, PartialEq, Eq, Debug, Error)]
pub enum StepFault {
    #[error("the word is no instruction")]
    NotWord,
    #[error("the address isn't a multiple of the access's width")]
    Trap,
    #[error("out of memory")]
    Memory,
}

impl From<NoMemory> for StepFault {
    ghost from_gives = { λ _ fault. fault ≡ Memory };

    fn from(_: NoMemory) -> StepFault {
        StepFault::Memory
    }
}

/// Does what the word's instruction does, wherever the word stands. Where it traps, nothing is done.
pub fn step(state: &mut State, word: u32) -> Result<(), StepFault>
    ensures ok { OnOk result (IsSomeAnd (decoded word)
        (λ instr. IsFalse (steps.traps instr state.old) × (state.new ≡ steps.step instr state.old))) }
    ensures refused { IfErr result (IsStepRefused word state.old state.new) }
{
    let instr = decode(word).ok_or(StepFault::NotWord)?;
    if state.traps(instr) {
        return Err(StepFault::Trap);
    }
    Ok(state.execute(instr)?)
}
