// Running words.
ghost use Rattle.std.specs.Prelude.{◌≡◌, ◌<◌, ◌^◌, IfOk, OnOk, IfErr, MatchOption, IsTrue, IsFalse, length, slice_index};
ghost use Rattle.alpha_machine.specs.Runs.{Runs, MayStandAt, AllMayStand, IsFirstBad};
ghost use Rattle.alpha_machine.specs.Refusals.{IsRunRefused};

use crate::states::State;
use crate::stepping::{StepFault, step};
use alpha_encode::{Instr, decode};
use thiserror::Error;

/// Where a run ends.
#[derive(Clone, Copy, PartialEq, Eq)]
pub enum End {
    /// Just after the last word: no branch was taken.
    Fall,
    /// One word further: a branch was taken.
    Exit,
    /// Before a word that traps.
    Trap,
}

/// Why words weren't run.
#[derive(Clone, Copy, Debug, Error)]
pub enum RunFault {
    /// The first word that is no instruction, or that is a branch to another place than one word past the end of the
    /// words. `at` is its index in the words.
    #[error("word {at}, {word:#010x}, can't be run")]
    Bad { at: u32, word: u32 },
    #[error("out of memory")]
    Memory,
}

/// Whether the word is an instruction that may stand at this place of so many words: a branch leads one word behind the
/// last.
pub fn may_stand(word: u32, at: usize, count: usize) -> bool
    requires few { count < 2 ^ 29 }
    ensures yes { IsTrue result → MayStandAt count at word }
    ensures no { IsFalse result → ¬ MayStandAt count at word }
{
    match decode(word) {
        Some(Instr::Beq { disp, .. }) => disp == count.saturating_sub(at) as i32,
        Some(_) => true,
        None => false,
    }
}

/// The index of the first word that may not stand where it does.
fn first_bad(words: &[u32]) -> Option<u32>
    requires { length words.now < 2 ^ 29 }
    ensures { MatchOption result (AllMayStand words.now) (λ at. IsFirstBad words.now at (slice_index words.now at)) }
{
    for (at, word) in words.iter().enumerate() {
        if !may_stand(*word, at, words.len()) {
            return Some(at as u32);
        }
    }
    None
}

/// Runs the words, which stand from address 0 on. A word that isn't allowed is found before the first step. Each word
/// is executed at most once, since every branch leads past the words. A word that traps isn't executed.
pub fn run(words: &[u32], state: &mut State) -> Result<End, RunFault>
    requires few { length words.now < 2 ^ 29 }
    requires start { state.old.pc ≡ 0 }
    ensures runs { IfOk result (λ end. Runs words.now state.old end state.new) }
    ensures allowed { OnOk result (AllMayStand words.now) }
    ensures refused { IfErr result (IsRunRefused words.now state.old state.new) }
{
    if let Some(at) = first_bad(words) {
        return Err(RunFault::Bad {
            at,
            word: words[at as usize],
        });
    }
    let fall = 4 * words.len() as u64;
    for word in words {
        match step(state, *word) {
            Ok(()) => {}
            Err(StepFault::Trap) => return Ok(End::Trap),
            Err(StepFault::Memory) => return Err(RunFault::Memory),
            // Each word is an instruction.
            Err(StepFault::NotWord) => unreachable!(),
        }
        if state.pc() > fall {
            return Ok(End::Exit);
        }
    }
    Ok(End::Fall)
}
