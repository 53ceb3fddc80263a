// Reading to the end of the input.
ghost use Rattle.std.specs.Prelude.{◌≡◌, ◌≤◌, ◌+◌, IfOk, IfErr, OnOk};
ghost use Rattle.outside_io.specs.Taking.{ReadsWhole, TakesUpTo, TakesWithin, HasReadCause};

use crate::{Source, Turns};
use std::alloc::Global;
use std::marker::Brand;
use std::sync::ledger::{Blank, Ledger};
use thiserror::Error;

/// Why the input wasn't read.
#[derive(Clone, Copy, PartialEq, Eq, Debug, Error)]
pub enum ReadAllFault {
    #[error("a read failed")]
    SourceFault,
    #[error("the input is too long")]
    TooLong,
    #[error("out of memory")]
    Memory,
}

/// How many bytes a read is asked for at most.
const PIECE: usize = 4096;

/// All the bytes to the end of the input, of which there are at most `limit`. It takes at most `limit + 1` bytes, in
/// as many reads at most, each for a piece that isn't empty. After a refusal the bytes taken are gone.
pub fn read_all<S: Source>(
    alloc: Global,
    source: &mut S,
    limit: u32,
) -> Result<Vec<u8>, ReadAllFault>
    ensures whole { IfOk result (λ v. ReadsWhole limit (S.left source.old) (S.left source.new) v.items) }
    ensures refused { IfErr result (TakesUpTo limit (S.left source.old) (S.left source.new)) }
    ensures taken { TakesWithin limit (S.left source.old) (S.left source.new) }
    ensures no_fault { OnOk result (S.faults source.new ≡ S.faults source.old) }
    ensures fault { IfErr result (HasReadCause (S.faults source.old) (S.faults source.new)) }
{
    read_uncounted::<S, Brand>(alloc, source, limit, Blank::new(1))
}

// The same with a count that nobody looks at.
fn read_uncounted<S: Source, L: Ledger>(
    alloc: Global,
    source: &mut S,
    limit: u32,
    blank: Blank,
) -> Result<Vec<u8>, ReadAllFault>
    requires name { blank.name ≡ L.name }
    requires parts { blank.parts ≡ L.parts }
    requires one_part { blank.parts ≡ 1 }
    ensures whole { IfOk result (λ v. ReadsWhole limit (S.left source.old) (S.left source.new) v.items) }
    ensures refused { IfErr result (TakesUpTo limit (S.left source.old) (S.left source.new)) }
    ensures taken { TakesWithin limit (S.left source.old) (S.left source.new) }
    ensures no_fault { OnOk result (S.faults source.new ≡ S.faults source.old) }
    ensures fault { IfErr result (HasReadCause (S.faults source.old) (S.faults source.new)) }
{
    let mut turns = Turns::<L>::new(blank);
    read_counted(alloc, source, limit, &mut turns)
}

/// What `read_all` gives, with its turns counted: each takes a byte, ends the reading or fails.
#[tactic(auto, using(crate::proofs::Fronts::reads_whole))]
pub fn read_counted<S: Source, L: Ledger>(
    alloc: Global,
    source: &mut S,
    limit: u32,
    turns: &mut Turns<L>,
) -> Result<Vec<u8>, ReadAllFault>
    ensures whole { IfOk result (λ v. ReadsWhole limit (S.left source.old) (S.left source.new) v.items) }
    ensures refused { IfErr result (TakesUpTo limit (S.left source.old) (S.left source.new)) }
    ensures taken { TakesWithin limit (S.left source.old) (S.left source.new) }
    ensures no_fault { OnOk result (S.faults source.new ≡ S.faults source.old) }
    ensures fault { IfErr result (HasReadCause (S.faults source.old) (S.faults source.new)) }
    ensures turns { turns.new ≤ turns.old + (limit + 1) }
{
    let limit = limit as usize;
    let mut bytes = Vec::new(alloc);
    let mut piece = [0u8; PIECE];
    while bytes.len() <= limit {
        turns.turn();
        let room = PIECE.min(limit + 1 - bytes.len());
        let part = &mut piece[..room];
        let Ok(count) = source.read(part) else {
            return Err(ReadAllFault::SourceFault);
        };
        if count == 0 {
            return Ok(bytes);
        }
        if count > limit - bytes.len() {
            return Err(ReadAllFault::TooLong);
        }
        if bytes.extend_from_slice(&part[..count]).is_err() {
            return Err(ReadAllFault::Memory);
        }
    }
    Err(ReadAllFault::TooLong)
}
