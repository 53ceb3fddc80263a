// Why a merge is refused.
ghost use Rattle.std.specs.Prelude.{◌≡◌};
ghost use Rattle.egraph.specs.declared.faults.MergeFault.TheVariants.{Memory};

use items::NoMemory;
use thiserror::Error;

#[derive(Clone, Copy, Debug, Error)]
pub enum MergeFault {
    /// The merge would put the different constants `a` and `b` into `class`, so no world gives the joined terms one
    /// value.
    #[error("the constants {a} and {b} would be one")]
    NoWorld { class: u32, a: u64, b: u64 },
    #[error("out of memory")]
    Memory,
}

impl From<NoMemory> for MergeFault {
    ghost from_gives = { λ _ fault. fault ≡ Memory };

    fn from(_: NoMemory) -> MergeFault {
        MergeFault::Memory
    }
}
