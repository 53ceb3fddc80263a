// Why a start or a saturation is refused.
ghost use Rattle.std.specs.Prelude.{◌≡◌};
ghost use Rattle.saturation.specs.AtStart.{start_fault};
ghost use Rattle.saturation.specs.Instances.{saturate_fault};
ghost use Rattle.saturation.specs.declared.faults.SaturateFault.TheVariants.{Memory};
ghost use Rattle.saturation.specs.declared.faults.StartFault.TheVariants as starting;

use egraph::MergeFault;
use items::NoMemory;
use thiserror::Error;

#[derive(Clone, Copy, Debug, Error)]
pub enum StartFault {
    /// The assumptions would put the different constants `a` and `b` into `class`, so they hold in no world.
    #[error("the constants {a} and {b} would be one")]
    NoWorld { class: u32, a: u64, b: u64 },
    #[error("out of memory")]
    Memory,
}

impl From<NoMemory> for StartFault {
    ghost from_gives = { λ _ fault. fault ≡ starting.Memory };

    fn from(_: NoMemory) -> StartFault {
        StartFault::Memory
    }
}

impl From<MergeFault> for StartFault {
    ghost from_gives = { λ merge fault. fault ≡ start_fault merge };

    fn from(fault: MergeFault) -> StartFault {
        match fault {
            MergeFault::NoWorld { class, a, b } => StartFault::NoWorld { class, a, b },
            MergeFault::Memory => StartFault::Memory,
        }
    }
}

#[derive(Clone, Copy, Debug, Error)]
pub enum SaturateFault {
    /// A round would put the different constants `a` and `b` into `class`, so the axioms hold in no world.
    #[error("the constants {a} and {b} would be one")]
    NoWorld { class: u32, a: u64, b: u64 },
    #[error("out of memory")]
    Memory,
}

impl From<NoMemory> for SaturateFault {
    ghost from_gives = { λ _ fault. fault ≡ Memory };

    fn from(_: NoMemory) -> SaturateFault {
        SaturateFault::Memory
    }
}

impl From<MergeFault> for SaturateFault {
    ghost from_gives = { λ merge fault. fault ≡ saturate_fault merge };

    fn from(fault: MergeFault) -> SaturateFault {
        match fault {
            MergeFault::NoWorld { class, a, b } => SaturateFault::NoWorld { class, a, b },
            MergeFault::Memory => SaturateFault::Memory,
        }
    }
}
