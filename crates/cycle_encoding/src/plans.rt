// A formula, and which of its variables means which launch.
ghost use Rattle.std.specs.Prelude.{◌≡◌, ◌-◌, ◌==◌, None, slice_get, if◌then◌else◌};

use crate::Encoding;
use cnf_core::Cnf;
use items::{Items, NoMemory};
use schedule_meaning::Launch;
use std::marker::Model;
use thiserror::Error;

/// In which encoding and for how many cycles a formula is, the launches of its first variables, in order, and how many
/// variables come before those of what is overwritten.
#[derive(Drop)]
pub struct VarPlan {
    encoding: Encoding,
    cycles: u32,
    launches: Items<Launch>,
    overwritten: u32,
}

impl Model for VarPlan {
    ghost use Rattle.cycle_encoding.specs.Plans.{Plan};

    ghost Value = { Plan };

    ghost view = { λ a. record {
      encoding = a.encoding;
      cycles = a.cycles;
      launches = a.launches;
      overwritten = a.overwritten;
    } };
}

impl VarPlan {
    pub fn new(
        encoding: Encoding,
        cycles: u32,
        launches: Items<Launch>,
        overwritten: u32,
    ) -> VarPlan
        ensures { result
            ≡ record { encoding = encoding; cycles = cycles; launches = launches; overwritten = overwritten } }
    {
        VarPlan {
            encoding,
            cycles,
            launches,
            overwritten,
        }
    }

    pub fn encoding(&self) -> Encoding
        ensures { result ≡ self.now.encoding }
    {
        self.encoding
    }

    pub fn cycles(&self) -> u32
        ensures { result ≡ self.now.cycles }
    {
        self.cycles
    }

    /// The launches of the first variables: that of variable v is at v - 1.
    pub fn launches(&self) -> &[Launch]
        ensures { result.now ≡ self.now.launches }
    {
        self.launches.as_slice()
    }

    /// How many variables come before those of what is overwritten. These stand by set, those alone that are pinned to
    /// an input's register, then by cycle, from 0 to the number of cycles.
    pub fn overwritten(&self) -> u32
        ensures { result ≡ self.now.overwritten }
    {
        self.overwritten
    }
}

/// A formula, and which of its variables means which launch.
#[derive(Drop)]
pub struct Encoded {
    pub cnf: Cnf,
    pub plan: VarPlan,
}

/// Why no formula is given. `Size` has the two counts of the formula that was asked for, one of which passes its limit:
/// 262,144 variables or 2,000,000 clauses.
#[derive(Clone, Copy, Debug, Error)]
pub enum EncodeFault {
    #[error("{vars} variables and {clauses} clauses are too many")]
    Size { vars: u64, clauses: u64 },
    #[error("out of memory")]
    Memory,
}

impl From<NoMemory> for EncodeFault {
    ghost use Rattle.cycle_encoding.specs.declared.plans.EncodeFault.TheVariants.{Memory};

    ghost from_gives = { λ _ fault. fault ≡ Memory };

    fn from(_: NoMemory) -> EncodeFault {
        EncodeFault::Memory
    }
}

/// The launch that a variable means, if it means one; in constant time. For callers that look at single variables: what
/// reads whole assignments goes over the plan's launches.
pub fn launch_of(plan: &VarPlan, var: u32) -> Option<Launch>
    ensures value { result ≡ (if var == 0 then None else slice_get plan.now.launches (var - 1)) }
{
    if var == 0 {
        None
    } else {
        plan.launches.as_slice().get(var as usize - 1).copied()
    }
}
