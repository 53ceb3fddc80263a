// The encodings of schedules by clauses.
ghost use Rattle.std.specs.Prelude.{◌≡◌};
ghost use Rattle.cycle_encoding.specs.Allocations.{allocation_of};

use schedule_meaning::Allocation;

/// Which launches have variables, and of which classes it is said where they are seen.
#[derive(Clone, Copy, PartialEq, Eq)]
pub enum Encoding {
    /// Every launch that ends in time, and every class that launches make.
    Wide,
    /// Launches whose operands can have come by their cycle and whose word is wanted, and wanted classes.
    Narrow,
    /// The same, with each launch by where it goes, and the copies of sets as rows. Where no set has a pin it has the
    /// list of the narrow one.
    Pinned,
    /// The pinned one for schedules whose launches keep their registers as long as their class is needed: loads and
    /// stores besides wait until their memory can have come, and loads may overwrite inputs.
    Live,
}

impl Encoding {
    /// How long the launches of the schedules that it asks for keep their registers.
    pub fn allocation(self) -> Allocation
        ensures { result ≡ allocation_of self }
    {
        match self {
            Encoding::Wide | Encoding::Narrow | Encoding::Pinned => Allocation::Block,
            Encoding::Live => Allocation::Live,
        }
    }
}
