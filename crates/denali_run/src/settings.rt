// What a solution may take.
ghost use Rattle.std.specs.Prelude.{◌≡◌};
ghost use Rattle.denali_run.specs.Encodings as encodings;

use axiom_library::Library;
use cycle_encoding::Encoding;
use pick_rule::Pick;
use schedule_meaning::Allocation;

/// The limits of the work on a goal: the most rounds, 0 to 16; the most rows of its graph, 1 to 4096, where a round
/// that might pass them isn't begun; the most cycles, 0 to 24; the most conflicts of the solver for each number of
/// cycles, 1 to 1000000. The rules of `library` join those of the goal's text. `allocation` says how long launches keep
/// their registers of the pool.
#[derive(Clone, Copy)]
pub struct Settings {
    pub rounds: u32,
    pub nodes: u32,
    pub cycles: u32,
    pub conflicts: u32,
    pub pick: Pick,
    pub library: Library,
    pub allocation: Allocation,
}

/// The encoding whose schedules keep their registers so long, and may have pins.
pub fn encoding_for(allocation: Allocation) -> Encoding
    ensures { result ≡ encodings.encoding_for allocation }
{
    match allocation {
        Allocation::Block => Encoding::Pinned,
        Allocation::Live => Encoding::Live,
    }
}

impl Settings {
    /// The encoding by which schedules are asked for.
    pub fn encoding(&self) -> Encoding
        ensures { result ≡ encodings.encoding_in self.now }
    {
        encoding_for(self.allocation)
    }
}
