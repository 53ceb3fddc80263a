// What a check comes to for a goal, with what is said of it behind the answer.
ghost use Rattle.std.specs.Prelude.{◌≡◌};
ghost use Rattle.least_launch.specs.LeastChecks.{is_tail_rejection};

use answer_check::Verdict;

/// What a check comes to for one goal. `Plain` is the verdict on its claim alone, where this isn't that a schedule's
/// tests all hold. Else the lines behind the answer are tested. `Count`: the schedule has another number of launches
/// than is said, which is this one. `Size` has the true counts of the clauses for one launch fewer. `Fewer` has the
/// first line that is refused, and the least reason against it. In `Least` and `Most` every test holds: no schedule has
/// fewer launches, or that isn't known.
#[derive(Clone, Copy)]
pub enum TailVerdict {
    Plain(Verdict),
    Count { launches: u32 },
    Size { vars: u64, clauses: u64 },
    Fewer { line: u32, why: u8 },
    Least { launches: u32 },
    Most { launches: u32 },
}

impl TailVerdict {
    /// Whether some test fails.
    pub fn is_rejection(self) -> bool
        ensures { result ≡ is_tail_rejection self }
    {
        match self {
            TailVerdict::Plain(verdict) => verdict.is_rejection(),
            TailVerdict::Least { .. } => false,
            TailVerdict::Most { .. } => false,
            _ => true,
        }
    }
}
