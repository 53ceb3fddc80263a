// What a check comes to for a goal, and for the whole text of an answer.
ghost use Rattle.std.specs.Prelude.{◌≡◌};
ghost use Rattle.answer_check.specs.Reports.{is_rejection};

/// What a check comes to for one goal: every test holds; or the goal has no world, and is seen without a test; or the
/// first test that fails. `Broken` has the least rule that the schedule breaks, and the first launch that breaks it.
/// `Size` has the true counts of the clauses. `Refutation` and `Lemmas` have the number of cycles of the clauses, the
/// first line that is refused, and the least reason against it.
#[derive(Clone, Copy)]
pub enum Verdict {
    Holds,
    Seen,
    Broken { launch: u32, rule: u8 },
    Listing,
    Size { vars: u64, clauses: u64 },
    Refutation { k: u32, line: u32, why: u8 },
    Lemmas { k: u32, line: u32, why: u8 },
}

impl Verdict {
    /// Whether some test fails.
    pub fn is_rejection(self) -> bool
        ensures { result ≡ is_rejection self }
    {
        match self {
            Verdict::Holds => false,
            Verdict::Seen => false,
            _ => true,
        }
    }
}

/// The lines of an answer's goals, and whether some goal's claim is rejected.
#[derive(Drop)]
pub struct Checked {
    pub bytes: Vec<u8>,
    pub rejected: bool,
}
