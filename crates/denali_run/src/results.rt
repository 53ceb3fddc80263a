// What a goal is answered by.
ghost use Rattle.std.specs.Prelude.{◌≡◌, IfErr, IfOk};
ghost use Rattle.denali_run.specs.declared.results.Found.{Found as FoundOf};

use cnf_core::Lines;
use graph_meaning::{LaunchGraph, Stop};
use items::Items;
use register_assign::Listing;
use schedule_meaning::Schedule;

/// The graph of a goal after its rounds of matching, how many there were, and why they ended.
#[derive(Drop)]
pub struct Matched {
    pub graph: LaunchGraph,
    pub rounds: u32,
    pub stop: Stop,
}

/// A schedule in `k` cycles with its listing and words, and lines that refute the clauses for `k` - 1, where `k` isn't
/// 0.
#[derive(Drop)]
pub struct Found {
    pub matched: Matched,
    pub k: u32,
    pub schedule: Schedule,
    pub listing: Listing,
    pub words: Items<u32>,
    pub refutation: Option<Lines>,
}

/// Lines that refute the clauses for `k` cycles, the most that were asked for.
#[derive(Drop)]
pub struct Missing {
    pub matched: Matched,
    pub k: u32,
    pub refutation: Lines,
}

/// The lemmas that the solver found for `k` cycles until its budget was spent, and lines that refute the clauses for
/// `k` - 1, where `k` isn't 0.
#[derive(Drop)]
pub struct Tried {
    pub matched: Matched,
    pub k: u32,
    pub refutation: Option<Lines>,
    pub lemmas: Lines,
}

/// The counts of the variables and clauses for `k` cycles, one of which passes its limit, and lines that refute the
/// clauses for `k` - 1, where `k` isn't 0.
#[derive(Drop)]
pub struct Large {
    pub matched: Matched,
    pub k: u32,
    pub refutation: Option<Lines>,
    pub vars: u64,
    pub clauses: u64,
}

/// What a goal is answered by.
pub enum Answered {
    Scheduled(Found),
    Nowhere(Missing),
    SpentConflicts(Tried),
    SpentSize(Large),
    /// The different constants `a` and `b` would be in one class, so axioms and assumptions hold in no world.
    NoWorld { class: u32, a: u64, b: u64 },
}

// By hand, so that it is proved here alone: a derived one is proved in each crate that drops a result.
impl Drop for Answered {
    fn drop(self) {
        match self {
            Answered::Scheduled(_found) => {}
            Answered::Nowhere(_missing) => {}
            Answered::SpentConflicts(_tried) => {}
            Answered::SpentSize(_large) => {}
            Answered::NoWorld {
                class: _class,
                a: _a,
                b: _b,
            } => {}
        }
    }
}

impl Answered {
    /// The schedule with what belongs to it, or else this result.
    pub fn scheduled(self) -> Result<Found, Answered>
        ensures ok { IfOk result (λ found. self ≡ Answered.Scheduled found) }
        ensures err { IfErr result (λ answered. (answered ≡ self)
            × ((found : FoundOf) → self ≡ Answered.Scheduled found → ⊥)) }
    {
        match self {
            Answered::Scheduled(found) => Ok(found),
            other => Err(other),
        }
    }
}
