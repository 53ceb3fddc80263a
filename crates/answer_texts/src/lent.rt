// What an answer says of a goal, lent by who has it, so that it can be printed and used again.
ghost use Rattle.std.specs.Prelude.{◌≡◌};
ghost use Rattle.answer_texts.specs.AnswerLines as format;
ghost use Rattle.answer_texts.specs.Lent.{lent_claim, lent_claimed};

use crate::answers::{Claim, Claimed};
use cnf_core::Lines;
use graph_meaning::{LaunchGraph, Stop};
use items::Items;
use register_assign::Where;
use schedule_meaning::Schedule;
use text_core::Name;

/// A `Claim`, lent.
#[derive(Clone, Copy, Drop)]
pub enum ClaimRef<'a> {
    NoWorld {
        class: u32,
        a: u64,
        b: u64,
    },
    Scheduled {
        k: u32,
        schedule: &'a Schedule,
        words: &'a Items<u32>,
        places: &'a Items<Where>,
    },
    Missing {
        k: u32,
    },
    SpentConflicts {
        k: u32,
        lemmas: &'a Lines,
    },
    SpentSize {
        k: u32,
        vars: u64,
        clauses: u64,
    },
}

/// A `Claimed`, lent.
#[derive(Clone, Copy, Drop)]
pub struct ClaimedRef<'a> {
    pub name: &'a Name,
    pub graph: Option<&'a LaunchGraph>,
    pub rounds: u32,
    pub stop: Stop,
    pub claim: ClaimRef<'a>,
    pub refute: Option<&'a Lines>,
}

impl<'a> ClaimRef<'a> {
    /// For how many cycles the clauses are that the lines of the claim are to refute, where there are some.
    pub fn refuted_cycles(&self) -> u32
        ensures { result ≡ format.refuted_cycles (lent_claim self.now) }
    {
        match self {
            ClaimRef::NoWorld { .. } => 0,
            ClaimRef::Missing { k } => *k,
            ClaimRef::Scheduled { k, .. }
            | ClaimRef::SpentConflicts { k, .. }
            | ClaimRef::SpentSize { k, .. } => k.saturating_sub(1),
        }
    }
}

impl Claim {
    pub fn as_ref<'a>(&'a self) -> ClaimRef<'a>
        ensures { lent_claim result ≡ self.now }
    {
        match self {
            Claim::NoWorld { class, a, b } => ClaimRef::NoWorld {
                class: *class,
                a: *a,
                b: *b,
            },
            Claim::Scheduled {
                k,
                schedule,
                words,
                places,
            } => ClaimRef::Scheduled {
                k: *k,
                schedule,
                words,
                places,
            },
            Claim::Missing { k } => ClaimRef::Missing { k: *k },
            Claim::SpentConflicts { k, lemmas } => ClaimRef::SpentConflicts { k: *k, lemmas },
            Claim::SpentSize { k, vars, clauses } => ClaimRef::SpentSize {
                k: *k,
                vars: *vars,
                clauses: *clauses,
            },
        }
    }
}

impl Claimed {
    pub fn as_ref<'a>(&'a self) -> ClaimedRef<'a>
        ensures { lent_claimed result ≡ self.now }
    {
        ClaimedRef {
            name: &self.name,
            graph: self.graph.as_ref(),
            rounds: self.rounds,
            stop: self.stop,
            claim: self.claim.as_ref(),
            refute: self.refute.as_ref(),
        }
    }
}
