// What a single line of an answer says, where it decides what may stand behind it.
use crate::answers::Claim;
use cnf_core::Lines;
use graph_meaning::{LaunchGraph, Stop};

/// The first line of a table.
#[derive(Clone, Copy)]
pub(crate) enum TableLine {
    BuiltIn,
    Own,
}

/// The line behind a goal's name.
#[derive(Clone, Copy)]
pub(crate) enum BodyLine {
    NoWorld { class: u32, a: u64, b: u64 },
    Rounds { rounds: u32, stop: Stop },
}

/// The first line of a claim.
#[derive(Clone, Copy)]
pub(crate) enum ClaimLine {
    Scheduled { k: u32 },
    Missing { k: u32 },
    Conflicts { k: u32 },
    Size { k: u32, vars: u64, clauses: u64 },
}

/// What stands between a goal's name and its end.
#[derive(Drop)]
pub(crate) struct Body {
    pub(crate) graph: Option<LaunchGraph>,
    pub(crate) rounds: u32,
    pub(crate) stop: Stop,
    pub(crate) claim: Claim,
    pub(crate) refute: Option<Lines>,
}
