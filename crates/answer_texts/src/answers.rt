// What the text of an answer says: of each goal its graph, what is claimed of it, and the lines that are to show it.
use axiom_library::Library;
use cnf_core::Lines;
use graph_meaning::{LaunchGraph, Stop};
use items::Items;
use machine_table::Table;
use register_assign::Where;
use schedule_meaning::Schedule;
use text_core::Name;

/// What is claimed of a goal.
#[derive(Drop)]
pub enum Claim {
    /// The different constants `a` and `b` would be in one class.
    NoWorld {
        class: u32,
        a: u64,
        b: u64,
    },
    /// The launches fit in `k` cycles; `words` are their instruction words, and `places` the registers of the targets.
    Scheduled {
        k: u32,
        schedule: Schedule,
        words: Items<u32>,
        places: Items<Where>,
    },
    /// No schedule fits in `k` cycles.
    Missing {
        k: u32,
    },
    /// The solver spent its budget on the clauses for `k` cycles, and found these lemmas.
    SpentConflicts {
        k: u32,
        lemmas: Lines,
    },
    /// The formula for `k` cycles is too large: it would have `vars` variables and `clauses` clauses.
    SpentSize {
        k: u32,
        vars: u64,
        clauses: u64,
    },
}

/// What an answer says of one goal. If the claim is that the goal has no world, there is no graph, and `rounds` and
/// `stop` are 0 and quiet. `refute` are lines that are to refute the clauses for `k` cycles, in the claim of a missing
/// schedule, or for one cycle less than `k`, in every other claim with a `k`; there are none for fewer than 0 cycles.
pub struct Claimed {
    pub name: Name,
    pub graph: Option<LaunchGraph>,
    pub rounds: u32,
    pub stop: Stop,
    pub claim: Claim,
    pub refute: Option<Lines>,
}

// By hand, so that it is proved here alone: a derived one is proved in each crate that drops a claim.
impl Drop for Claimed {
    fn drop(self) {
        let Claimed {
            name: _name,
            graph: _graph,
            rounds: _rounds,
            stop: _stop,
            claim: _claim,
            refute: _refute,
        } = self;
    }
}

/// What the text of an answer says. In version 1 the encoding of the clauses is 1 or 2; in version 2 it is 3, and in
/// version 3 it is 4, and in both targets may have pins. `library` are the families whose rules served the goals
/// beside those of their text.
#[derive(Drop)]
pub struct AnswerText {
    pub version: u8,
    pub encoding: u8,
    pub table: Table,
    pub builtin: bool,
    pub library: Library,
    pub goals: Items<Claimed>,
}
