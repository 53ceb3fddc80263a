// A schedule that is to have the fewest launches, and what stands beside it.
use cnf_core::Lines;
use register_assign::Listing;
use schedule_meaning::Schedule;

/// What stands beside a schedule that fits, of whether one with fewer launches fits in as many cycles.
#[derive(Drop)]
pub enum Proof {
    /// The schedule has no launches.
    None,
    /// Lines that refute the clauses for one launch fewer: no schedule has fewer.
    Refuted(Lines),
    /// The lemmas that the solver found for one launch fewer until its budget was spent.
    Spent(Lines),
    /// The counts of the variables and clauses for one launch fewer, one of which passes its limit.
    Size { vars: u64, clauses: u64 },
}

/// A schedule with its listing, and what stands beside it.
#[derive(Drop)]
pub struct Least {
    pub schedule: Schedule,
    pub listing: Listing,
    pub proof: Proof,
}
