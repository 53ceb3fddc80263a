// The counts of launches and of counters over slots and cycles, found row by row before any clause is.
ghost use Rattle.std.specs.Prelude.{◌≡◌, ◌+◌, ◌*◌, ◌<◌, ◌≤◌, ◌^◌, length};
ghost use Rattle.std.specs.List.{range_with_len, sum_by};
ghost use Rattle.cnf_core.specs.Counter as counter;
ghost use Rattle.cycle_encoding.specs.Framed.{IsFrame, over};
ghost use Rattle.cycle_encoding.specs.Counts as counts;

use crate::Frame;
use crate::counts::{Sizes, one_size, one_vars, row_count, row_has};
use crate::reaching::destination_count;

/// How many launches there are.
#[tactic(auto, using(crate::proofs::Tallies::sum_more))]
pub fn launch_count(frame: &Frame) -> u64
    requires frame { IsFrame frame.now }
    ensures value { result ≡ over frame.now counts.sum_destined (λ row to. 1) }
    ensures few { result < 2 ^ 45 }
{
    let mut count = 0;
    for row in 0..frame.facts.row_numbers() {
        count += row_count(frame.facts, frame.table, frame.scope, frame.k, row)
            * destination_count(frame.facts, frame.scope.allocation(), row);
    }
    count
}

/// How many launches there are in a slot and cycle.
#[tactic(auto, using(crate::proofs::Tallies::sum_more))]
fn destined_at(frame: &Frame, slot: u32, cycle: u32) -> u64
    requires frame { IsFrame frame.now }
    ensures value { result ≡ over frame.now counts.destined_at slot cycle }
    ensures few { result < 2 ^ 37 }
{
    let mut count = 0;
    for row in 0..frame.facts.row_numbers() {
        if row_has(frame, slot, cycle, row) {
            count += destination_count(frame.facts, frame.scope.allocation(), row);
        }
    }
    count
}

/// The counts of the counters of a slot.
#[tactic(auto, using(crate::proofs::Tallies::sum_more))]
fn slot_sizes(frame: &Frame, slot: u32) -> Sizes
    requires frame { IsFrame frame.now }
    ensures vars { result.vars ≡ sum_by (λ t. counter.at_most_vars 1 (over frame.now counts.destined_at slot t))
        (range_with_len 0 frame.now.k) }
    ensures clauses { result.clauses ≡ sum_by (λ t. counter.at_most_size 1 (over frame.now counts.destined_at slot t))
        (range_with_len 0 frame.now.k) }
    ensures few_vars { result.vars < 2 ^ 42 }
    ensures few_clauses { result.clauses < 2 ^ 44 }
{
    let mut vars = 0;
    let mut clauses = 0;
    for cycle in 0..frame.k {
        let literals = destined_at(frame, slot, cycle);
        vars += one_vars(literals);
        clauses += one_size(literals);
    }
    Sizes { vars, clauses }
}

/// The counts of the counters of all slots.
#[tactic(auto, using(crate::proofs::Tallies::sum_more))]
pub fn place_sizes(frame: &Frame) -> Sizes
    requires frame { IsFrame frame.now }
    ensures vars { result.vars ≡ over frame.now counts.sum_places
        (λ s t. counter.at_most_vars 1 (over frame.now counts.destined_at s t)) }
    ensures clauses { result.clauses ≡ over frame.now counts.sum_places
        (λ s t. counter.at_most_size 1 (over frame.now counts.destined_at s t)) }
    ensures few_vars { result.vars < 2 ^ 46 }
    ensures few_clauses { result.clauses < 2 ^ 48 }
{
    let mut vars = 0;
    let mut clauses = 0;
    for slot in 0..frame.table.slots.len() as u32 {
        let sizes = slot_sizes(frame, slot);
        vars += sizes.vars;
        clauses += sizes.clauses;
    }
    Sizes { vars, clauses }
}
