// The counts of memory, of a guard's branch, and of registers, found row by row before any clause is.
ghost use Rattle.std.specs.Prelude.{◌≡◌, ◌+◌, ◌*◌, ◌<◌, ◌≤◌, ◌^◌, ◌&&◌, length, IfOk};
ghost use Rattle.std.specs.List.{range_with_len, sum_by};
ghost use Rattle.cnf_core.specs.Counter as counter;
ghost use Rattle.cycle_encoding.specs.Framed.{IsFrame, over};
ghost use Rattle.cycle_encoding.specs.CycleFormula.{allocation_in};
ghost use Rattle.order_encoding.specs.OrderCounts as counts;
ghost use Rattle.order_encoding.specs.PlanOver.{AreFirstSizes};

use crate::counts::{memory_count, other_count, registers, row_stores, times};
use crate::live_counts::live_sizes;
use crate::plans::FirstSizes;
use crate::tallies::{Tally, tally_all};
use cnf_core::{at_most_size, at_most_vars};
use cycle_encoding::{Frame, Sizes, cycle_sizes, destination_count, one_size, one_vars};
use items::NoMemory;
use schedule_meaning::Allocation;
use std::alloc::Global;

/// How many stores may be launched in a cycle.
#[tactic(auto, using(crate::proofs::CountSteps::sum_more))]
fn store_count(frame: &Frame, cycle: u32) -> u64
    requires frame { IsFrame frame.now }
    ensures value { result ≡ over frame.now counts.destined_stores cycle }
    ensures few { result < 2 ^ 39 }
{
    let mut count = 0;
    for row in 0..frame.facts.row_numbers() {
        count += row_stores(frame, cycle, row)
            * destination_count(frame.facts, frame.scope.allocation(), row);
    }
    count
}

/// The counts of the counters of stores.
#[tactic(auto, using(crate::proofs::CountSteps::sum_more))]
fn store_sizes(frame: &Frame) -> Sizes
    requires frame { IsFrame frame.now }
    ensures vars { result.vars ≡ sum_by (λ t. counter.at_most_vars 1 (over frame.now counts.destined_stores t))
        (range_with_len 0 frame.now.k) }
    ensures clauses { result.clauses ≡ sum_by (λ t. counter.at_most_size 1 (over frame.now counts.destined_stores t))
        (range_with_len 0 frame.now.k) }
    ensures few_vars { result.vars < 2 ^ 45 }
    ensures few_clauses { result.clauses < 2 ^ 47 }
{
    let mut vars = 0;
    let mut clauses = 0;
    for cycle in 0..frame.k {
        let literals = store_count(frame, cycle);
        vars += one_vars(literals);
        clauses += one_size(literals);
    }
    Sizes { vars, clauses }
}

/// The counts of memory, of which so many classes are.
fn memory_sizes(frame: &Frame, held: u64) -> Sizes
    requires frame { IsFrame frame.now }
    requires held { held ≡ counts.held_count frame.now.facts.now }
    requires few { held < 2 ^ 32 }
    ensures vars { result.vars ≡ over frame.now counts.memory_vars }
    ensures clauses { result.clauses ≡ over frame.now counts.memory_size }
    ensures few_vars { result.vars < 2 ^ 50 }
    ensures few_clauses { result.clauses < 2 ^ 50 }
{
    let stores = store_sizes(frame);
    Sizes {
        vars: times(frame.k + 1, held)
            + u64::from(frame.k)
            + (times(frame.k + 1, one_vars(held)) + stores.vars),
        clauses: (1 + other_count(frame.facts))
            + tally_all(frame, Tally::Uses)
            + times(frame.k, 1 + held)
            + (times(frame.k + 1, one_size(held)) + stores.clauses)
            + 1,
    }
}

/// The counts of the first two parts.
pub fn first_sizes(frame: &Frame) -> FirstSizes
    requires frame { IsFrame frame.now }
    ensures { AreFirstSizes frame.now result }
{
    let held = memory_count(frame.facts);
    FirstSizes {
        cycle: cycle_sizes(frame),
        memory: memory_sizes(frame, held),
        held: times(frame.k + 1, held),
    }
}

// ---- the branch of a guard

/// The counts of a guard's branch.
pub fn guard_sizes(frame: &Frame) -> Sizes
    requires frame { IsFrame frame.now }
    ensures vars { result.vars ≡ over frame.now counts.guard_vars }
    ensures clauses { result.clauses ≡ over frame.now counts.guard_size }
    ensures few_vars { result.vars < 2 ^ 50 }
    ensures few_clauses { result.clauses < 2 ^ 50 }
{
    if frame.facts.graph().guard.is_none() {
        return Sizes {
            vars: 0,
            clauses: 0,
        };
    }
    let branches = tally_all(frame, Tally::Branches);
    Sizes {
        vars: u64::from(frame.k) + one_vars(branches),
        clauses: 1 + one_size(branches) + tally_all(frame, Tally::Waits) + u64::from(frame.k),
    }
}

// ---- registers

/// The counts of registers that are kept to the end of the block.
pub fn register_sizes(frame: &Frame) -> Sizes
    requires frame { IsFrame frame.now }
    ensures vars { result.vars ≡ over frame.now counts.registers_vars }
    ensures clauses { result.clauses ≡ over frame.now counts.registers_size }
    ensures few_vars { result.vars < 2 ^ 61 }
    ensures few_clauses { result.clauses < 2 ^ 61 }
{
    let taken = frame.table.slots.len() as u32 * frame.k;
    let most = registers(frame.facts.graph(), taken);
    Sizes {
        vars: u64::from(taken) + at_most_vars(most, taken as usize),
        clauses: tally_all(frame, Tally::Takes) + at_most_size(most, taken as usize),
    }
}

/// The counts of registers.
pub fn pool_sizes(alloc: Global, frame: &Frame) -> Result<Sizes, NoMemory>
    requires frame { IsFrame frame.now }
    ensures vars { IfOk result (λ sizes. sizes.vars
        ≡ over frame.now counts.pool_vars (allocation_in frame.now.scope.now)) }
    ensures clauses { IfOk result (λ sizes. sizes.clauses
        ≡ over frame.now counts.pool_size (allocation_in frame.now.scope.now)) }
    ensures few_vars { IfOk result (λ sizes. sizes.vars < 2 ^ 61) }
    ensures few_clauses { IfOk result (λ sizes. sizes.clauses < 2 ^ 62) }
{
    match frame.scope.allocation() {
        Allocation::Block => Ok(register_sizes(frame)),
        Allocation::Live => live_sizes(alloc, frame),
    }
}
