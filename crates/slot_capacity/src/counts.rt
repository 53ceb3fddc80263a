// How many variables and clauses capacity has, found row by row before any clause is.
ghost use Rattle.std.specs.Prelude.{◌≡◌, ◌-◌, ◌+◌, ◌*◌, ◌<◌, ◌≤◌, ◌^◌, All, length};
ghost use Rattle.std.specs.List.{sum_by};
ghost use Rattle.schedule_meaning.specs.Limits.{most_cycles};
ghost use Rattle.cnf_core.specs.Counter as counter;
ghost use Rattle.cycle_encoding.specs.Framed.{IsFrame, over};
ghost use Rattle.slot_capacity.specs.CapacityCounts as counts;
ghost use Rattle.slot_capacity.specs.CapacityCounts.{IsSmall};

use crate::clauses::{last_counted, makes_own};
use crate::deadlines::Deadline;
use crate::limits::{Capacity, Limit};
use cycle_encoding::{Frame, Sizes, destination_count, slot_count};
use schedule_meaning::class_at;

/// How many launches of a row's number, to one destination, there are up to a cycle.
#[tactic(auto, using(crate::proofs::RowCounts::counted_to, crate::proofs::RowCounts::none_counted_first, crate::proofs::RowCounts::none_counted_use, crate::proofs::RowCounts::none_counted_instr))]
fn row_count_up_to(frame: &Frame, last: u32, row: u32) -> u64
    requires frame { IsFrame frame.now }
    ensures value { result ≡ over frame.now counts.row_count_up_to last row }
    ensures few { result ≤ 200 }
{
    let Some(instr) = frame.facts.instr_at(row) else {
        return 0;
    };
    let Some(latency) = frame.table.latency(instr) else {
        return 0;
    };
    let Some(first) = frame.scope.first(row) else {
        return 0;
    };
    let ends = u64::from((frame.k + 1).saturating_sub(latency));
    let cycles = ends
        .min(u64::from(last) + 1)
        .saturating_sub(u64::from(first));
    slot_count(frame.table, instr) * cycles
}

/// How many of them make a counted class by its last cycle.
fn row_made(frame: &Frame, counted: &[Deadline], row: u32) -> u64
    requires frame { IsFrame frame.now }
    ensures value { result ≡ over frame.now counts.row_made counted.now row }
    ensures few { result ≤ 200 }
{
    if !makes_own(frame.facts, row) {
        return 0;
    }
    match last_counted(counted, class_at(frame.facts.graph(), row)) {
        Some(last) => row_count_up_to(frame, last, row),
        None => 0,
    }
}

/// How many launches do.
fn made_count(frame: &Frame, counted: &[Deadline]) -> u64
    requires frame { IsFrame frame.now }
    ensures value { result ≡ over frame.now counts.made_count counted.now }
    ensures few { result < 2 ^ 45 }
{
    let mut count = 0;
    for row in 0..frame.facts.row_numbers() {
        count += row_made(frame, counted, row)
            * destination_count(frame.facts, frame.scope.allocation(), row);
    }
    count
}

/// How many cycles there are from the first of a class to its last.
fn cycle_count(one: Deadline) -> u64
    requires { one.last ≤ most_cycles }
    ensures value { result ≡ one.last + 1 - one.first }
    ensures few { result ≤ 25 }
{
    (u64::from(one.last) + 1).saturating_sub(u64::from(one.first))
}

/// How many of them have one before.
fn later_count(one: Deadline) -> u64
    requires { one.last ≤ most_cycles }
    ensures value { result ≡ one.last - one.first }
    ensures few { result ≤ 24 }
{
    u64::from(one.last.saturating_sub(one.first))
}

/// How many cycles there are from the first of each class to its last.
fn launched_count(counted: &[Deadline]) -> u64
    requires few { length counted.now < 2 ^ 30 }
    requires early { All (λ x. x.last ≤ most_cycles) counted.now }
    ensures value { result ≡ sum_by (λ x. x.last + 1 - x.first) counted.now }
    ensures few { result < 2 ^ 36 }
{
    let mut count = 0;
    for one in counted {
        count += cycle_count(*one);
    }
    count
}

/// How many of them have one before.
fn stay_count(counted: &[Deadline]) -> u64
    requires few { length counted.now < 2 ^ 30 }
    requires early { All (λ x. x.last ≤ most_cycles) counted.now }
    ensures value { result ≡ sum_by (λ x. x.last - x.first) counted.now }
    ensures few { result < 2 ^ 36 }
{
    let mut count = 0;
    for one in counted {
        count += later_count(*one);
    }
    count
}

/// How many variables a counter up to `most` takes over so many literals. More classes can be due than a formula has
/// variables, so that the counts of the counters that are built don't serve.
fn counter_vars(most: u64, literals: u64) -> u64
    requires few { literals < 2 ^ 30 }
    requires most { most ≤ 200 }
    ensures value { result ≡ counter.at_most_vars most literals }
    ensures few { result < 2 ^ 40 }
{
    if literals <= most {
        return 0;
    }
    (literals - 1) * most
}

/// How many clauses it has.
fn counter_clauses(most: u64, literals: u64) -> u64
    requires few { literals < 2 ^ 30 }
    requires most { most ≤ 200 }
    ensures value { result ≡ counter.at_most_size most literals }
    ensures few { result < 2 ^ 40 }
{
    if literals <= most {
        return 0;
    }
    if most == 0 {
        return literals;
    }
    let last = literals - 1;
    last + (last - 1) * most + (last - 1) * (most - 1) + last
}

/// The counts of a limit's counter.
fn limit_sizes(limit: &Limit) -> Sizes
    requires due { length limit.now.due < 2 ^ 30 }
    requires most { limit.now.most ≤ 200 }
    ensures vars { result.vars ≡ counter.at_most_vars limit.now.most (length limit.now.due) }
    ensures clauses { result.clauses ≡ counter.at_most_size limit.now.most (length limit.now.due) }
    ensures few_vars { result.vars < 2 ^ 40 }
    ensures few_clauses { result.clauses < 2 ^ 40 }
{
    let most = u64::from(limit.most);
    let literals = limit.due.as_slice().len() as u64;
    Sizes {
        vars: counter_vars(most, literals),
        clauses: counter_clauses(most, literals),
    }
}

/// The counts of all counters.
fn limits_sizes(limits: &[Limit]) -> Sizes
    requires few { length limits.now < 2 ^ 16 }
    requires due { All (λ m. length m.due < 2 ^ 30) limits.now }
    requires most { All (λ m. m.most ≤ 200) limits.now }
    ensures vars { result.vars ≡ sum_by (λ m. counter.at_most_vars m.most (length m.due)) limits.now }
    ensures clauses { result.clauses ≡ sum_by (λ m. counter.at_most_size m.most (length m.due)) limits.now }
    ensures few_vars { result.vars < 2 ^ 56 }
    ensures few_clauses { result.clauses < 2 ^ 56 }
{
    let mut vars = 0;
    let mut clauses = 0;
    for limit in limits {
        let sizes = limit_sizes(limit);
        vars += sizes.vars;
        clauses += sizes.clauses;
    }
    Sizes { vars, clauses }
}

/// The counts of capacity.
pub fn capacity_sizes(frame: &Frame, capacity: &Capacity) -> Sizes
    requires frame { IsFrame frame.now }
    requires small { IsSmall capacity.now }
    ensures vars { result.vars ≡ over frame.now counts.capacity_vars capacity.now }
    ensures clauses { result.clauses ≡ over frame.now counts.capacity_size capacity.now }
    ensures few_vars { result.vars < 2 ^ 60 }
    ensures few_clauses { result.clauses < 2 ^ 60 }
{
    let counted = capacity.counted.as_slice();
    let limits = limits_sizes(capacity.limits.as_slice());
    Sizes {
        vars: launched_count(counted) + limits.vars,
        clauses: made_count(frame, counted)
            + stay_count(counted)
            + counted.len() as u64
            + limits.clauses,
    }
}
