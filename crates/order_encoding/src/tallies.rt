// What is counted launch by launch, and summed over all rows.
ghost use Rattle.std.specs.Prelude.{◌≡◌, ◌<◌, ◌≤◌, ◌^◌};
ghost use Rattle.std.specs.List.{sum_by};
ghost use Rattle.cycle_encoding.specs.Counts.{one_if, row_destinations, sum_destined};
ghost use Rattle.cycle_encoding.specs.Framed.{IsFrame, over};
ghost use Rattle.order_encoding.specs.Tallies.{tallied};

use crate::kinds::{accesses, waits};
use crate::pin_counts::over_loads;
use cycle_encoding::{Facts, Frame, destination_count, goes, late, row_count, takes_register};
use schedule_meaning::{Allocation, is_branch, is_store};

/// What is counted of each launch.
#[derive(Clone, Copy)]
pub enum Tally {
    /// The clauses which say what memory it uses.
    Uses,
    /// Whether it is of the branch.
    Branches,
    /// Whether it waits for the branch.
    Waits,
    /// Whether it takes a register of the pool.
    Takes,
    /// Whether it goes to the set.
    Goes(u32),
    /// Whether it overwrites an input's register.
    Late,
    /// Whether it is a load that does.
    OverLoads,
}

/// How many destinations a row has, if it passes.
fn places_if(facts: &Facts, allocation: Allocation, row: u32, passes: bool) -> u64
    ensures value { result ≡ sum_by (λ to. one_if passes) (row_destinations facts.now allocation row) }
    ensures few { result ≤ 32 }
{
    if passes {
        destination_count(facts, allocation, row)
    } else {
        0
    }
}

/// What is counted of one launch of a row to each of its destinations.
fn tally_of(facts: &Facts, allocation: Allocation, tally: Tally, row: u32) -> u64
    ensures value { result ≡ sum_by (tallied tally facts.now row) (row_destinations facts.now allocation row) }
    ensures few { result ≤ 96 }
{
    let instr = facts.instr_at(row);
    match tally {
        Tally::Uses => {
            places_if(facts, allocation, row, accesses(facts, row))
                + places_if(facts, allocation, row, is_store(instr)) * 2
        }
        Tally::Branches => places_if(facts, allocation, row, is_branch(instr)),
        Tally::Waits => places_if(facts, allocation, row, waits(facts, row)),
        Tally::Takes => takes_register(facts, allocation, row),
        Tally::Goes(set) => goes(facts, allocation, row, set),
        Tally::Late => late(facts, allocation, row),
        Tally::OverLoads => over_loads(facts, allocation, row),
    }
}

/// What is counted of all launches.
pub fn tally_all(frame: &Frame, tally: Tally) -> u64
    requires frame { IsFrame frame.now }
    ensures value { result ≡ over frame.now sum_destined (tallied tally frame.now.facts.now) }
    ensures few { result < 2 ^ 46 }
{
    let mut count = 0;
    for row in 0..frame.facts.row_numbers() {
        count += row_count(frame.facts, frame.table, frame.scope, frame.k, row)
            * tally_of(frame.facts, frame.scope.allocation(), tally, row);
    }
    count
}
