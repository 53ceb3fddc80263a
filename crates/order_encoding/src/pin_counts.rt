// The counts of pins, found row by row before any clause is.
ghost use Rattle.std.specs.Prelude.{◌≡◌, ◌+◌, ◌*◌, ◌<◌, ◌≤◌, ◌^◌, ◌&&◌, length};
ghost use Rattle.std.specs.List.{sum_by};
ghost use Rattle.cnf_core.specs.Counter as counter;
ghost use Rattle.schedule_meaning.specs.Launches as launches;
ghost use Rattle.cycle_encoding.specs.Framed.{IsFrame, over};
ghost use Rattle.cycle_encoding.specs.Counts.{one_if, row_is};
ghost use Rattle.cycle_encoding.specs.Counts.{row_destinations};
ghost use Rattle.cycle_encoding.specs.Variables as variables;
ghost use Rattle.order_encoding.specs.PinFamilies as families;
ghost use Rattle.order_encoding.specs.OrderCounts as counts;
ghost use Rattle.order_encoding.specs.OrderSteps.{set_size};

use crate::tallies::{Tally, tally_all};
use cycle_encoding::{Facts, Frame, Sizes, is_overwriting, late, one_size, one_vars, takes_input};
use schedule_meaning::{Allocation, is_load};

/// How many destinations of a row overwrite an input's register, if it is a load.
pub fn over_loads(facts: &Facts, allocation: Allocation, row: u32) -> u64
    ensures value { result
        ≡ sum_by (λ to. one_if (row_is facts.now launches.is_load row && counts.overwrites_at facts.now to))
        (row_destinations facts.now allocation row) }
    ensures few { result ≤ 31 }
{
    if is_load(facts.instr_at(row)) {
        late(facts, allocation, row)
    } else {
        0
    }
}

/// The counts of one pinned set: its counter, the clauses of what it overwrites, and that a launch goes to it.
fn set_sizes(frame: &Frame, set: u32) -> Sizes
    requires frame { IsFrame frame.now }
    ensures vars { result.vars ≡ counter.at_most_vars 1 (over frame.now counts.goes_count set) }
    ensures clauses { result.clauses ≡ over frame.now set_size set }
    ensures few_vars { result.vars < 2 ^ 46 }
    ensures few_clauses { result.clauses < 2 ^ 49 }
{
    let literals = tally_all(frame, Tally::Goes(set));
    let mut clauses = one_size(literals);
    if is_overwriting(frame.facts, set) {
        clauses += literals + u64::from(frame.k);
    }
    if !has_own_input(frame.facts, set) {
        clauses += 1;
    }
    Sizes {
        vars: one_vars(literals),
        clauses,
    }
}

/// Whether an input of the set's class has its pin, so that no launch need go to it.
pub fn has_own_input(facts: &Facts, set: u32) -> bool
    ensures { result ≡ families.has_own_input facts.now set }
{
    match facts.graph().sets.as_slice().get(set as usize) {
        Some(found) => takes_input(facts, found.class, set),
        None => false,
    }
}

/// The counts of all pinned sets.
fn sets_sizes(frame: &Frame) -> Sizes
    requires frame { IsFrame frame.now }
    ensures vars { result.vars ≡ over frame.now counts.pins_vars }
    ensures clauses { result.clauses ≡ sum_by (over frame.now set_size) (variables.pinned_sets frame.now.facts.now) }
    ensures few_vars { result.vars < 2 ^ 51 }
    ensures few_clauses { result.clauses < 2 ^ 54 }
{
    let mut vars = 0;
    let mut clauses = 0;
    for set in frame.facts.pins() {
        let sizes = set_sizes(frame, *set);
        vars += sizes.vars;
        clauses += sizes.clauses;
    }
    Sizes { vars, clauses }
}

/// The counts of pins.
#[tactic(auto, using(crate::proofs::DestinedSteps::sizes_are))]
pub fn pins_sizes(frame: &Frame) -> Sizes
    requires frame { IsFrame frame.now }
    ensures vars { result.vars ≡ over frame.now counts.pins_vars }
    ensures clauses { result.clauses ≡ over frame.now counts.pins_size }
    ensures few_vars { result.vars < 2 ^ 51 }
    ensures few_clauses { result.clauses < 2 ^ 55 }
{
    let sizes = sets_sizes(frame);
    let late = if frame.facts.graph().guard.is_some() {
        tally_all(frame, Tally::Late)
    } else {
        0
    };
    Sizes {
        vars: sizes.vars,
        clauses: sizes.clauses + late + tally_all(frame, Tally::OverLoads),
    }
}
