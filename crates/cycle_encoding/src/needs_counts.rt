// How many clauses say that launches see their operands where sets may have pins.
ghost use Rattle.std.specs.Prelude.{◌≡◌, ◌*◌, ◌<◌, ◌≤◌, ◌^◌, false, slice_get};
ghost use Rattle.std.specs.Option.{option_map_or};
ghost use Rattle.std.specs.List.{count_by, sum_by};
ghost use Rattle.graph_meaning.specs.WellFormed.{IsLaunchGraph};
ghost use Rattle.schedule_meaning.specs.Launches.{operands_at, pin_of};
ghost use Rattle.schedule_meaning.specs.Readers.{operand_of};
ghost use Rattle.schedule_meaning.specs.declared.schedules.To.TheVariants.{Set as SetTo};
ghost use Rattle.cycle_encoding.specs.Framed.{IsFrame, over};
ghost use Rattle.cycle_encoding.specs.Counts as counts;
ghost use Rattle.cycle_encoding.specs.Families as families;
ghost use Rattle.cycle_encoding.specs.Variables as variables;

use crate::counts::row_count;
use crate::reaching::takes;
use crate::{Facts, Frame};
use machine_table::InstrKind;
use schedule_meaning::{Allocation, To, class_at, gives_word, operand_at, operand_count, pin_of};

/// Whether some input of the class has the register.
fn is_input_at(facts: &Facts, class: u32, register: u8) -> bool
    ensures { result ≡ families.is_input_at facts.now class register }
{
    facts
        .graph()
        .inputs
        .as_slice()
        .iter()
        .any(|input| input.class == class && input.reg == register)
}

/// Whether a launch with this destination itself writes the register of an input of the class.
pub fn reads_own(facts: &Facts, to: To, class: u32) -> bool
    ensures { result ≡ option_map_or (families.is_input_at facts.now class) (pin_of facts.now to) false }
{
    match pin_of(facts.graph(), to) {
        Some(pin) => is_input_at(facts, class, pin),
        None => false,
    }
}

/// Whether the set is pinned to the register of an input of the class.
pub fn takes_input(facts: &Facts, class: u32, set: u32) -> bool
    ensures { result ≡ families.takes_input facts.now class set }
{
    reads_own(facts, To::Set(set), class)
}

/// Whether a launch with this destination needs a clause for an operand: it has to be made by a launch, or read before an
/// input's register is overwritten.
pub fn needs_clause(facts: &Facts, to: To, class: u32, second: bool) -> bool
    ensures { result ≡ counts.needs_clause facts.now to (operand_of class second) }
{
    !facts.is_free(class, second) && !facts.is_safe(class) && !reads_own(facts, to, class)
}

/// Whether the operand at a place needs a clause, as a number.
fn need_at(facts: &Facts, to: To, row: u32, at: usize) -> u64
    ensures value { result ≡ option_map_or (λ o. counts.one_if (counts.needs_clause facts.now to o))
        (slice_get (operands_at facts.now row) at) 0 }
    ensures few { result ≤ 1 }
{
    match operand_at(facts.graph(), row, at) {
        Some(operand) => u64::from(needs_clause(facts, to, operand.class, operand.second)),
        None => 0,
    }
}

/// How many operands of a row need a clause for launches with this destination.
fn needed_count(facts: &Facts, to: To, row: u32) -> u64
    requires graph { IsLaunchGraph facts.now }
    ensures value { result ≡ count_by (counts.needs_clause facts.now to) (operands_at facts.now row) }
    ensures few { result ≤ 4 }
{
    let mut count = 0;
    for at in 0..operand_count(facts.graph(), row) {
        count += need_at(facts, to, row, at);
    }
    count
}

/// The same for those of all pinned sets.
fn set_needs(facts: &Facts, allocation: Allocation, instr: InstrKind, class: u32, row: u32) -> u64
    requires graph { IsLaunchGraph facts.now }
    ensures value { result ≡ sum_by (λ j. counts.one_if (variables.takes facts.now allocation instr class j) * count_by
        (counts.needs_clause facts.now (SetTo j)) (operands_at facts.now row)) (variables.pinned_sets facts.now) }
    ensures few { result ≤ 124 }
{
    let mut count = 0;
    for set in facts.pins() {
        if takes(facts, allocation, instr, class, *set) {
            count += needed_count(facts, To::Set(*set), row);
        }
    }
    count
}

/// How many operands of a row need a clause, for all its destinations.
#[tactic(auto, using(crate::proofs::RowPlaces::sum_all, crate::proofs::RowPlaces::sum_pool, crate::proofs::RowPlaces::sum_none))]
fn row_needs(facts: &Facts, allocation: Allocation, row: u32) -> u64
    requires graph { IsLaunchGraph facts.now }
    ensures value { result ≡ sum_by (λ to. count_by (counts.needs_clause facts.now to) (operands_at facts.now row))
        (counts.row_destinations facts.now allocation row) }
    ensures few { result ≤ 128 }
{
    let Some(instr) = facts.instr_at(row) else {
        return 0;
    };
    let own = needed_count(facts, To::Pool, row);
    if !gives_word(Some(instr)) {
        return own;
    }
    let class = class_at(facts.graph(), row);
    own + set_needs(facts, allocation, instr, class, row)
}

/// How many clauses say that launches see their operands.
#[tactic(auto, using(crate::proofs::Tallies::sum_more))]
pub fn needs_count(frame: &Frame) -> u64
    requires frame { IsFrame frame.now }
    ensures value { result ≡ over frame.now counts.sum_destined
        (λ row to. count_by (counts.needs_clause frame.now.facts.now to) (operands_at frame.now.facts.now row)) }
    ensures few { result < 2 ^ 46 }
{
    let mut count = 0;
    for row in 0..frame.facts.row_numbers() {
        count += row_count(frame.facts, frame.table, frame.scope, frame.k, row)
            * row_needs(frame.facts, frame.scope.allocation(), row);
    }
    count
}
