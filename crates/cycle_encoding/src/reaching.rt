// Where launches of a row may go.
ghost use Rattle.std.specs.Prelude.{◌≡◌, ◌+◌, ◌≤◌, ◌++◌, ◌*◌, ◌&&◌, false, length, map, IfOk, OnOk};
ghost use Rattle.std.specs.Option.{option_map_or};
ghost use Rattle.graph_meaning.specs.Graphs.{is_input_register};
ghost use Rattle.std.specs.List.{sum_by};
ghost use Rattle.schedule_meaning.specs.Launches as launches;
ghost use Rattle.cycle_encoding.specs.Counts.{one_if, row_is};
ghost use Rattle.cycle_encoding.specs.Counts.{row_destinations};
ghost use Rattle.cycle_encoding.specs.Variables as variables;

use crate::Facts;
use crate::sizes::is_overwriting;
use items::NoMemory;
use machine_table::InstrKind;
use schedule_meaning::{Allocation, To, class_at, gives_word, is_load};
use std::alloc::Global;

/// Whether a word of the instruction may go to the pin: by live ranges alone where the instruction is a load and the pin
/// an input's register.
fn takes_pin(facts: &Facts, allocation: Allocation, instr: InstrKind, pin: u8) -> bool
    ensures { result ≡ variables.takes_pin facts.now allocation instr pin }
{
    match allocation {
        Allocation::Block => !(is_load(Some(instr)) && facts.graph().is_input_register(pin)),
        Allocation::Live => true,
    }
}

/// Whether the set of this number is pinned and takes a word of the class from the instruction.
pub fn takes(
    facts: &Facts,
    allocation: Allocation,
    instr: InstrKind,
    class: u32,
    number: u32,
) -> bool
    ensures { result ≡ variables.takes facts.now allocation instr class number }
{
    match facts.graph().sets.as_slice().get(number as usize) {
        Some(set) => match set.pin {
            Some(pin) => set.class == class && takes_pin(facts, allocation, instr, pin),
            None => false,
        },
        None => false,
    }
}

/// Where launches of a row's number may go: to the pool, and where the row gives a word, to each pinned set that takes
/// it, in order.
pub fn destinations(
    alloc: Global,
    facts: &Facts,
    allocation: Allocation,
    row: u32,
) -> Result<Vec<To>, NoMemory>
    ensures value { IfOk result (λ tos. tos.items ≡ row_destinations facts.now allocation row) }
    ensures few { IfOk result (λ tos. length tos.items ≤ 32) }
{
    let mut tos = Vec::new(alloc);
    let Some(instr) = facts.instr_at(row) else {
        return Ok(tos);
    };
    tos.push(To::Pool)?;
    if !gives_word(Some(instr)) {
        return Ok(tos);
    }
    let class = class_at(facts.graph(), row);
    for set in facts.pins() {
        if takes(facts, allocation, instr, class, *set) {
            tos.push(To::Set(*set))?;
        }
    }
    Ok(tos)
}

/// How many destinations launches of a row have; in the time of one look at each pin.
#[tactic(auto, using(crate::proofs::RowPlaces::count_is, crate::proofs::RowPlaces::count_one, crate::proofs::RowPlaces::count_none))]
pub fn destination_count(facts: &Facts, allocation: Allocation, row: u32) -> u64
    ensures value { result ≡ length (row_destinations facts.now allocation row) }
    ensures few { result ≤ 32 }
{
    let Some(instr) = facts.instr_at(row) else {
        return 0;
    };
    if !gives_word(Some(instr)) {
        return 1;
    }
    let class = class_at(facts.graph(), row);
    let mut count = 1;
    for set in facts.pins() {
        count += u64::from(takes(facts, allocation, instr, class, *set));
    }
    count
}

/// How many destinations of a row are the set of this number: one, if the row gives a word that the set takes.
#[tactic(auto, using(crate::proofs::Going::goes_is, crate::proofs::Going::goes_not, crate::proofs::Going::goes_none))]
pub fn goes(facts: &Facts, allocation: Allocation, row: u32, set: u32) -> u64
    ensures value { result
        ≡ sum_by (λ to. one_if (launches.is_set set to)) (row_destinations facts.now allocation row) }
    ensures few { result ≤ 1 }
{
    let Some(instr) = facts.instr_at(row) else {
        return 0;
    };
    if !gives_word(Some(instr)) {
        return 0;
    }
    let class = class_at(facts.graph(), row);
    u64::from(takes(facts, allocation, instr, class, set))
}

/// How many destinations of a row are the pool: one, and counted where the row gives a word.
#[tactic(auto, using(crate::proofs::Going::pool_all))]
pub fn takes_register(facts: &Facts, _allocation: Allocation, row: u32) -> u64
    ensures value { result ≡ sum_by (λ to. one_if (launches.is_pool to && row_is facts.now launches.gives_word row))
        (row_destinations facts.now _allocation row) }
    ensures few { result ≤ 1 }
{
    if gives_word(facts.instr_at(row)) {
        1
    } else {
        0
    }
}

/// How many destinations of a row overwrite an input's register.
pub fn late(facts: &Facts, allocation: Allocation, row: u32) -> u64
    ensures value { result ≡ sum_by (λ to. one_if (option_map_or (is_input_register facts.now)
        (launches.pin_of facts.now to) false)) (row_destinations facts.now allocation row) }
    ensures few { result ≤ 31 }
{
    let Some(instr) = facts.instr_at(row) else {
        return 0;
    };
    if !gives_word(Some(instr)) {
        return 0;
    }
    let class = class_at(facts.graph(), row);
    let mut count = 0;
    for set in facts.pins() {
        count += u64::from(
            takes(facts, allocation, instr, class, *set) && is_overwriting(facts, *set),
        );
    }
    count
}
