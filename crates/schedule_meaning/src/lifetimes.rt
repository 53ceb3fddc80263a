// How long launches keep their registers of the pool.
ghost use Rattle.std.specs.Prelude.{◌≡◌, ◌↔◌, IsTrue, count_by, false, slice_get};
ghost use Rattle.std.specs.Option.{option_map_or};
ghost use Rattle.std.specs.List.{list_any};
ghost use Rattle.schedule_meaning.specs.Launches as launches;
ghost use Rattle.schedule_meaning.specs.Lifetimes as lifetimes;
ghost use Rattle.schedule_meaning.specs.Fits as rules;
ghost use Rattle.schedule_meaning.specs.declared.schedules.Allocation.TheVariants.{Live};

use crate::lookups::{class_at, instr_at, takes_pool};
use crate::operands::{is_free, operand_at, operand_count};
use crate::readers::input_for;
use crate::schedules::{Allocation, Launch};
use graph_meaning::{LaunchGraph, SetClass};

/// Whether the operand at a place of a row's number is of the class, and needs a register.
fn reads_class_at(graph: &LaunchGraph, class: u32, row: u32, at: usize) -> bool
    ensures { result ≡ option_map_or (lifetimes.is_operand_of graph.now class)
        (slice_get (launches.operands_at graph.now row) at) false }
{
    match operand_at(graph, row, at) {
        Some(operand) => operand.class == class && !is_free(graph, operand),
        None => false,
    }
}

/// Whether the launch reads the class's word in a register.
fn reads_class(graph: &LaunchGraph, class: u32, launch: Launch) -> bool
    ensures { result ≡ lifetimes.reads_class graph.now class launch }
{
    for at in 0..operand_count(graph, launch.row) {
        if reads_class_at(graph, class, launch.row, at) {
            return true;
        }
    }
    false
}

/// Whether some launch in the cycle or later, the branch included, reads the class.
fn is_read_from(graph: &LaunchGraph, list: &[Launch], cycle: u32, class: u32) -> bool
    ensures { result ≡ lifetimes.is_read_from graph.now list.now cycle class }
{
    for launch in list {
        if launch.cycle >= cycle && reads_class(graph, class, *launch) {
            return true;
        }
    }
    false
}

/// Whether the set is a word target of the class, without a pin.
fn is_unpinned_of(class: u32, set: &SetClass) -> bool
    ensures { result ≡ lifetimes.is_unpinned_of class set.now }
{
    set.class == class && !set.is_memory() && set.pin.is_none()
}

fn has_unpinned_of(graph: &LaunchGraph, class: u32) -> bool
    ensures { result ≡ list_any (lifetimes.is_unpinned_of class) graph.now.sets }
{
    for set in graph.sets.as_slice() {
        if is_unpinned_of(class, set) {
            return true;
        }
    }
    false
}

/// Whether the class is that of a word target that is in a register of the pool at the end: it has no pin, and is
/// neither the zero class nor of an input whose register no launch writes.
fn is_wanted(graph: &LaunchGraph, list: &[Launch], class: u32) -> bool
    ensures { result ≡ lifetimes.is_wanted graph.now list.now class }
{
    has_unpinned_of(graph, class)
        && !graph.is_zero_class(class)
        && input_for(graph, list, None, class).is_none()
}

/// Whether the class is needed at a cycle: some launch in the cycle or later reads it, or a target is in its register
/// at the end. It looks at each launch's operands, and for the class of a target at the sets and inputs.
pub fn is_needed(graph: &LaunchGraph, list: &[Launch], cycle: u32, class: u32) -> bool
    ensures { result ≡ lifetimes.is_needed graph.now list.now cycle class }
{
    is_read_from(graph, list, cycle, class) || is_wanted(graph, list, class)
}

/// Whether the launch holds a register of the pool at a cycle: at each; or at its own, and at each later one at which
/// its class is needed.
pub fn holds(
    graph: &LaunchGraph,
    allocation: Allocation,
    list: &[Launch],
    cycle: u32,
    launch: Launch,
) -> bool
    ensures { result ≡ lifetimes.holds graph.now allocation list.now cycle launch }
{
    if !takes_pool(launch, instr_at(graph, launch.row)) {
        return false;
    }
    match allocation {
        Allocation::Block => true,
        Allocation::Live => {
            launch.cycle == cycle
                || (launch.cycle < cycle
                    && is_needed(graph, list, cycle, class_at(graph, launch.row)))
        }
    }
}

/// How many launches hold a register of the pool at a cycle, by live ranges.
fn held_at(graph: &LaunchGraph, list: &[Launch], cycle: u32) -> usize
    ensures { result ≡ count_by (lifetimes.holds graph.now Live list.now cycle) list.now }
{
    let mut count = 0;
    for launch in list {
        if holds(graph, Allocation::Live, list, cycle, *launch) {
            count += 1;
        }
    }
    count
}

/// Whether in each cycle below k the pool has a register for each launch that holds one.
pub(crate) fn has_room_in_each(graph: &LaunchGraph, k: u32, list: &[Launch]) -> bool
    ensures { IsTrue result ↔ rules.HasRoom graph.now Live k list.now }
{
    for cycle in 0..k {
        if held_at(graph, list, cycle) > graph.pool.len() {
            return false;
        }
    }
    true
}
