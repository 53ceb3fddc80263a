// Whether launches read the memory that earlier stores leave.
ghost use Rattle.std.specs.Prelude.{◌≡◌, ◌↔◌, ◌≤◌, ◌<◌, IsTrue, length, Some};
ghost use Rattle.graph_meaning.specs.Graphs as graphs;
ghost use Rattle.schedule_meaning.specs.Launches as launches;
ghost use Rattle.schedule_meaning.specs.Fits as rules;
ghost use Rattle.schedule_meaning.specs.Readers.{is_store_below, later_of};
ghost use Rattle.schedule_meaning.specs.Broken.{NoEarlier, KeepsMemoryAt};

use crate::lookups::{class_at, instr_at, is_load, is_store, memory_class_at};
use crate::schedules::Launch;
use graph_meaning::LaunchGraph;

fn is_store_below(graph: &LaunchGraph, cycle: Option<u32>, launch: Launch) -> bool
    ensures { result ≡ is_store_below graph.now cycle launch }
{
    match cycle {
        Some(cycle) => is_store(instr_at(graph, launch.row)) && launch.cycle < cycle,
        None => is_store(instr_at(graph, launch.row)),
    }
}

fn later_of(best: Option<Launch>, launch: Launch) -> Option<Launch>
    ensures { result ≡ later_of best launch }
{
    match best {
        Some(found) => {
            if found.cycle < launch.cycle {
                Some(launch)
            } else {
                Some(found)
            }
        }
        None => Some(launch),
    }
}

#[tactic(auto, using(crate::proofs::LatestStores::latest_more_yes, crate::proofs::LatestStores::latest_more_no))]
fn latest_store(graph: &LaunchGraph, list: &[Launch], cycle: Option<u32>) -> Option<Launch>
    ensures { result ≡ launches.latest (is_store_below graph.now cycle) list.now }
{
    let mut best = None;
    for launch in list {
        if is_store_below(graph, cycle, *launch) {
            best = later_of(best, *launch);
        }
    }
    best
}

fn reads_memory(graph: &LaunchGraph, list: &[Launch], launch: Launch) -> bool
    ensures { IsTrue result ↔ (rules.UsesMemory graph.now launch
        → launches.memory_class_at graph.now launch.row ≡ launches.memory_before graph.now list.now launch.cycle) }
{
    if !(is_load(instr_at(graph, launch.row)) || is_store(instr_at(graph, launch.row))) {
        return true;
    }
    match latest_store(graph, list, Some(launch.cycle)) {
        Some(store) => memory_class_at(graph, launch.row) == class_at(graph, store.row),
        None => memory_class_at(graph, launch.row) == graph.entry,
    }
}

fn no_store_before(graph: &LaunchGraph, list: &[Launch], at: usize, cycle: u32) -> bool
    requires { at ≤ length list.now }
    ensures { IsTrue result
        ↔ NoEarlier list.now at (λ m. IsTrue (launches.launches graph.now launches.is_store m) × (m.cycle ≡ cycle)) }
{
    for before in 0..at {
        if is_store(instr_at(graph, list[before].row)) && list[before].cycle == cycle {
            return false;
        }
    }
    true
}

pub(crate) fn keeps_memory(graph: &LaunchGraph, list: &[Launch], at: usize, launch: Launch) -> bool
    requires { at ≤ length list.now }
    ensures { IsTrue result ↔ KeepsMemoryAt graph.now list.now at launch }
{
    if !reads_memory(graph, list, launch) {
        return false;
    }
    !is_store(instr_at(graph, launch.row)) || no_store_before(graph, list, at, launch.cycle)
}

pub(crate) fn memory_is_left(graph: &LaunchGraph, list: &[Launch]) -> bool
    ensures { IsTrue result ↔ (launches.memory_after graph.now list.now ≡ graphs.memory_target graph.now) }
{
    match latest_store(graph, list, None) {
        Some(store) => class_at(graph, store.row) == graph.memory_target(),
        None => graph.entry == graph.memory_target(),
    }
}
