// Which register of the pool each launch has, by its place there.
ghost use Rattle.std.specs.Prelude.{◌≡◌, ◌≤◌, IfOk, length};
ghost use Rattle.schedule_meaning.specs.declared.schedules.Allocation.TheVariants.{Block};
ghost use Rattle.register_assign.specs.PoolPlaces as pool_places;

use graph_meaning::LaunchGraph;
use items::NoMemory;
use schedule_meaning::{Allocation, Launch, holds, taken_before};
use std::alloc::Global;

/// Whether one of the first launches, which have these places, has the place and holds it at the cycle.
fn is_taken(
    graph: &LaunchGraph,
    launches: &[Launch],
    places: &[usize],
    cycle: u32,
    place: usize,
) -> bool
    requires { length places.now ≤ length launches.now }
    ensures { result ≡ pool_places.is_taken graph.now launches.now places.now cycle place }
{
    for (before, had) in places.iter().enumerate() {
        if *had == place && holds(graph, Allocation::Live, launches, cycle, launches[before]) {
            return true;
        }
    }
    false
}

/// The first place of the pool that isn't taken at the cycle; the pool's length where all are.
fn first_free(graph: &LaunchGraph, launches: &[Launch], places: &[usize], cycle: u32) -> usize
    requires { length places.now ≤ length launches.now }
    ensures { result ≡ pool_places.first_free graph.now launches.now places.now cycle }
{
    for place in 0..graph.pool.len() {
        if !is_taken(graph, launches, places, cycle, place) {
            return place;
        }
    }
    graph.pool.len()
}

/// To the end of the block: the n-th launch that takes a register has the n-th place.
fn block_places(
    alloc: Global,
    graph: &LaunchGraph,
    launches: &[Launch],
) -> Result<Vec<usize>, NoMemory>
    ensures all { IfOk result (λ places. length places.items ≡ length launches.now) }
    ensures are { IfOk result (λ places. pool_places.ArePlaces graph.now Block launches.now places.items) }
{
    let mut places = Vec::new(alloc);
    for place in 0..launches.len() {
        places.push(taken_before(graph, launches, place))?;
    }
    Ok(places)
}

/// By live ranges: each launch in word order gets the first place that no launch before it has and holds in its cycle.
fn live_places(
    alloc: Global,
    graph: &LaunchGraph,
    launches: &[Launch],
) -> Result<Vec<usize>, NoMemory>
    ensures all { IfOk result (λ places. length places.items ≡ length launches.now) }
    ensures are { IfOk result (λ places. places.items ≡ pool_places.live_places graph.now launches.now) }
{
    let mut places = Vec::new(alloc);
    for launch in launches {
        let place = first_free(graph, launches, &places, launch.cycle);
        places.push(place)?;
    }
    Ok(places)
}

/// The place in the pool of each launch. To the end of the block it counts the launches before each; by live ranges it
/// asks for each what those before it hold, and so takes the cube of the launches in steps.
pub(crate) fn places_of(
    alloc: Global,
    graph: &LaunchGraph,
    allocation: Allocation,
    launches: &[Launch],
) -> Result<Vec<usize>, NoMemory>
    ensures all { IfOk result (λ places. length places.items ≡ length launches.now) }
    ensures are { IfOk result (λ places. pool_places.ArePlaces graph.now allocation launches.now places.items) }
{
    match allocation {
        Allocation::Block => block_places(alloc, graph, launches),
        Allocation::Live => live_places(alloc, graph, launches),
    }
}
