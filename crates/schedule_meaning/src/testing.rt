// What the rules on slots, cycles, branches and the pool ask of a launch, tested.
ghost use Rattle.std.specs.Prelude.{◌≡◌, ◌↔◌, ◌⊎◌, ◌≤◌, ◌<◌, IsTrue, All, length};
ghost use Rattle.schedule_meaning.specs.Launches as launches;
ghost use Rattle.schedule_meaning.specs.Fits as rules;
ghost use Rattle.schedule_meaning.specs.Broken.{NoEarlier};

use crate::lifetimes::has_room_in_each;
use crate::lookups::{instr_at, is_branch, is_held, is_load, is_store, overwrites};
use crate::readers::taken_before;
use crate::schedules::{Allocation, Launch};
use graph_meaning::LaunchGraph;
use machine_table::{InstrKind, Table};

pub(crate) fn can_launch(graph: &LaunchGraph, table: &Table, launch: Launch) -> bool
    ensures { IsTrue result ↔ rules.CanLaunch graph.now table.now launch }
{
    match instr_at(graph, launch.row) {
        Some(instr) => table.may_use(instr, launch.slot),
        None => false,
    }
}

/// No launch before the place has the launch's slot and cycle.
pub(crate) fn is_alone(launches: &[Launch], at: usize, launch: Launch) -> bool
    requires { at ≤ length launches.now }
    ensures { IsTrue result ↔ NoEarlier launches.now at (rules.Collide launch) }
{
    for before in 0..at {
        if launch.cycle == launches[before].cycle && launch.slot == launches[before].slot {
            return false;
        }
    }
    true
}

pub(crate) fn ends_by(graph: &LaunchGraph, table: &Table, k: u32, launch: Launch) -> bool
    ensures { IsTrue result ↔ rules.EndsBy graph.now table.now k launch }
{
    let instr = match instr_at(graph, launch.row) {
        Some(instr) => instr,
        None => InstrKind::Beq,
    };
    let latency = match table.latency(instr) {
        Some(latency) => u64::from(latency),
        None => 0,
    };
    u64::from(launch.cycle) + latency <= u64::from(k)
}

/// The other is no branch, or launches no later than the launch.
fn no_later(graph: &LaunchGraph, other: Launch, launch: Launch) -> bool
    ensures { IsTrue result
        ↔ (IsTrue (launches.launches graph.now launches.is_branch other) → other.cycle ≤ launch.cycle) }
{
    !is_branch(instr_at(graph, other.row)) || other.cycle <= launch.cycle
}

/// No branch of the list launches after the launch.
fn no_later_branch(graph: &LaunchGraph, list: &[Launch], launch: Launch) -> bool
    ensures { IsTrue result
        ↔ All (λ b. IsTrue (launches.launches graph.now launches.is_branch b) → b.cycle ≤ launch.cycle) list.now }
{
    for other in list {
        if !no_later(graph, *other, launch) {
            return false;
        }
    }
    true
}

/// A store, a load that is held, or what overwrites an input comes behind each branch of the list.
pub(crate) fn waits(graph: &LaunchGraph, list: &[Launch], launch: Launch) -> bool
    ensures { IsTrue result ↔ rules.Waits graph.now list.now launch }
{
    !(is_store(instr_at(graph, launch.row))
        || ((is_load(instr_at(graph, launch.row)) && is_held(graph)) || overwrites(graph, launch)))
        || no_later_branch(graph, list, launch)
}

pub(crate) fn has_one_branch(graph: &LaunchGraph, list: &[Launch]) -> bool
    ensures { IsTrue result ↔ rules.HasOneBranch graph.now list.now }
{
    if graph.guard.is_none() {
        return true;
    }
    let mut count: usize = 0;
    for launch in list {
        if is_branch(instr_at(graph, launch.row)) {
            count += 1;
        }
    }
    count == 1
}

/// The pool has a register for each launch that takes one; or in each cycle below k for each that holds one.
pub(crate) fn has_room(graph: &LaunchGraph, allocation: Allocation, k: u32, list: &[Launch]) -> bool
    ensures { IsTrue result ↔ rules.HasRoom graph.now allocation k list.now }
{
    match allocation {
        Allocation::Block => taken_before(graph, list, list.len()) <= graph.pool.len(),
        Allocation::Live => has_room_in_each(graph, k, list),
    }
}
