// Whether a launch may go where it goes.
ghost use Rattle.std.specs.Prelude.{◌≡◌, ◌↔◌, ◌&&◌, IsTrue};
ghost use Rattle.graph_meaning.specs.Graphs as graphs;
ghost use Rattle.schedule_meaning.specs.Launches as launches;
ghost use Rattle.schedule_meaning.specs.Fits as rules;
ghost use Rattle.schedule_meaning.specs.declared.schedules.Allocation.TheVariants.{Live};

use crate::lookups::{gives, instr_at, is_load, is_store};
use crate::schedules::{Allocation, Launch, To};
use graph_meaning::{LaunchGraph, SetClass};

/// The launch is a load, and the register an input's.
fn loads_over(graph: &LaunchGraph, launch: Launch, register: u8) -> bool
    ensures { result
        ≡ (launches.launches graph.now launches.is_load launch && graphs.is_input_register graph.now register) }
{
    is_load(instr_at(graph, launch.row)) && graph.is_input_register(register)
}

/// The launch is a store of the cycle.
fn stores_in(graph: &LaunchGraph, cycle: u32, launch: Launch) -> bool
    ensures { IsTrue result
        ↔ (IsTrue (launches.launches graph.now launches.is_store launch) × (launch.cycle ≡ cycle)) }
{
    launch.cycle == cycle && is_store(instr_at(graph, launch.row))
}

/// No store launches in the launch's cycle.
fn has_no_store_beside(graph: &LaunchGraph, list: &[Launch], launch: Launch) -> bool
    ensures { IsTrue result ↔ rules.MayLoadOver graph.now Live list.now launch }
{
    for other in list {
        if stores_in(graph, launch.cycle, *other) {
            return false;
        }
    }
    true
}

/// A load may overwrite an input's register: nowhere; or where no store launches in its cycle.
fn may_load_over(
    graph: &LaunchGraph,
    allocation: Allocation,
    list: &[Launch],
    launch: Launch,
) -> bool
    ensures { IsTrue result ↔ rules.MayLoadOver graph.now allocation list.now launch }
{
    match allocation {
        Allocation::Block => false,
        Allocation::Live => has_no_store_beside(graph, list, launch),
    }
}

fn can_go_to_pin(
    graph: &LaunchGraph,
    allocation: Allocation,
    list: &[Launch],
    launch: Launch,
    set: &SetClass,
    pin: u8,
) -> bool
    ensures { IsTrue result ↔ rules.CanGoToPin graph.now allocation list.now launch set.now pin }
{
    if !gives(graph, set.class, launch, instr_at(graph, launch.row)) {
        return false;
    }
    !loads_over(graph, launch, pin) || may_load_over(graph, allocation, list, launch)
}

pub(crate) fn can_go(
    graph: &LaunchGraph,
    allocation: Allocation,
    list: &[Launch],
    launch: Launch,
) -> bool
    ensures { IsTrue result ↔ rules.CanGo graph.now allocation list.now launch }
{
    match launch.to {
        To::Pool => true,
        To::Set(number) => match graph.sets.as_slice().get(number as usize) {
            Some(set) => match set.pin {
                Some(pin) => can_go_to_pin(graph, allocation, list, launch, set, pin),
                None => false,
            },
            None => false,
        },
    }
}
