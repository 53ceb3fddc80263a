// From a schedule to its listing.
ghost use Rattle.std.specs.Prelude.{◌≡◌, ◌≤◌, ◌<◌, ◌^◌, length, IfOk};
ghost use Rattle.schedule_meaning.specs.Limits.{most_cycles};
ghost use Rattle.machine_table.specs.Tables.{IsTable};
ghost use Rattle.graph_meaning.specs.WellFormed.{IsLaunchGraph};
ghost use Rattle.schedule_meaning.specs.Launches.{IsInWordOrder};
ghost use Rattle.schedule_meaning.specs.Fits.{Fits};
ghost use Rattle.register_assign.specs.Assigned.{IsTheListing, HaveWords, MayRun, KeepsWord};

use crate::listings::Listing;
use crate::pool_places::places_of;
use crate::registers::Ordered;
use graph_meaning::{LaunchGraph, known_multiples_are_true};
use items::NoMemory;
use machine_table::Table;
use schedule_meaning::{Allocation, Launch, Schedule, group_of};
use std::alloc::Global;

/// The launches in word order.
pub(crate) fn in_word_order(
    alloc: Global,
    graph: &LaunchGraph,
    launches: &[Launch],
) -> Result<Vec<Launch>, NoMemory>
    ensures { IfOk result (λ ordered. IsInWordOrder graph.now launches.now ordered.items) }
{
    let mut ordered = Vec::from_slice(alloc, launches)?;
    ordered.sort_unstable_by_key(|launch| {
        (launch.cycle, group_of(graph, *launch).number(), launch.slot)
    });
    Ok(ordered)
}

/// The instructions of a schedule in word order, each launch to the pool that gives a word with a register of the pool
/// and each launch to a pinned set with its pin, and the registers of the word targets. On a proper graph the items
/// keep to the table, and their words do what the graph says. It sorts the launches, gives each a register, and for
/// each operand goes over the launches and the graph's rows.
pub fn assign(
    alloc: Global,
    graph: &LaunchGraph,
    table: &Table,
    allocation: Allocation,
    k: u32,
    schedule: &Schedule,
) -> Result<Listing, NoMemory>
    requires graph { IsLaunchGraph graph.now }
    requires table { IsTable table.now }
    requires fits { Fits graph.now table.now allocation k schedule.now.launches }
    requires few { k ≤ most_cycles }
    ensures listing { IfOk result
        (λ l. IsTheListing graph.now table.now allocation schedule.now.launches l.items l.wheres) }
    ensures words { IfOk result (λ l. HaveWords l.items) }
    ensures run { IfOk result (λ l. MayRun l.items) }
    ensures keeps { IfOk result (λ l. KeepsWord graph.now table.now k l.items l.wheres) }
{
    known_multiples_are_true();
    let launches = in_word_order(alloc, graph, schedule.launches.as_slice())?;
    let places = places_of(alloc, graph, allocation, &launches)?;
    let ordered = Ordered {
        graph,
        table,
        allocation,
        launches: &launches,
        places: &places,
    };
    Ok(Listing {
        items: ordered.items_of(alloc)?,
        wheres: ordered.wheres_of(alloc)?,
    })
}
