// In how many cycles the words of a lift can be done.
ghost use Rattle.std.specs.Prelude.{◌≤◌, ℕ, IfOk};
ghost use Rattle.cnf_core.specs.Formula.{Formula};
ghost use Rattle.code_improve.specs.CycleCounts.{IsCountBy, IsCountOf};
ghost use Rattle.code_lift.specs.Views.{lift_view};
ghost use Rattle.code_lift.specs.WellFormed.{IsLift};
ghost use Rattle.denali_run.specs.Trials.{IsTrialsEnd};
ghost use Rattle.denali_run.specs.declared.settings.Settings.{Settings as SettingsOf};
ghost use Rattle.graph_meaning.specs.declared.graphs.LaunchGraph.{LaunchGraph};
ghost use Rattle.machine_table.specs.Tables.{IsTable};
ghost use Rattle.machine_table.specs.declared.tables.Table.{Table as TableOf};
ghost use Rattle.schedule_meaning.specs.Limits.{most_cycles};

use axiom_library::Library;
use code_lift::Lift;
use denali_run::{Pick, Reached, Settings, Trial, fewest_cycles};
use items::NoMemory;
use machine_table::Table;
use own_graph::own_graph;
use schedule_meaning::Allocation;
use std::alloc::Global;

/// What is found of the number of cycles of words: the fewest in which they can be done, that the most that were asked
/// for aren't enough, or for how many a budget was spent, where fewer aren't enough.
#[derive(Clone, Copy)]
pub enum CycleCount {
    Fewest(u32),
    Over(u32),
    Spent(u32),
}

/// What the end of trials says of the number of cycles.
fn count_of(reached: &Reached) -> CycleCount
    ensures { (clauses_for : ℕ → Formula) (g : LaunchGraph) (table : TableOf) (s : SettingsOf)
        → IsTrialsEnd clauses_for g table s reached.now
        → IsCountBy clauses_for g table s.allocation s.cycles s.conflicts result }
{
    match &reached.trial {
        Trial::Fitting(_) => CycleCount::Fewest(reached.k),
        Trial::Refuted(_) => CycleCount::Over(reached.k),
        Trial::Spent(_) | Trial::Large { .. } => CycleCount::Spent(reached.k),
    }
}

/// The fewest cycles in which the words of a lift can be done, in any order and with registers renamed, where each is
/// free again when its word was read last, or what was found up to so many cycles with so many conflicts for each.
pub fn count_cycles(
    alloc: Global,
    table: &Table,
    lift: &Lift,
    cycles: u32,
    conflicts: u32,
) -> Result<CycleCount, NoMemory>
    requires table { IsTable table.now }
    requires lift { IsLift (lift_view lift.now) }
    requires cycles { cycles ≤ most_cycles }
    requires conflicts { (1 ≤ conflicts) × (conflicts ≤ 1000000) }
    ensures count { IfOk result (IsCountOf table.now cycles conflicts (lift_view lift.now)) }
{
    let graph = own_graph(alloc, lift)?;
    let settings = Settings {
        rounds: 0,
        nodes: 1,
        cycles,
        conflicts,
        pick: Pick::Activity,
        library: Library::none(),
        allocation: Allocation::Live,
    };
    let reached = fewest_cycles(alloc, &graph, table, &settings)?;
    Ok(count_of(&reached))
}
