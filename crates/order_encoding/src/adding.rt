// The parts of the whole formula behind that of cycles, slots and values, one after another.
ghost use Rattle.std.specs.Prelude.{◌≡◌, ◌<◌, ◌≤◌, ◌^◌, IfOk, IfErr, OnOk};
ghost use Rattle.cycle_encoding.specs.Framed.{IsFrame, over};
ghost use Rattle.schedule_meaning.specs.Limits.{most_cycles};
ghost use Rattle.graph_meaning.specs.WellFormed.{IsLaunchGraph};
ghost use Rattle.machine_table.specs.Tables.{IsTable};
ghost use Rattle.cycle_encoding.specs.CycleFormula.{before_overwritten, cycle_formula, listed_in};
ghost use Rattle.cycle_encoding.specs.Encodings.{OnLists};
ghost use Rattle.order_encoding.specs.PlanOver.{AreOverwritten};
ghost use Rattle.cycle_encoding.specs.Faults.{EncodeFaultIs};
ghost use Rattle.cycle_encoding.specs.Plans.{IsTooLarge};
ghost use Rattle.order_encoding.specs.PartOver.{HasLaunches, HasOverwritten, IsBuilt, IsBuiltFault, IsInLimits};
ghost use Rattle.order_encoding.specs.PlanOver.{AreFirstSizes, IsCapacityOf, by_list, listed_by};
ghost use Rattle.order_encoding.specs.OrderCounts.{part_size, part_vars};
ghost use Rattle.order_encoding.specs.WholeFormula.{KnowsOverwritten, before_part, with_part};
ghost use Rattle.order_encoding.specs.WholeFormula.{guard_formula, memory_formula, pool_formula};
ghost use Rattle.order_encoding.specs.WholeFormula.{pins_formula, whole_formula};

use crate::counts::grown;
use crate::guard::extend_by_guard;
use crate::laws::parts_are_counted;
use crate::live_ranges::extend_by_live_ranges;
use crate::memory::extend_by_memory;
use crate::pin_counts::pins_sizes;
use crate::pins::extend_by_pins;
use crate::plans::{FirstSizes, Plan};
use crate::pool::extend_by_registers;
use crate::sizes::{first_sizes, guard_sizes, pool_sizes};
use cnf_core::Cnf;
use cycle_encoding::{
    EncodeFault, Encoded, Facts, Frame, Scope, Sizes, cycle_counts_are_found,
    each_encoding_has_one_list, overwritten_vars,
};
use graph_meaning::LaunchGraph;
use items::NoMemory;
use machine_table::Table;
use schedule_meaning::Allocation;
use slot_capacity::{Capacity, capacity_sizes, extend_by_capacity};
use std::alloc::Global;

/// A part of the whole formula; each comes behind the ones before it here.
#[derive(Clone, Copy, PartialEq, Eq)]
pub enum Part {
    Memory,
    Guard,
    Pool,
    Pins,
    Capacity,
}

/// All parts, in their order.
pub const PARTS: [Part; 5] = [
    Part::Memory,
    Part::Guard,
    Part::Pool,
    Part::Pins,
    Part::Capacity,
];

/// How many variables and clauses a part has, over what a scope gives variables.
fn part_sizes(
    alloc: Global,
    part: Part,
    frame: &Frame,
    first: &FirstSizes,
    capacity: &Capacity,
) -> Result<Sizes, NoMemory>
    requires frame { IsFrame frame.now }
    requires first { AreFirstSizes frame.now first.now }
    requires capacity { IsCapacityOf frame.now capacity.now }
    ensures vars { IfOk result (λ sizes. sizes.vars ≡ over frame.now (part_vars part)) }
    ensures clauses { IfOk result (λ sizes. sizes.clauses ≡ over frame.now (part_size part)) }
    ensures few_vars { IfOk result (λ sizes. sizes.vars < 2 ^ 62) }
    ensures few_clauses { IfOk result (λ sizes. sizes.clauses < 2 ^ 62) }
{
    match part {
        Part::Memory => Ok(first.memory),
        Part::Guard => Ok(guard_sizes(frame)),
        Part::Pool => pool_sizes(alloc, frame),
        Part::Pins => Ok(pins_sizes(frame)),
        Part::Capacity => Ok(capacity_sizes(frame, capacity)),
    }
}

/// Adds the variables and clauses of registers, as long as launches keep them.
fn extend_by_pool(alloc: Global, cnf: &mut Cnf, plan: &Plan) -> Result<(), NoMemory>
    requires frame { IsFrame plan.now.frame }
    requires formula { cnf.old ≡ by_list plan.now.frame guard_formula }
    requires launches { plan.now.launches.now ≡ (listed_by plan.now).launches }
    requires over { AreOverwritten plan.now.frame plan.now.over.now }
    requires overwritten { plan.now.over.now.first ≡ before_overwritten (listed_by plan.now) }
    requires within { ¬ IsTooLarge (by_list plan.now.frame pool_formula) }
    ensures { OnOk result (cnf.new ≡ by_list plan.now.frame pool_formula) }
{
    match plan.frame.scope.allocation() {
        Allocation::Block => extend_by_registers(alloc, cnf, plan),
        Allocation::Live => extend_by_live_ranges(alloc, cnf, plan),
    }
}

/// Adds a part's variables and clauses.
pub fn extend(alloc: Global, part: Part, cnf: &mut Cnf, plan: &Plan) -> Result<(), NoMemory>
    requires frame { IsFrame plan.now.frame }
    requires sizes { AreFirstSizes plan.now.frame plan.now.sizes }
    requires capacity { IsCapacityOf plan.now.frame plan.now.capacity.now }
    requires formula { cnf.old ≡ by_list plan.now.frame (before_part part) }
    requires launches { plan.now.launches.now ≡ (listed_by plan.now).launches }
    requires over { AreOverwritten plan.now.frame plan.now.over.now }
    requires overwritten { KnowsOverwritten part plan.now.over.now.first (listed_by plan.now) }
    requires within { ¬ IsTooLarge (by_list plan.now.frame (with_part part)) }
    ensures { OnOk result (cnf.new ≡ by_list plan.now.frame (with_part part)) }
{
    cycle_counts_are_found();
    parts_are_counted();
    match part {
        Part::Memory => extend_by_memory(alloc, cnf, plan),
        Part::Guard => extend_by_guard(alloc, cnf, plan),
        Part::Pool => extend_by_pool(alloc, cnf, plan),
        Part::Pins => {
            let cycle = plan.sizes.cycle.vars;
            let branches = (cycle + plan.sizes.memory.vars) as u32;
            let stores = (cycle + plan.sizes.held) as u32;
            extend_by_pins(alloc, cnf, plan, branches, stores)
        }
        Part::Capacity => {
            extend_by_capacity(alloc, cnf, plan.frame.facts, plan.capacity, plan.launches)
        }
    }
}

/// Adds the clauses of memory to those of `encode`. The counts are found before any clause is built.
pub fn add_memory(
    alloc: Global,
    encoded: Encoded,
    graph: &LaunchGraph,
    table: &Table,
) -> Result<Encoded, EncodeFault>
    requires cycles { encoded.plan.cycles ≤ most_cycles }
    requires table { IsTable table.now }
    requires graph { IsLaunchGraph graph.now }
    requires formula { IsBuilt encoded.plan graph.now table.now cycle_formula encoded.cnf }
    requires plan { HasLaunches encoded.plan graph.now table.now }
    ensures formula { IfOk result (λ e. IsBuilt encoded.plan graph.now table.now memory_formula e.cnf) }
    ensures plan { IfOk result (λ e. e.plan ≡ encoded.plan) }
    ensures size { IfErr result (IsBuiltFault encoded.plan graph.now table.now memory_formula) }
    ensures within { OnOk result (IsInLimits encoded.plan graph.now table.now memory_formula) }
{
    add_part(alloc, Part::Memory, encoded, graph, table)
}

/// Adds the clauses of a guard's branch to those of `add_memory`. The counts are found before any clause is built.
pub fn add_guard(
    alloc: Global,
    encoded: Encoded,
    graph: &LaunchGraph,
    table: &Table,
) -> Result<Encoded, EncodeFault>
    requires cycles { encoded.plan.cycles ≤ most_cycles }
    requires table { IsTable table.now }
    requires graph { IsLaunchGraph graph.now }
    requires formula { IsBuilt encoded.plan graph.now table.now memory_formula encoded.cnf }
    requires plan { HasLaunches encoded.plan graph.now table.now }
    ensures formula { IfOk result (λ e. IsBuilt encoded.plan graph.now table.now guard_formula e.cnf) }
    ensures plan { IfOk result (λ e. e.plan ≡ encoded.plan) }
    ensures size { IfErr result (IsBuiltFault encoded.plan graph.now table.now guard_formula) }
    ensures within { OnOk result (IsInLimits encoded.plan graph.now table.now guard_formula) }
{
    add_part(alloc, Part::Guard, encoded, graph, table)
}

/// Adds the clauses of registers to those of `add_guard`. The counts are found before any clause is built.
pub fn add_pool(
    alloc: Global,
    encoded: Encoded,
    graph: &LaunchGraph,
    table: &Table,
) -> Result<Encoded, EncodeFault>
    requires cycles { encoded.plan.cycles ≤ most_cycles }
    requires table { IsTable table.now }
    requires graph { IsLaunchGraph graph.now }
    requires formula { IsBuilt encoded.plan graph.now table.now guard_formula encoded.cnf }
    requires plan { HasLaunches encoded.plan graph.now table.now }
    requires overwritten { HasOverwritten encoded.plan graph.now table.now }
    ensures formula { IfOk result (λ e. IsBuilt encoded.plan graph.now table.now pool_formula e.cnf) }
    ensures plan { IfOk result (λ e. e.plan ≡ encoded.plan) }
    ensures size { IfErr result (IsBuiltFault encoded.plan graph.now table.now pool_formula) }
    ensures within { OnOk result (IsInLimits encoded.plan graph.now table.now pool_formula) }
{
    add_part(alloc, Part::Pool, encoded, graph, table)
}

/// Adds the clauses of pins to those of `add_pool`. The counts are found before any clause is built.
pub fn add_pins(
    alloc: Global,
    encoded: Encoded,
    graph: &LaunchGraph,
    table: &Table,
) -> Result<Encoded, EncodeFault>
    requires cycles { encoded.plan.cycles ≤ most_cycles }
    requires table { IsTable table.now }
    requires graph { IsLaunchGraph graph.now }
    requires formula { IsBuilt encoded.plan graph.now table.now pool_formula encoded.cnf }
    requires plan { HasLaunches encoded.plan graph.now table.now }
    requires overwritten { HasOverwritten encoded.plan graph.now table.now }
    ensures formula { IfOk result (λ e. IsBuilt encoded.plan graph.now table.now pins_formula e.cnf) }
    ensures plan { IfOk result (λ e. e.plan ≡ encoded.plan) }
    ensures size { IfErr result (IsBuiltFault encoded.plan graph.now table.now pins_formula) }
    ensures within { OnOk result (IsInLimits encoded.plan graph.now table.now pins_formula) }
{
    add_part(alloc, Part::Pins, encoded, graph, table)
}

/// Adds the clauses of capacity to those of `add_pins`: by live ranges alone any. The counts are found before any clause
/// is built.
pub fn add_capacity(
    alloc: Global,
    encoded: Encoded,
    graph: &LaunchGraph,
    table: &Table,
) -> Result<Encoded, EncodeFault>
    requires cycles { encoded.plan.cycles ≤ most_cycles }
    requires table { IsTable table.now }
    requires graph { IsLaunchGraph graph.now }
    requires formula { IsBuilt encoded.plan graph.now table.now pins_formula encoded.cnf }
    requires plan { HasLaunches encoded.plan graph.now table.now }
    ensures formula { IfOk result (λ e. IsBuilt encoded.plan graph.now table.now whole_formula e.cnf) }
    ensures plan { IfOk result (λ e. e.plan ≡ encoded.plan) }
    ensures size { IfErr result (IsBuiltFault encoded.plan graph.now table.now whole_formula) }
    ensures within { OnOk result (IsInLimits encoded.plan graph.now table.now whole_formula) }
{
    add_part(alloc, Part::Capacity, encoded, graph, table)
}

/// Adds a part to the formula of those before it.
fn add_part(
    alloc: Global,
    part: Part,
    encoded: Encoded,
    graph: &LaunchGraph,
    table: &Table,
) -> Result<Encoded, EncodeFault>
    requires cycles { encoded.plan.cycles ≤ most_cycles }
    requires table { IsTable table.now }
    requires graph { IsLaunchGraph graph.now }
    requires formula { IsBuilt encoded.plan graph.now table.now (before_part part) encoded.cnf }
    requires plan { HasLaunches encoded.plan graph.now table.now }
    requires overwritten { OnLists encoded.plan.encoding graph.now table.now encoded.plan.cycles
        (KnowsOverwritten part encoded.plan.overwritten) }
    ensures formula { IfOk result (λ e. IsBuilt encoded.plan graph.now table.now (with_part part) e.cnf) }
    ensures plan { IfOk result (λ e. e.plan ≡ encoded.plan) }
    ensures size { IfErr result (IsBuiltFault encoded.plan graph.now table.now (with_part part)) }
    ensures within { OnOk result (IsInLimits encoded.plan graph.now table.now (with_part part)) }
{
    each_encoding_has_one_list();
    let facts = Facts::new(alloc, graph)?;
    let scope = Scope::of(alloc, encoded.plan.encoding(), &facts, table)?;
    let frame = Frame {
        facts: &facts,
        table,
        scope: &scope,
        k: encoded.plan.cycles(),
    };
    add_part_in(alloc, part, encoded, &frame)
}

/// The same over what a scope gives variables.
fn add_part_in(
    alloc: Global,
    part: Part,
    encoded: Encoded,
    frame: &Frame,
) -> Result<Encoded, EncodeFault>
    requires k { frame.now.k ≡ encoded.plan.cycles }
    requires cycles { encoded.plan.cycles ≤ most_cycles }
    requires frame { IsFrame frame.now }
    requires formula { encoded.cnf ≡ before_part part frame.now.facts.now frame.now.table.now encoded.plan.cycles
        (listed_in frame.now.facts.now frame.now.table.now encoded.plan.cycles frame.now.scope.now) }
    requires launches { encoded.plan.launches
        ≡ (listed_in frame.now.facts.now frame.now.table.now encoded.plan.cycles frame.now.scope.now).launches }
    requires overwritten { KnowsOverwritten part encoded.plan.overwritten
        (listed_in frame.now.facts.now frame.now.table.now encoded.plan.cycles frame.now.scope.now) }
    ensures formula { IfOk result (λ e. e.cnf ≡ with_part part frame.now.facts.now frame.now.table.now
        encoded.plan.cycles (listed_in frame.now.facts.now frame.now.table.now encoded.plan.cycles frame.now.scope.now)) }
    ensures plan { IfOk result (λ e. e.plan ≡ encoded.plan) }
    ensures size { IfErr result (EncodeFaultIs (with_part part frame.now.facts.now frame.now.table.now
        encoded.plan.cycles (listed_in frame.now.facts.now frame.now.table.now encoded.plan.cycles
        frame.now.scope.now))) }
    ensures within { OnOk result (¬ IsTooLarge (with_part part frame.now.facts.now frame.now.table.now
        encoded.plan.cycles (listed_in frame.now.facts.now frame.now.table.now encoded.plan.cycles
        frame.now.scope.now))) }
{
    parts_are_counted();
    let mut cnf = encoded.cnf;
    let plan = encoded.plan;
    let first = first_sizes(frame);
    let capacity = Capacity::of(alloc, frame)?;
    let sizes = grown(&cnf, part_sizes(alloc, part, frame, &first, &capacity)?);
    sizes.within_limits()?;
    let over = overwritten_vars(alloc, frame.facts, frame.k, plan.overwritten())?;
    let layout = Plan {
        frame: *frame,
        sizes: first,
        launches: plan.launches(),
        over: &over,
        capacity: &capacity,
    };
    extend(alloc, part, &mut cnf, &layout)?;
    Ok(Encoded { cnf, plan })
}
