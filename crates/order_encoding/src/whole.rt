// The whole formula of a schedule.
ghost use Rattle.std.specs.Prelude.{◌≡◌, ◌↔◌, ◌≤◌, ◌+◌, ◌<◌, ◌^◌, ℕ, Bool, List, Contains, length, IfOk, IfErr, OnOk};
ghost use Rattle.std.specs.List.{filter};
ghost use Rattle.schedule_meaning.specs.Limits.{most_cycles};
ghost use Rattle.cnf_core.specs.Formula.{Satisfies};
ghost use Rattle.graph_meaning.specs.WellFormed.{IsLaunchGraph};
ghost use Rattle.machine_table.specs.Tables.{IsTable};
ghost use Rattle.schedule_meaning.specs.Fits.{Fits};
ghost use Rattle.schedule_meaning.specs.declared.schedules.Allocation.TheVariants.{Block};
ghost use Rattle.schedule_meaning.specs.declared.schedules.Launch.{Launch as LaunchOf};
ghost use Rattle.cycle_encoding.specs.Framed.{IsFrame, over};
ghost use Rattle.cycle_encoding.specs.CycleFormula.{Listed as ListedOf};
ghost use Rattle.cycle_encoding.specs.Encodings.{AreListed, allocation_of};
ghost use Rattle.cycle_encoding.specs.Faults.{EncodeFaultIs};
ghost use Rattle.cycle_encoding.specs.CycleFormula.{listed_in};
ghost use Rattle.cycle_encoding.specs.CycleFormula.{wide, before_overwritten};
ghost use Rattle.cycle_encoding.specs.Plans.{IsTooLarge, plan_of};
ghost use Rattle.cycle_encoding.specs.Shapes.{numbered, shown};
ghost use Rattle.order_encoding.specs.PlanOver.{AreFirstSizes, IsCapacityOf, by_list};
ghost use Rattle.order_encoding.specs.WholeFormula.{IsFormulaOf, IsSizeFault, formula_in, whole_formula};

use crate::adding::{PARTS, extend};
use crate::counts::both;
use crate::laws::{counts_are_found, each_encoding_says_fits};
use crate::pin_counts::pins_sizes;
use crate::plans::{FirstSizes, Plan};
use crate::sizes::{first_sizes, guard_sizes, pool_sizes};
use cycle_encoding::{
    EncodeFault, Encoded, Encoding, Facts, Frame, Scope, Sizes, build_cycles,
    each_encoding_has_one_list, overwritten_vars,
};
use graph_meaning::LaunchGraph;
use items::NoMemory;
use machine_table::Table;
use slot_capacity::{Capacity, capacity_sizes};
use std::alloc::Global;

/// The two counts of the whole formula over what a scope gives variables; no clause is built. It goes over the graph's
/// rows a few times for each cycle; by live ranges alone it takes memory.
pub fn formula_size(
    alloc: Global,
    facts: &Facts,
    table: &Table,
    scope: &Scope,
    k: u32,
) -> Result<Sizes, NoMemory>
    requires cycles { k ≤ most_cycles }
    requires table { IsTable table.now }
    requires graph { IsLaunchGraph facts.now }
    ensures vars { IfOk result (λ sizes. sizes.vars ≡ (formula_in scope.now facts.now table.now k).vars) }
    ensures clauses { IfOk result (λ sizes. sizes.clauses
        ≡ length (formula_in scope.now facts.now table.now k).clauses) }
    ensures few { IfOk result (λ sizes. (sizes.vars < 2 ^ 62) × (sizes.clauses < 2 ^ 63 + 2 ^ 62 + 2 ^ 61)) }
{
    let frame = Frame {
        facts,
        table,
        scope,
        k,
    };
    let capacity = Capacity::of(alloc, &frame)?;
    sizes_with(alloc, &frame, first_sizes(&frame), &capacity)
}

/// The same with the counts of the first parts, and with what the formula says of due classes.
fn sizes_with(
    alloc: Global,
    frame: &Frame,
    first: FirstSizes,
    capacity: &Capacity,
) -> Result<Sizes, NoMemory>
    requires frame { IsFrame frame.now }
    requires first { AreFirstSizes frame.now first }
    requires capacity { IsCapacityOf frame.now capacity.now }
    ensures vars { IfOk result (λ sizes. sizes.vars ≡ (by_list frame.now whole_formula).vars) }
    ensures clauses { IfOk result (λ sizes. sizes.clauses ≡ length (by_list frame.now whole_formula).clauses) }
    ensures few { IfOk result (λ sizes. (sizes.vars < 2 ^ 62) × (sizes.clauses < 2 ^ 63 + 2 ^ 62 + 2 ^ 61)) }
{
    counts_are_found();
    let with_memory = both(first.cycle, first.memory);
    let with_guard = both(with_memory, guard_sizes(frame));
    let with_pool = both(with_guard, pool_sizes(alloc, frame)?);
    let with_pins = both(with_pool, pins_sizes(frame));
    Ok(both(with_pins, capacity_sizes(frame, capacity)))
}

/// The whole formula over what a scope gives variables. Facts and scope are made once for a graph and a table, and
/// serve any number of cycles. The counts are found before any clause is built; where one passes its limit they are
/// the answer.
pub fn build_formula(
    alloc: Global,
    facts: &Facts,
    table: &Table,
    scope: &Scope,
    k: u32,
) -> Result<Encoded, EncodeFault>
    requires cycles { k ≤ most_cycles }
    requires table { IsTable table.now }
    requires graph { IsLaunchGraph facts.now }
    ensures formula { IfOk result (λ e. e.cnf ≡ formula_in scope.now facts.now table.now k) }
    ensures plan { IfOk result (λ e. e.plan ≡ record {
      encoding = scope.now.encoding;
      cycles = k;
      launches = (listed_in facts.now table.now k scope.now).launches;
      overwritten = before_overwritten (listed_in facts.now table.now k scope.now);
    }) }
    ensures size { IfErr result (EncodeFaultIs (formula_in scope.now facts.now table.now k)) }
    ensures within { OnOk result (¬ IsTooLarge (formula_in scope.now facts.now table.now k)) }
    ensures vars { IfOk result (λ e. length e.plan.launches ≤ e.cnf.vars) }
{
    let frame = Frame {
        facts,
        table,
        scope,
        k,
    };
    let capacity = Capacity::of(alloc, &frame)?;
    let first = first_sizes(&frame);
    let sizes = sizes_with(alloc, &frame, first, &capacity)?;
    sizes.within_limits()?;
    Ok(build_whole(alloc, &frame, first, &capacity)?)
}

/// The whole formula of schedules in k cycles: cycles, slots and values, memory, the branch of a guard, registers, and
/// pins. Values satisfy its clauses exactly where the launches that they show fit. Its counts are found before any
/// clause is built; where one passes its limit they are the answer.
pub fn full(
    alloc: Global,
    graph: &LaunchGraph,
    table: &Table,
    k: u32,
) -> Result<Encoded, EncodeFault>
    requires cycles { k ≤ most_cycles }
    requires table { IsTable table.now }
    requires graph { IsLaunchGraph graph.now }
    ensures formula { IfOk result (λ e. e.cnf ≡ whole_formula graph.now table.now k (wide graph.now table.now k)) }
    ensures plan { IfOk result (λ e. e.plan ≡ plan_of graph.now table.now k) }
    ensures size { IfErr result (EncodeFaultIs (whole_formula graph.now table.now k (wide graph.now table.now k))) }
    ensures within { OnOk result (¬ IsTooLarge (whole_formula graph.now table.now k (wide graph.now table.now k))) }
    ensures vars { IfOk result (λ e. length e.plan.launches ≤ e.cnf.vars) }

    // What the values of variables show fits where they satisfy the clauses, and each schedule that fits is shown.
    ensures shown { IfOk result (λ e. (v : ℕ → Bool) → Satisfies v e.cnf.clauses
        → Fits graph.now table.now Block k (shown v (numbered 0 e.plan.launches))) }
    ensures each { IfOk result (λ e. (ls : List LaunchOf) → Fits graph.now table.now Block k ls
        → (v : ℕ → Bool) × Satisfies v e.cnf.clauses
        × ((l : LaunchOf) → Contains (shown v (numbered 0 e.plan.launches)) l ↔ Contains ls l)) }
{
    each_encoding_says_fits();
    full_as(alloc, Encoding::Wide, graph, table, k)
}

/// The same in an encoding: `full` is this with the wide one.
pub fn full_as(
    alloc: Global,
    encoding: Encoding,
    graph: &LaunchGraph,
    table: &Table,
    k: u32,
) -> Result<Encoded, EncodeFault>
    requires cycles { k ≤ most_cycles }
    requires table { IsTable table.now }
    requires graph { IsLaunchGraph graph.now }
    ensures is { IfOk result (λ e. IsFormulaOf encoding graph.now table.now k e.cnf) }
    ensures small { IfOk result (λ e. ¬ IsTooLarge e.cnf) }
    ensures refused { IfErr result (IsSizeFault encoding graph.now table.now k) }
    ensures formula { IfOk result (λ e. (l : ListedOf) → AreListed encoding graph.now table.now k l
        → e.cnf ≡ whole_formula graph.now table.now k l) }
    ensures plan { IfOk result (λ e. (l : ListedOf) → AreListed encoding graph.now table.now k l → e.plan ≡ record {
      encoding = encoding;
      cycles = k;
      launches = l.launches;
      overwritten = before_overwritten l;
    }) }
    ensures size { IfErr result (λ fault. (l : ListedOf) → AreListed encoding graph.now table.now k l
        → EncodeFaultIs (whole_formula graph.now table.now k l) fault) }
    ensures within { OnOk result ((l : ListedOf) → AreListed encoding graph.now table.now k l
        → ¬ IsTooLarge (whole_formula graph.now table.now k l)) }
    ensures vars { IfOk result (λ e. length e.plan.launches ≤ e.cnf.vars) }

    // What the values of variables show fits where they satisfy the clauses, and each schedule that fits has a part
    // that fits and is shown.
    ensures shown { IfOk result (λ e. (v : ℕ → Bool) → Satisfies v e.cnf.clauses
        → Fits graph.now table.now (allocation_of encoding) k (shown v (numbered 0 e.plan.launches))) }
    ensures some { IfOk result (λ e. (ls : List LaunchOf) → Fits graph.now table.now (allocation_of encoding) k ls
        → (ms : List LaunchOf) × Fits graph.now table.now (allocation_of encoding) k ms × ((keep : LaunchOf → Bool)
        × (ms ≡ filter keep ls)) × ((v : ℕ → Bool) × Satisfies v e.cnf.clauses × ((l : LaunchOf) → Contains
        (shown v (numbered 0 e.plan.launches)) l ↔ Contains ms l))) }
{
    each_encoding_has_one_list();
    each_encoding_says_fits();
    let facts = Facts::new(alloc, graph)?;
    let scope = Scope::of(alloc, encoding, &facts, table)?;
    build_formula(alloc, &facts, table, &scope, k)
}

/// Builds the whole formula of a scope, whose counts are within the limits.
fn build_whole(
    alloc: Global,
    frame: &Frame,
    sizes: FirstSizes,
    capacity: &Capacity,
) -> Result<Encoded, NoMemory>
    requires frame { IsFrame frame.now }
    requires sizes { AreFirstSizes frame.now sizes }
    requires capacity { IsCapacityOf frame.now capacity.now }
    requires within { ¬ IsTooLarge (formula_in frame.now.scope.now frame.now.facts.now frame.now.table.now frame.now.k) }
    ensures formula { IfOk result (λ e. e.cnf ≡ formula_in frame.now.scope.now frame.now.facts.now frame.now.table.now
        frame.now.k) }
    ensures plan { IfOk result (λ e. e.plan ≡ record {
      encoding = frame.now.scope.now.encoding;
      cycles = frame.now.k;
      launches = (over frame.now listed_in).launches;
      overwritten = before_overwritten (over frame.now listed_in);
    }) }
{
    let encoded = build_cycles(alloc, frame)?;
    let mut cnf = encoded.cnf;
    let plan = encoded.plan;
    let over = overwritten_vars(alloc, frame.facts, frame.k, plan.overwritten())?;
    let layout = Plan {
        frame: *frame,
        sizes,
        launches: plan.launches(),
        over: &over,
        capacity,
    };
    for part in &PARTS {
        extend(alloc, *part, &mut cnf, &layout)?;
    }
    Ok(Encoded { cnf, plan })
}
