// The formula of cycles, slots and values.
ghost use Rattle.std.specs.Prelude.{◌≡◌, ◌+◌, ◌<◌, ◌≤◌, ◌^◌, [], length, IfOk, IfErr, OnOk};
ghost use Rattle.cycle_encoding.specs.Framed.{IsFrame, over};
ghost use Rattle.cycle_encoding.specs.Limits.{most_vars, most_clauses};
ghost use Rattle.schedule_meaning.specs.Limits.{most_cycles};
ghost use Rattle.graph_meaning.specs.WellFormed.{IsLaunchGraph};
ghost use Rattle.machine_table.specs.Tables.{IsTable};
ghost use Rattle.cycle_encoding.specs.CycleFormula.{allocation_in, first_cycle_in, Listed as ListedOf};
ghost use Rattle.cycle_encoding.specs.Encodings.{AreListed};
ghost use Rattle.cycle_encoding.specs.Faults.{EncodeFaultIs, IsRefusalOf};
ghost use Rattle.cycle_encoding.specs.CycleFormula.{listed_in};
ghost use Rattle.cycle_encoding.specs.CycleFormula.{wide, before_counters, before_overwritten};
ghost use Rattle.cycle_encoding.specs.CycleFormula.{cycle_formula};
ghost use Rattle.cycle_encoding.specs.Variables.{launches_from};
ghost use Rattle.cycle_encoding.specs.Plans.{IsTooLarge, plan_of};
ghost use Rattle.cycle_encoding.specs.FamilyVars.{AreCycleVars, listed_over};

use crate::by_destination::launches_from;
use crate::families::{CycleVars, add_operands, add_seen, add_targets};
use crate::laws::{cycle_counts_are_found, each_encoding_has_one_list};
use crate::overwriting::overwritten_vars;
use crate::plans::{EncodeFault, Encoded, VarPlan};
use crate::seen::seen_vars;
use crate::sizes::cycle_sizes;
use crate::slots::add_slots;
use crate::{Encoding, Facts, Frame, Scope};
use cnf_core::{Cnf, counters_count};
use graph_meaning::LaunchGraph;
use items::{Items, NoMemory};
use machine_table::Table;
use std::alloc::Global;

/// The clauses of slots, latencies and values in k cycles. Its counts are found before any clause is built; where one
/// passes its limit they are the answer.
pub fn encode(
    alloc: Global,
    graph: &LaunchGraph,
    table: &Table,
    k: u32,
) -> Result<Encoded, EncodeFault>
    requires cycles { k ≤ most_cycles }
    requires table { IsTable table.now }
    requires graph { IsLaunchGraph graph.now }
    ensures formula { IfOk result (λ e. e.cnf ≡ cycle_formula graph.now table.now k (wide graph.now table.now k)) }
    ensures plan { IfOk result (λ e. e.plan ≡ plan_of graph.now table.now k) }
    ensures size { IfErr result (EncodeFaultIs (cycle_formula graph.now table.now k (wide graph.now table.now k))) }
    ensures within { OnOk result (¬ IsTooLarge (cycle_formula graph.now table.now k (wide graph.now table.now k))) }
{
    encode_as(alloc, Encoding::Wide, graph, table, k)
}

/// The same in an encoding: `encode` is this with the wide one.
pub fn encode_as(
    alloc: Global,
    encoding: Encoding,
    graph: &LaunchGraph,
    table: &Table,
    k: u32,
) -> Result<Encoded, EncodeFault>
    requires cycles { k ≤ most_cycles }
    requires table { IsTable table.now }
    requires graph { IsLaunchGraph graph.now }
    ensures listed { OnOk result ((l : ListedOf) × AreListed encoding graph.now table.now k l) }
    ensures formula { IfOk result (λ e. (l : ListedOf) → AreListed encoding graph.now table.now k l
        → e.cnf ≡ cycle_formula graph.now table.now k l) }
    ensures plan { IfOk result (λ e. (l : ListedOf) → AreListed encoding graph.now table.now k l → e.plan ≡ record {
      encoding = encoding;
      cycles = k;
      launches = l.launches;
      overwritten = before_overwritten l;
    }) }
    ensures size { IfErr result (λ fault. (l : ListedOf) → AreListed encoding graph.now table.now k l
        → EncodeFaultIs (cycle_formula graph.now table.now k l) fault) }
    ensures refused { IfErr result (IsRefusalOf encoding graph.now table.now k (cycle_formula graph.now table.now k)) }
    ensures within { OnOk result ((l : ListedOf) → AreListed encoding graph.now table.now k l
        → ¬ IsTooLarge (cycle_formula graph.now table.now k l)) }
{
    cycle_counts_are_found();
    each_encoding_has_one_list();
    let facts = Facts::new(alloc, graph)?;
    let scope = Scope::of(alloc, encoding, &facts, table)?;
    let frame = Frame {
        facts: &facts,
        table,
        scope: &scope,
        k,
    };
    cycle_sizes(&frame).within_limits()?;
    Ok(build_cycles(alloc, &frame)?)
}

/// Makes variables.
pub fn add_vars(cnf: &mut Cnf, count: u32)
    requires { cnf.old.vars + count < 2 ^ 29 }
    ensures { cnf.new ≡ record cnf.old { vars = cnf.old.vars + count } }
{
    for _made in 0..count {
        cnf.fresh();
    }
}

/// Builds the formula of a scope, whose counts are within the limits.
pub fn build_cycles(alloc: Global, frame: &Frame) -> Result<Encoded, NoMemory>
    requires frame { IsFrame frame.now }
    requires vars { (cycle_formula frame.now.facts.now frame.now.table.now frame.now.k (over frame.now listed_in)).vars
        ≤ most_vars }
    requires clauses { length (cycle_formula frame.now.facts.now frame.now.table.now frame.now.k
        (over frame.now listed_in)).clauses ≤ most_clauses }
    ensures formula { IfOk result (λ e. e.cnf
        ≡ cycle_formula frame.now.facts.now frame.now.table.now frame.now.k (over frame.now listed_in)) }
    ensures plan { IfOk result (λ e. e.plan ≡ record {
      encoding = frame.now.scope.now.encoding;
      cycles = frame.now.k;
      launches = launches_from frame.now.facts.now frame.now.table.now (allocation_in frame.now.scope.now) frame.now.k (first_cycle_in frame.now.scope.now);
      overwritten = before_overwritten (over frame.now listed_in);
    }) }
{
    let launches = launches_from(alloc, frame)?;
    let count = launches.as_slice().len() as u32;
    let seen = seen_vars(alloc, frame, count)?;
    let before = count + seen.seen.as_slice().len() as u32;
    let over = overwritten_vars(alloc, frame.facts, frame.k, before)?;
    let mut cnf = Cnf::new(alloc);
    add_vars(&mut cnf, before + over.count());
    let vars = CycleVars {
        frame: *frame,
        launches: &launches,
        seen,
        over,
    };
    add_families(alloc, &mut cnf, &vars)?;
    drop(vars);
    Ok(Encoded {
        cnf,
        plan: VarPlan::new(
            frame.scope.encoding(),
            frame.k,
            Items::from(launches),
            before,
        ),
    })
}

/// Adds the clauses over the variables of launches, of what is seen and of what is overwritten.
fn add_families(alloc: Global, cnf: &mut Cnf, vars: &CycleVars) -> Result<(), NoMemory>
    requires are { AreCycleVars vars.now }
    requires empty { cnf.old ≡ record {
      vars = before_counters vars.now.frame.facts.now vars.now.frame.table.now vars.now.frame.k (listed_over vars.now);
      clauses = [];
    } }
    requires vars { (cycle_formula vars.now.frame.facts.now vars.now.frame.table.now vars.now.frame.k
        (listed_over vars.now)).vars ≤ most_vars }
    requires clauses { length (cycle_formula vars.now.frame.facts.now vars.now.frame.table.now vars.now.frame.k
        (listed_over vars.now)).clauses ≤ most_clauses }
    ensures { OnOk result (cnf.new ≡ cycle_formula vars.now.frame.facts.now vars.now.frame.table.now vars.now.frame.k
        (listed_over vars.now)) }
{
    counters_count();
    add_targets(alloc, cnf, vars)?;
    add_operands(alloc, cnf, vars)?;
    add_seen(alloc, cnf, vars)?;
    add_slots(
        alloc,
        cnf,
        vars.launches,
        vars.frame.table.slots.len() as u32,
        vars.frame.k,
    )
}
