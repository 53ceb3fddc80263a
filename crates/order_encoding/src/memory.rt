// Memory in order: which memory is held in each cycle, what loads and stores do to it.
ghost use Rattle.std.specs.Prelude.{◌≡◌, ◌+◌, ◌<◌, ◌≤◌, ◌==◌, ◌^◌, ◌++◌, length, map, OnOk};
ghost use Rattle.std.specs.List.{filter};
ghost use Rattle.cycle_encoding.specs.Framed.{IsFrame};
ghost use Rattle.cycle_encoding.specs.Limits.{most_vars, most_clauses};
ghost use Rattle.cnf_core.specs.Formula.{IsLitOf};
ghost use Rattle.schedule_meaning.specs.Launches as specs;
ghost use Rattle.cycle_encoding.specs.Shapes.{negative, positive, implied, counters_vars, counters_size};
ghost use Rattle.cycle_encoding.specs.Steps.{of_thing, with_clauses, with_counters};
ghost use Rattle.order_encoding.specs.PlanOver.{memory_by};
ghost use Rattle.order_encoding.specs.MemoryOver.{AreHeldOver, held_over, last_held, launched_over, stores_over};
ghost use Rattle.order_encoding.specs.OrderVariables.{all_held};
ghost use Rattle.order_encoding.specs.OrderFamilies.{kept_clauses, memory_clauses, store_groups, leaves, uses_held};
ghost use Rattle.order_encoding.specs.OrderFamilies.{stays, store_clause};
ghost use Rattle.order_encoding.specs.OrderSteps.{AreHeldVars, held_at, launched_in};

use crate::cycles::cycle_var;
use crate::held_memory::{
    HeldVars, add_entry, add_held_counters, add_last, held_after, held_var, held_vars,
};
use crate::kinds::{push_var_if, stores};
use crate::plans::Plan;
use cnf_core::{Cnf, Lit, at_most_one, counters_count};
use cycle_encoding::{Facts, Made, add_implied, add_vars};
use items::NoMemory;
use schedule_meaning::{Launch, class_at, is_load, is_store, memory_class_at};
use std::alloc::Global;

/// The variables over which the clauses of memory are: those of launches, `found` being the stores, of what is held, and
/// of cycles with a store, of which `stores` is the variable before the first.
#[derive(Drop)]
pub struct MemoryVars<'a> {
    pub facts: &'a Facts<'a>,
    pub launches: &'a [Launch],
    pub found: &'a [(u32, Launch)],
    pub held: HeldVars,
    pub stores: u32,
}

/// Adds for each load and store the clauses that it uses the memory that is held, and that a store leaves its own.
fn add_uses(cnf: &mut Cnf, vars: &MemoryVars) -> Result<(), NoMemory>
    requires held { AreHeldOver vars.now }
    requires launches { length vars.now.launches.now ≤ vars.now.held.first }
    requires exist { last_held vars.now ≤ vars.now.stores }
    requires cycles { vars.now.stores + vars.now.held.cycles ≤ cnf.old.vars }
    requires few { cnf.old.vars < 2 ^ 29 }
    requires room { length cnf.old.clauses + length (memory_clauses vars.now.facts.now (launched_over vars.now)
        (held_over vars.now) (stores_over vars.now)) < 2 ^ 30 }
    ensures { OnOk result (cnf.new ≡ with_clauses cnf.old (memory_clauses vars.now.facts.now (launched_over vars.now)
        (held_over vars.now) (stores_over vars.now))) }
{
    for (index, launch) in vars.launches.iter().enumerate() {
        let made = Made {
            var: index as u32 + 1,
            launch: *launch,
        };
        add_use(cnf, vars, made)?;
    }
    Ok(())
}

/// Adds the clauses of one launch.
fn add_use(cnf: &mut Cnf, vars: &MemoryVars, made: Made) -> Result<(), NoMemory>
    requires held { AreHeldOver vars.now }
    requires var { 1 ≤ made.var }
    requires launches { made.var ≤ vars.now.held.first }
    requires exist { last_held vars.now ≤ vars.now.stores }
    requires cycles { vars.now.stores + vars.now.held.cycles ≤ cnf.old.vars }
    requires few { cnf.old.vars < 2 ^ 29 }
    requires room { length cnf.old.clauses + length (uses_held vars.now.facts.now (held_over vars.now) made.launch
        ++ leaves vars.now.facts.now (held_over vars.now) (stores_over vars.now) made.launch) < 2 ^ 30 }
    ensures { OnOk result (cnf.new ≡ with_clauses cnf.old
        (of_thing made.var (uses_held vars.now.facts.now (held_over vars.now) made.launch ++ leaves vars.now.facts.now
        (held_over vars.now) (stores_over vars.now) made.launch))) }
{
    add_read(cnf, vars, made)?;
    add_left(cnf, vars, made)
}

/// Adds the clause that the memory which a load or store uses is held.
fn add_read(cnf: &mut Cnf, vars: &MemoryVars, made: Made) -> Result<(), NoMemory>
    requires held { AreHeldOver vars.now }
    requires var { 1 ≤ made.var }
    requires launches { made.var ≤ vars.now.held.first }
    requires exist { last_held vars.now ≤ cnf.old.vars }
    requires few { cnf.old.vars < 2 ^ 29 }
    requires room { length cnf.old.clauses
        + length (uses_held vars.now.facts.now (held_over vars.now) made.launch) < 2 ^ 30 }
    ensures { OnOk result (cnf.new ≡ with_clauses cnf.old (of_thing made.var
        (uses_held vars.now.facts.now (held_over vars.now) made.launch))) }
{
    if is_load(vars.facts.instr_at(made.launch.row))
        || is_store(vars.facts.instr_at(made.launch.row))
    {
        let class = memory_class_at(vars.facts.graph(), made.launch.row);
        add_implied(
            cnf,
            made.var,
            held_var(&vars.held, vars.facts, class, made.launch.cycle),
        )
    } else {
        Ok(())
    }
}

/// Adds the clauses that a store leaves its own memory, and that its cycle has a store.
fn add_left(cnf: &mut Cnf, vars: &MemoryVars, made: Made) -> Result<(), NoMemory>
    requires held { AreHeldOver vars.now }
    requires var { 1 ≤ made.var }
    requires launches { made.var ≤ vars.now.held.first }
    requires exist { last_held vars.now ≤ vars.now.stores }
    requires cycles { vars.now.stores + vars.now.held.cycles ≤ cnf.old.vars }
    requires few { cnf.old.vars < 2 ^ 29 }
    requires room { length cnf.old.clauses + length (leaves vars.now.facts.now (held_over vars.now)
        (stores_over vars.now) made.launch) < 2 ^ 30 }
    ensures { OnOk result (cnf.new ≡ with_clauses cnf.old
        (of_thing made.var (leaves vars.now.facts.now (held_over vars.now) (stores_over vars.now) made.launch))) }
{
    if !is_store(vars.facts.instr_at(made.launch.row)) {
        return Ok(());
    }
    let class = class_at(vars.facts.graph(), made.launch.row);
    add_implied(
        cnf,
        made.var,
        held_after(&vars.held, vars.facts, class, made.launch.cycle),
    )?;
    add_implied(
        cnf,
        made.var,
        cycle_var(vars.stores, vars.held.cycles, made.launch.cycle),
    )
}

/// Adds for each cycle the clauses that there is a store in it, or what is held stays.
fn add_kept(alloc: Global, cnf: &mut Cnf, vars: &MemoryVars) -> Result<(), NoMemory>
    requires found { vars.now.found.now ≡ launched_in vars.now.facts.now specs.is_store vars.now.launches.now }
    requires held { AreHeldOver vars.now }
    requires launches { length vars.now.launches.now ≤ vars.now.held.first }
    requires exist { last_held vars.now ≤ vars.now.stores }
    requires cycles { vars.now.stores + vars.now.held.cycles ≤ cnf.old.vars }
    requires few { cnf.old.vars < 2 ^ 29 }
    requires room { length cnf.old.clauses + length (kept_clauses vars.now.facts.now vars.now.held.cycles
        (launched_over vars.now) (held_over vars.now) (stores_over vars.now)) < 2 ^ 30 }
    ensures { OnOk result (cnf.new ≡ with_clauses cnf.old (kept_clauses vars.now.facts.now vars.now.held.cycles
        (launched_over vars.now) (held_over vars.now) (stores_over vars.now))) }
{
    for cycle in 0..vars.held.cycles {
        add_stored(alloc, cnf, vars, cycle)?;
        add_stays(cnf, vars, cycle)?;
    }
    Ok(())
}

/// Adds the clause that there is a store in a cycle where its variable says so.
fn add_stored(alloc: Global, cnf: &mut Cnf, vars: &MemoryVars, cycle: u32) -> Result<(), NoMemory>
    requires found { vars.now.found.now ≡ launched_in vars.now.facts.now specs.is_store vars.now.launches.now }
    requires launches { length vars.now.launches.now ≤ vars.now.stores }
    requires cycles { vars.now.stores + vars.now.held.cycles ≤ cnf.old.vars }
    requires few { cnf.old.vars < 2 ^ 29 }
    requires cycle { cycle < vars.now.held.cycles }
    requires room { length cnf.old.clauses < 2 ^ 30 }
    ensures { OnOk result (cnf.new ≡ with_clauses cnf.old (implied (stores_over vars.now)
        (store_clause vars.now.facts.now (launched_over vars.now) cycle))) }
{
    let mut clause = Vec::new(alloc);
    clause.push(Lit {
        var: vars.stores + cycle + 1,
        positive: false,
    })?;
    push_stores(&mut clause, vars.found, cycle)?;
    cnf.add(&clause)
}

/// The variables of those stores that are in a cycle.
fn push_stores(lits: &mut Vec<Lit>, found: &[(u32, Launch)], cycle: u32) -> Result<(), NoMemory>
    ensures { OnOk result (lits.new.items
        ≡ lits.old.items ++ map (λ p. positive p.0) (filter (λ p. p.1.cycle == cycle) found.now)) }
{
    for (var, launch) in found {
        push_var_if(lits, launch.cycle == cycle, *var)?;
    }
    Ok(())
}

/// Adds for each memory the clause that it is held in the cycle after this one, if it is held and there is no store.
fn add_stays(cnf: &mut Cnf, vars: &MemoryVars, cycle: u32) -> Result<(), NoMemory>
    requires held { AreHeldOver vars.now }
    requires exist { last_held vars.now ≤ vars.now.stores }
    requires cycles { vars.now.stores + vars.now.held.cycles ≤ cnf.old.vars }
    requires few { cnf.old.vars < 2 ^ 29 }
    requires cycle { cycle < vars.now.held.cycles }
    requires room { length cnf.old.clauses + length (implied (held_over vars.now) (stays (held_over vars.now)
        (stores_over vars.now) cycle)) < 2 ^ 30 }
    ensures { OnOk result (cnf.new ≡ with_clauses cnf.old (implied (held_over vars.now) (stays (held_over vars.now)
        (stores_over vars.now) cycle))) }
{
    let mut var = vars.held.first + cycle + 1;
    for class in vars.held.classes.as_slice() {
        add_stay(cnf, vars, cycle, var, *class)?;
        var += vars.held.cycles + 1;
    }
    Ok(())
}

/// Adds the clause that the memory of a class is held in the cycle after this one, if its variable of this cycle is
/// true and there is no store.
fn add_stay(
    cnf: &mut Cnf,
    vars: &MemoryVars,
    cycle: u32,
    var: u32,
    class: u32,
) -> Result<(), NoMemory>
    requires held { AreHeldOver vars.now }
    requires var { IsLitOf cnf.old.vars (negative var) }
    requires exist { last_held vars.now ≤ vars.now.stores }
    requires cycles { vars.now.stores + vars.now.held.cycles ≤ cnf.old.vars }
    requires few { cnf.old.vars < 2 ^ 29 }
    requires cycle { cycle < vars.now.held.cycles }
    requires room { length cnf.old.clauses < 2 ^ 30 }
    ensures { OnOk result (cnf.new ≡ with_clauses cnf.old
        (of_thing var (stays (held_over vars.now) (stores_over vars.now) cycle (held_at class cycle)))) }
{
    let not = Lit {
        var,
        positive: false,
    };
    let store = Lit {
        var: vars.stores + cycle + 1,
        positive: true,
    };
    match held_after(&vars.held, vars.facts, class, cycle) {
        Some(next) => cnf.add(&[not, store, next]),
        None => cnf.add(&[not, store]),
    }
}

/// Adds a counter for each cycle: at most one store is in it.
fn add_store_counters(
    alloc: Global,
    cnf: &mut Cnf,
    vars: &MemoryVars,
    k: u32,
) -> Result<(), NoMemory>
    requires found { vars.now.found.now ≡ launched_in vars.now.facts.now specs.is_store vars.now.launches.now }
    requires exist { length vars.now.launches.now ≤ cnf.old.vars }
    requires vars { cnf.old.vars + counters_vars 1 (store_groups vars.now.facts.now k (launched_over vars.now))
        < 2 ^ 29 }
    requires room { length cnf.old.clauses + counters_size 1
        (store_groups vars.now.facts.now k (launched_over vars.now)) < 2 ^ 30 }
    ensures { OnOk result (cnf.new ≡ with_counters cnf.old (store_groups vars.now.facts.now k (launched_over vars.now))) }
{
    counters_count();
    for cycle in 0..k {
        let mut lits = Vec::new(alloc);
        push_stores(&mut lits, vars.found, cycle)?;
        at_most_one(cnf, &lits)?;
    }
    Ok(())
}

/// Adds the variables and clauses of memory. The launches have the first variables.
pub fn extend_by_memory(alloc: Global, cnf: &mut Cnf, plan: &Plan) -> Result<(), NoMemory>
    requires frame { IsFrame plan.now.frame }
    requires exist { length plan.now.launches.now ≤ cnf.old.vars }
    requires vars { (memory_by plan.now cnf.old).vars ≤ most_vars }
    requires clauses { length (memory_by plan.now cnf.old).clauses ≤ most_clauses }
    ensures { OnOk result (cnf.new ≡ memory_by plan.now cnf.old) }
{
    counters_count();
    let found = stores(alloc, plan.frame.facts, plan.launches)?;
    let held = held_vars(alloc, plan.frame.facts, plan.frame.k, cnf.vars())?;
    let before_stores = add_memory_vars(cnf, plan.frame.facts, &held);
    let vars = MemoryVars {
        facts: plan.frame.facts,
        launches: plan.launches,
        found: &found,
        held,
        stores: before_stores,
    };
    add_entry(cnf, plan.frame.facts, &vars.held)?;
    add_uses(cnf, &vars)?;
    add_kept(alloc, cnf, &vars)?;
    add_held_counters(alloc, cnf, plan.frame.facts, &vars.held)?;
    add_store_counters(alloc, cnf, &vars, plan.frame.k)?;
    add_last(cnf, plan.frame.facts, &vars.held)
}

/// Makes the variables of what is held and of cycles with a store; the last one before those of stores.
fn add_memory_vars(cnf: &mut Cnf, facts: &Facts, held: &HeldVars) -> u32
    requires held { AreHeldVars facts.now held.now.cycles held.now.classes.items held.now.starts.items }
    requires few { cnf.old.vars + length (all_held facts.now held.now.cycles) + held.now.cycles < 2 ^ 29 }
    ensures value { result ≡ cnf.old.vars + length (all_held facts.now held.now.cycles) }
    ensures vars { cnf.new ≡ record cnf.old {
      vars = cnf.old.vars + length (all_held facts.now held.now.cycles)
          + held.now.cycles;
    } }
{
    for _class in held.classes.as_slice() {
        add_vars(cnf, held.cycles + 1);
    }
    let before_stores = cnf.vars();
    add_vars(cnf, held.cycles);
    before_stores
}
