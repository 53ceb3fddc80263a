// Pins: what launches to pinned sets overwrite, that as many go there as have to, and that they wait for the branch.
ghost use Rattle.std.specs.Prelude.{◌≡◌, ◌+◌, ◌<◌, ◌≤◌, ◌==◌, ◌&&◌, ◌^◌, ◌∷◌, [], not, length, map, is_some, option_to_list};
ghost use Rattle.std.specs.Prelude.{IfOk, OnOk};
ghost use Rattle.std.specs.List.{range_with_len};
ghost use Rattle.cycle_encoding.specs.Framed.{IsFrame};
ghost use Rattle.cycle_encoding.specs.Limits.{most_vars, most_clauses};
ghost use Rattle.schedule_meaning.specs.Limits.{most_cycles};
ghost use Rattle.schedule_meaning.specs.Launches as specs;
ghost use Rattle.cycle_encoding.specs.Shapes.{implied, numbered, vars_of, when, counters_vars, counters_size};
ghost use Rattle.cycle_encoding.specs.Steps.{of_thing, with_clauses, with_counters};
ghost use Rattle.order_encoding.specs.PlanOver.{branch_cycles, cycles_by, last_lost, launched_by, lost_by, pins_by};
ghost use Rattle.order_encoding.specs.PinFamilies as families;
ghost use Rattle.order_encoding.specs.PinFamilies.{late_clauses, overwritten_clauses, overwrites_after};
ghost use Rattle.order_encoding.specs.PinFamilies.{load_clauses, loads_alone, pin_clauses, pin_groups};
ghost use Rattle.order_encoding.specs.OrderSteps.{next_in_set, clauses_in_set, stays_in_set};

use crate::cycles::cycle_var;
use crate::holds::negated_option;
use crate::kinds::{goes_to, push_var_if};
use crate::pin_counts::has_own_input;
use crate::plans::Plan;
use cnf_core::{Cnf, Lit, at_most_one, counters_count};
use cycle_encoding::{Facts, Made, add_implied, is_overwriting};
use items::NoMemory;
use schedule_meaning::{Launch, is_load, overwrites};
use std::alloc::Global;

// ---- what is overwritten

/// Adds for each set that is pinned to an input's register the clauses of what launches to it overwrite.
fn add_overwritten(cnf: &mut Cnf, plan: &Plan) -> Result<(), NoMemory>
    requires rows { length plan.now.frame.facts.now.rows < 2 ^ 30 }
    requires cycles { plan.now.frame.k ≤ most_cycles }
    requires launches { length plan.now.launches.now ≤ plan.now.over.now.first }
    requires exist { last_lost plan.now ≤ cnf.old.vars }
    requires few { cnf.old.vars < 2 ^ 29 }
    requires room { length cnf.old.clauses + length (overwritten_clauses plan.now.frame.facts.now plan.now.frame.k
        (launched_by plan.now) (lost_by plan.now)) < 2 ^ 30 }
    ensures { OnOk result (cnf.new ≡ with_clauses cnf.old
        (overwritten_clauses plan.now.frame.facts.now plan.now.frame.k (launched_by plan.now) (lost_by plan.now))) }
{
    let mut before = plan.over.first;
    for set in 0..set_count(plan.frame.facts) {
        if is_overwriting(plan.frame.facts, set) {
            add_set(cnf, plan, set, before)?;
            before += plan.frame.k + 1;
        }
    }
    Ok(())
}

/// How many sets there are.
pub fn set_count(facts: &Facts) -> u32
    requires rows { length facts.now.rows < 2 ^ 30 }
    ensures { result ≡ length facts.now.sets }
{
    facts.row_numbers() - (facts.graph().rows.len() as u32 + 1)
}

/// Adds the clauses of one set. `before` is the variable before those of its cycles.
fn add_set(cnf: &mut Cnf, plan: &Plan, set: u32, before: u32) -> Result<(), NoMemory>
    requires cycles { plan.now.frame.k ≤ most_cycles }
    requires launches { length plan.now.launches.now ≤ before }
    requires exist { before + (plan.now.frame.k + 1) ≤ cnf.old.vars }
    requires few { cnf.old.vars < 2 ^ 29 }
    requires room { length cnf.old.clauses + length (clauses_in_set plan.now.frame.k (launched_by plan.now) before set)
        < 2 ^ 30 }
    ensures { OnOk result (cnf.new ≡ with_clauses cnf.old (clauses_in_set plan.now.frame.k (launched_by plan.now) before
        set)) }
{
    add_goes(cnf, plan, set, before)?;
    add_stays(cnf, before, plan.frame.k)
}

/// Adds for each launch to a set the clause that it overwrites the set's register from the next cycle on.
fn add_goes(cnf: &mut Cnf, plan: &Plan, set: u32, before: u32) -> Result<(), NoMemory>
    requires cycles { plan.now.frame.k ≤ most_cycles }
    requires launches { length plan.now.launches.now ≤ before }
    requires exist { before + (plan.now.frame.k + 1) ≤ cnf.old.vars }
    requires few { cnf.old.vars < 2 ^ 29 }
    requires room { length cnf.old.clauses + length (implied (launched_by plan.now)
        (next_in_set plan.now.frame.k before set)) < 2 ^ 30 }
    ensures { OnOk result
        (cnf.new ≡ with_clauses cnf.old (implied (launched_by plan.now) (next_in_set plan.now.frame.k before set))) }
{
    for (index, launch) in plan.launches.iter().enumerate() {
        let made = Made {
            var: index as u32 + 1,
            launch: *launch,
        };
        add_go(cnf, set, before, plan, made)?;
    }
    Ok(())
}

/// Adds the clause of one launch, if it goes to the set.
fn add_go(cnf: &mut Cnf, set: u32, before: u32, plan: &Plan, made: Made) -> Result<(), NoMemory>
    requires cycles { plan.now.frame.k ≤ most_cycles }
    requires var { 1 ≤ made.var }
    requires launches { made.var ≤ before }
    requires exist { before + (plan.now.frame.k + 1) ≤ cnf.old.vars }
    requires few { cnf.old.vars < 2 ^ 29 }
    requires room { length cnf.old.clauses + length (next_in_set plan.now.frame.k before set made.launch) < 2 ^ 30 }
    ensures { OnOk result (cnf.new ≡ with_clauses cnf.old
        (of_thing made.var (next_in_set plan.now.frame.k before set made.launch))) }
{
    if goes_to(made.launch, set) {
        add_implied(
            cnf,
            made.var,
            var_after(before, plan.frame.k, made.launch.cycle),
        )
    } else {
        Ok(())
    }
}

/// The variable of the cycle after this one, if it is one of those from 0 to k; `before` is the variable before that of
/// cycle 0.
fn var_after(before: u32, k: u32, cycle: u32) -> Option<Lit>
    requires cycles { k ≤ most_cycles }
    requires few { before + (k + 1) < 2 ^ 29 }
    ensures { option_to_list result ≡ vars_of (λ t. t == cycle + 1) (numbered before (range_with_len 0 (k + 1))) }
{
    if cycle >= k {
        None
    } else {
        cycle_var(before, k + 1, cycle + 1)
    }
}

/// Adds for each cycle the clause that what is overwritten below it is so below the next.
fn add_stays(cnf: &mut Cnf, before: u32, k: u32) -> Result<(), NoMemory>
    requires cycles { k ≤ most_cycles }
    requires exist { before + (k + 1) ≤ cnf.old.vars }
    requires few { cnf.old.vars < 2 ^ 29 }
    requires room { length cnf.old.clauses + k < 2 ^ 30 }
    ensures { OnOk result (cnf.new ≡ with_clauses cnf.old (map (stays_in_set before) (range_with_len 0 k))) }
{
    for cycle in 0..k {
        let next = Lit {
            var: before + cycle + 2,
            positive: true,
        };
        add_implied(cnf, before + cycle + 1, Some(next))?;
    }
    Ok(())
}

// ---- how many launches go to a set

/// Adds a counter for each pinned set: at most one launch goes to it.
fn add_pin_counters(alloc: Global, cnf: &mut Cnf, plan: &Plan) -> Result<(), NoMemory>
    requires exist { length plan.now.launches.now ≤ cnf.old.vars }
    requires vars { cnf.old.vars + counters_vars 1 (pin_groups plan.now.frame.facts.now (launched_by plan.now))
        < 2 ^ 29 }
    requires room { length cnf.old.clauses + counters_size 1 (pin_groups plan.now.frame.facts.now
        (launched_by plan.now)) < 2 ^ 30 }
    ensures { OnOk result (cnf.new ≡ with_counters cnf.old (pin_groups plan.now.frame.facts.now (launched_by plan.now))) }
{
    counters_count();
    for set in plan.frame.facts.pins() {
        let lits = going(alloc, plan.launches, *set)?;
        at_most_one(cnf, &lits)?;
    }
    Ok(())
}

/// The variables of launches to a set.
fn going(alloc: Global, launches: &[Launch], set: u32) -> Result<Vec<Lit>, NoMemory>
    requires few { length launches.now < 2 ^ 29 }
    ensures { IfOk result (λ lits. lits.items ≡ vars_of (specs.goes_to set) (numbered 0 launches.now)) }
{
    let mut lits = Vec::new(alloc);
    for (index, launch) in launches.iter().enumerate() {
        push_var_if(&mut lits, goes_to(*launch, set), index as u32 + 1)?;
    }
    Ok(lits)
}

/// Adds for each pinned set to which some launch has to go the clause that one does.
fn add_reached(alloc: Global, cnf: &mut Cnf, plan: &Plan) -> Result<(), NoMemory>
    requires exist { length plan.now.launches.now ≤ cnf.old.vars }
    requires few { cnf.old.vars < 2 ^ 29 }
    requires room { length cnf.old.clauses + length (pin_clauses plan.now.frame.facts.now (launched_by plan.now))
        < 2 ^ 30 }
    ensures { OnOk result (cnf.new ≡ with_clauses cnf.old (pin_clauses plan.now.frame.facts.now (launched_by plan.now))) }
{
    for set in plan.frame.facts.pins() {
        add_reached_set(alloc, cnf, plan, *set)?;
    }
    Ok(())
}

/// Adds the clause of one set, unless an input of its class has its pin.
fn add_reached_set(alloc: Global, cnf: &mut Cnf, plan: &Plan, set: u32) -> Result<(), NoMemory>
    requires exist { length plan.now.launches.now ≤ cnf.old.vars }
    requires few { cnf.old.vars < 2 ^ 29 }
    requires room { length cnf.old.clauses + length (when (not (families.has_own_input plan.now.frame.facts.now set))
        (vars_of (specs.goes_to set) (launched_by plan.now) ∷ [])) < 2 ^ 30 }
    ensures { OnOk result (cnf.new ≡ with_clauses cnf.old
        (when (not (families.has_own_input plan.now.frame.facts.now set)) (vars_of (specs.goes_to set)
        (launched_by plan.now) ∷ []))) }
{
    if has_own_input(plan.frame.facts, set) {
        return Ok(());
    }
    let lits = going(alloc, plan.launches, set)?;
    cnf.add(&lits)
}

// ---- what waits for the branch

/// Adds for each launch that overwrites an input the clause that it comes when the branch has come. `first` is the
/// variable before those of cycles by which the branch has come.
fn add_late(cnf: &mut Cnf, plan: &Plan, first: u32) -> Result<(), NoMemory>
    requires launches { length plan.now.launches.now ≤ first }
    requires exist { first + plan.now.frame.k ≤ cnf.old.vars }
    requires few { cnf.old.vars < 2 ^ 29 }
    requires room { length cnf.old.clauses + length (implied (launched_by plan.now)
        (overwrites_after plan.now.frame.facts.now (cycles_by plan.now first))) < 2 ^ 30 }
    ensures { OnOk result (cnf.new ≡ with_clauses cnf.old
        (implied (launched_by plan.now) (overwrites_after plan.now.frame.facts.now (cycles_by plan.now first)))) }
{
    for (index, launch) in plan.launches.iter().enumerate() {
        let made = Made {
            var: index as u32 + 1,
            launch: *launch,
        };
        add_late_one(cnf, plan, first, made)?;
    }
    Ok(())
}

/// Adds the clause of one launch, if it overwrites an input.
fn add_late_one(cnf: &mut Cnf, plan: &Plan, first: u32, made: Made) -> Result<(), NoMemory>
    requires var { 1 ≤ made.var }
    requires launches { made.var ≤ first }
    requires exist { first + plan.now.frame.k ≤ cnf.old.vars }
    requires few { cnf.old.vars < 2 ^ 29 }
    requires room { length cnf.old.clauses
        + length (overwrites_after plan.now.frame.facts.now (cycles_by plan.now first) made.launch) < 2 ^ 30 }
    ensures { OnOk result (cnf.new ≡ with_clauses cnf.old
        (of_thing made.var (overwrites_after plan.now.frame.facts.now (cycles_by plan.now first) made.launch))) }
{
    if overwrites(plan.frame.facts.graph(), made.launch) {
        add_implied(
            cnf,
            made.var,
            cycle_var(first, plan.frame.k, made.launch.cycle),
        )
    } else {
        Ok(())
    }
}

/// The same where there is a guard.
fn add_late_of_guard(cnf: &mut Cnf, plan: &Plan, first: u32) -> Result<(), NoMemory>
    requires launches { length plan.now.launches.now ≤ first }
    requires exist { first + length (branch_cycles plan.now) ≤ cnf.old.vars }
    requires few { cnf.old.vars < 2 ^ 29 }
    requires room { length cnf.old.clauses + length (late_clauses plan.now.frame.facts.now (launched_by plan.now)
        (numbered first (branch_cycles plan.now))) < 2 ^ 30 }
    ensures { OnOk result (cnf.new ≡ with_clauses cnf.old (late_clauses plan.now.frame.facts.now (launched_by plan.now)
        (numbered first (branch_cycles plan.now)))) }
{
    if plan.frame.facts.graph().guard.is_none() {
        return Ok(());
    }
    add_late(cnf, plan, first)
}

// ---- loads that overwrite

/// Adds for each load that overwrites an input's register the clause that no store launches in its cycle. `first` is the
/// variable before those of cycles with a store.
fn add_over_loads(cnf: &mut Cnf, plan: &Plan, first: u32) -> Result<(), NoMemory>
    requires launches { length plan.now.launches.now ≤ first }
    requires exist { first + plan.now.frame.k ≤ cnf.old.vars }
    requires few { cnf.old.vars < 2 ^ 29 }
    requires room { length cnf.old.clauses
        + length (load_clauses plan.now.frame.facts.now (launched_by plan.now) (cycles_by plan.now first)) < 2 ^ 30 }
    ensures { OnOk result (cnf.new ≡ with_clauses cnf.old
        (load_clauses plan.now.frame.facts.now (launched_by plan.now) (cycles_by plan.now first))) }
{
    for (index, launch) in plan.launches.iter().enumerate() {
        let made = Made {
            var: index as u32 + 1,
            launch: *launch,
        };
        add_over_load(cnf, plan, first, made)?;
    }
    Ok(())
}

/// Whether the launch is a load that overwrites an input's register.
fn overwrites_by_load(facts: &Facts, launch: Launch) -> bool
    ensures { result ≡ (specs.launches facts.now specs.is_load launch && specs.overwrites facts.now launch) }
{
    is_load(facts.instr_at(launch.row)) && overwrites(facts.graph(), launch)
}

/// Adds the clause of one launch, if it is such a load.
fn add_over_load(cnf: &mut Cnf, plan: &Plan, first: u32, made: Made) -> Result<(), NoMemory>
    requires var { 1 ≤ made.var }
    requires launches { made.var ≤ first }
    requires exist { first + plan.now.frame.k ≤ cnf.old.vars }
    requires few { cnf.old.vars < 2 ^ 29 }
    requires room { length cnf.old.clauses
        + length (loads_alone plan.now.frame.facts.now (cycles_by plan.now first) made.launch) < 2 ^ 30 }
    ensures { OnOk result (cnf.new ≡ with_clauses cnf.old
        (of_thing made.var (loads_alone plan.now.frame.facts.now (cycles_by plan.now first) made.launch))) }
{
    if !overwrites_by_load(plan.frame.facts, made.launch) {
        return Ok(());
    }
    let store = negated_option(cycle_var(first, plan.frame.k, made.launch.cycle));
    add_implied(cnf, made.var, store)
}

// ---- all of them

/// Adds the variables and clauses of pins. `branches` is the variable before those of cycles by which the branch has
/// come, and `stores` the one before those of cycles with a store.
pub fn extend_by_pins(
    alloc: Global,
    cnf: &mut Cnf,
    plan: &Plan,
    branches: u32,
    stores: u32,
) -> Result<(), NoMemory>
    requires frame { IsFrame plan.now.frame }
    requires launches { length plan.now.launches.now ≤ plan.now.over.now.first }
    requires exist { last_lost plan.now ≤ branches }
    requires branches { branches + length (branch_cycles plan.now) ≤ cnf.old.vars }
    requires before_stores { length plan.now.launches.now ≤ stores }
    requires stores { stores + plan.now.frame.k ≤ cnf.old.vars }
    requires vars { (pins_by plan.now branches stores cnf.old).vars ≤ most_vars }
    requires clauses { length (pins_by plan.now branches stores cnf.old).clauses ≤ most_clauses }
    ensures { OnOk result (cnf.new ≡ pins_by plan.now branches stores cnf.old) }
{
    counters_count();
    add_overwritten(cnf, plan)?;
    add_pin_counters(alloc, cnf, plan)?;
    add_reached(alloc, cnf, plan)?;
    add_late_of_guard(cnf, plan, branches)?;
    add_over_loads(cnf, plan, stores)
}
