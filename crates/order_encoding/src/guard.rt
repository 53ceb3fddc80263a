// The branch of a guard: it is launched once, and what waits for it comes no earlier.
ghost use Rattle.std.specs.Prelude.{◌≡◌, ◌+◌, ◌<◌, ◌≤◌, ◌^◌, ◌++◌, nat_le, ◌∷◌, [], length, map, OnOk};
ghost use Rattle.std.specs.List.{filter};
ghost use Rattle.cycle_encoding.specs.Limits.{most_vars, most_clauses};
ghost use Rattle.schedule_meaning.specs.Launches as specs;
ghost use Rattle.cycle_encoding.specs.Shapes.{positive, implied, vars_of};
ghost use Rattle.cycle_encoding.specs.Steps.{of_thing, with_clauses};
ghost use Rattle.order_encoding.specs.PlanOver.{cycles_by, guard_by, launched_by};
ghost use Rattle.order_encoding.specs.OrderFamilies.{branches_by, comes_after};
ghost use Rattle.order_encoding.specs.OrderSteps.{launched_in};

use crate::cycles::cycle_var;
use crate::kinds::{branches, push_var_if, waits};
use crate::plans::Plan;
use cnf_core::{Cnf, Lit, at_most_one, counters_count};
use cycle_encoding::{Facts, Made, add_implied, add_vars, variables};
use items::NoMemory;
use schedule_meaning::Launch;
use std::alloc::Global;

/// Adds for each launch that waits the clause that it comes when the branch has come. `first` is the variable before
/// those of cycles by which the branch has come.
fn add_waits(cnf: &mut Cnf, plan: &Plan, first: u32) -> Result<(), NoMemory>
    requires launches { length plan.now.launches.now ≤ first }
    requires exist { first + plan.now.frame.k ≤ cnf.old.vars }
    requires few { cnf.old.vars < 2 ^ 29 }
    requires room { length cnf.old.clauses + length (implied (launched_by plan.now)
        (comes_after plan.now.frame.facts.now (cycles_by plan.now first))) < 2 ^ 30 }
    ensures { OnOk result (cnf.new ≡ with_clauses cnf.old
        (implied (launched_by plan.now) (comes_after plan.now.frame.facts.now (cycles_by plan.now first)))) }
{
    for (index, launch) in plan.launches.iter().enumerate() {
        let made = Made {
            var: index as u32 + 1,
            launch: *launch,
        };
        add_wait(cnf, plan, first, made)?;
    }
    Ok(())
}

/// Adds the clause of one launch, if it waits.
fn add_wait(cnf: &mut Cnf, plan: &Plan, first: u32, made: Made) -> Result<(), NoMemory>
    requires var { 1 ≤ made.var }
    requires launches { made.var ≤ first }
    requires exist { first + plan.now.frame.k ≤ cnf.old.vars }
    requires few { cnf.old.vars < 2 ^ 29 }
    requires room { length cnf.old.clauses + length (comes_after plan.now.frame.facts.now (cycles_by plan.now first)
        made.launch) < 2 ^ 30 }
    ensures { OnOk result (cnf.new ≡ with_clauses cnf.old
        (of_thing made.var (comes_after plan.now.frame.facts.now (cycles_by plan.now first) made.launch))) }
{
    if waits(plan.frame.facts, made.launch.row) {
        add_implied(
            cnf,
            made.var,
            cycle_var(first, plan.frame.k, made.launch.cycle),
        )
    } else {
        Ok(())
    }
}

/// Adds for each cycle the clause that the branch has come by it where it was launched by then.
fn add_comes(
    alloc: Global,
    cnf: &mut Cnf,
    plan: &Plan,
    found: &[(u32, Launch)],
    first: u32,
) -> Result<(), NoMemory>
    requires found { found.now ≡ launched_in plan.now.frame.facts.now specs.is_branch plan.now.launches.now }
    requires launches { length plan.now.launches.now ≤ first }
    requires exist { first + plan.now.frame.k ≤ cnf.old.vars }
    requires few { cnf.old.vars < 2 ^ 29 }
    requires room { length cnf.old.clauses + length (implied (cycles_by plan.now first)
        (λ t. vars_of (branches_by plan.now.frame.facts.now t) (launched_by plan.now) ∷ [])) < 2 ^ 30 }
    ensures { OnOk result (cnf.new ≡ with_clauses cnf.old (implied (cycles_by plan.now first)
        (λ t. vars_of (branches_by plan.now.frame.facts.now t) (launched_by plan.now) ∷ []))) }
{
    for cycle in 0..plan.frame.k {
        let mut clause = Vec::new(alloc);
        clause.push(Lit {
            var: first + cycle + 1,
            positive: false,
        })?;
        push_branches(&mut clause, found, cycle)?;
        cnf.add(&clause)?;
    }
    Ok(())
}

/// The variables of those launches of the branch that are in a cycle or an earlier one.
fn push_branches(lits: &mut Vec<Lit>, found: &[(u32, Launch)], cycle: u32) -> Result<(), NoMemory>
    ensures { OnOk result (lits.new.items
        ≡ lits.old.items ++ map (λ p. positive p.0) (filter (λ p. nat_le p.1.cycle cycle) found.now)) }
{
    for (var, launch) in found {
        push_var_if(lits, launch.cycle <= cycle, *var)?;
    }
    Ok(())
}

/// Adds the variables and clauses of a guard's branch, if there is a guard. The launches have the first variables.
pub fn extend_by_guard(alloc: Global, cnf: &mut Cnf, plan: &Plan) -> Result<(), NoMemory>
    requires exist { length plan.now.launches.now ≤ cnf.old.vars }
    requires vars { (guard_by plan.now cnf.old).vars ≤ most_vars }
    requires clauses { length (guard_by plan.now cnf.old).clauses ≤ most_clauses }
    ensures { OnOk result (cnf.new ≡ guard_by plan.now cnf.old) }
{
    if plan.frame.facts.graph().guard.is_none() {
        return Ok(());
    }
    counters_count();
    let found = branches(alloc, plan.frame.facts, plan.launches)?;
    let lits = variables(alloc, &found)?;
    let first = cnf.vars();
    add_vars(cnf, plan.frame.k);
    cnf.add(&lits)?;
    at_most_one(cnf, &lits)?;
    add_waits(cnf, plan, first)?;
    add_comes(alloc, cnf, plan, &found, first)
}
