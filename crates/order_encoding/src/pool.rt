// Registers: launches to the pool that give words take no more registers than it has.
ghost use Rattle.std.specs.Prelude.{◌≡◌, ◌+◌, ◌<◌, ◌≤◌, ◌^◌, List, length, IfOk, OnOk, option_to_list};
ghost use Rattle.cycle_encoding.specs.Framed.{IsFrame};
ghost use Rattle.cycle_encoding.specs.Limits.{most_vars, most_clauses};
ghost use Rattle.cycle_encoding.specs.Families.{any};
ghost use Rattle.cycle_encoding.specs.Shapes.{numbered, vars_of};
ghost use Rattle.cycle_encoding.specs.Steps.{of_thing, with_clauses};
ghost use Rattle.order_encoding.specs.PlanOver.{registers_by};
ghost use Rattle.order_encoding.specs.OrderVariables.{all_taken, Taken};
ghost use Rattle.order_encoding.specs.OrderFamilies.{is_taken_at};
ghost use Rattle.order_encoding.specs.PinFamilies.{pool_clauses, takes_register};

use crate::counts::registers;
use crate::plans::Plan;
use cnf_core::{Cnf, Lit, at_most, counters_count};
use cycle_encoding::{Facts, Made, add_implied, add_vars};
use items::NoMemory;
use machine_table::Table;
use schedule_meaning::{Launch, takes_pool};
use std::alloc::Global;

/// The variables of the slots and cycles whose launch takes a register; `first` is the variable before those.
#[derive(Clone, Copy)]
pub struct TakenVars<'a> {
    pub table: &'a Table,
    pub k: u32,
    pub first: u32,
}

/// The variable of a slot and cycle whose launch takes a register, if it has one.
fn taken_var(taken: &TakenVars, slot: u32, cycle: u32) -> Option<Lit>
    requires few { taken.now.first + length (all_taken taken.now.table.now taken.now.k) < 2 ^ 29 }
    ensures { option_to_list result ≡ vars_of (is_taken_at slot cycle)
        (numbered taken.now.first (all_taken taken.now.table.now taken.now.k)) }
{
    if slot as usize >= taken.table.slots.len() {
        return None;
    }
    if cycle >= taken.k {
        return None;
    }
    Some(Lit {
        var: taken.first + slot * taken.k + cycle + 1,
        positive: true,
    })
}

/// Adds for each launch to the pool that gives a word the clause that it takes a register.
fn add_takes(
    cnf: &mut Cnf,
    facts: &Facts,
    taken: &TakenVars,
    launches: &[Launch],
) -> Result<(), NoMemory>
    requires launches { length launches.now ≤ taken.now.first }
    requires exist { taken.now.first + length (all_taken taken.now.table.now taken.now.k) ≤ cnf.old.vars }
    requires few { cnf.old.vars < 2 ^ 29 }
    requires room { length cnf.old.clauses + length (pool_clauses facts.now (numbered 0 launches.now)
        (numbered taken.now.first (all_taken taken.now.table.now taken.now.k))) < 2 ^ 30 }
    ensures { OnOk result (cnf.new ≡ with_clauses cnf.old (pool_clauses facts.now (numbered 0 launches.now)
        (numbered taken.now.first (all_taken taken.now.table.now taken.now.k)))) }
{
    for (index, launch) in launches.iter().enumerate() {
        let made = Made {
            var: index as u32 + 1,
            launch: *launch,
        };
        add_take(cnf, facts, taken, made)?;
    }
    Ok(())
}

/// Adds the clause of one launch, if it goes to the pool and gives a word.
fn add_take(cnf: &mut Cnf, facts: &Facts, taken: &TakenVars, made: Made) -> Result<(), NoMemory>
    requires var { 1 ≤ made.var }
    requires launches { made.var ≤ taken.now.first }
    requires exist { taken.now.first + length (all_taken taken.now.table.now taken.now.k) ≤ cnf.old.vars }
    requires few { cnf.old.vars < 2 ^ 29 }
    requires room { length cnf.old.clauses + length
        (takes_register facts.now (numbered taken.now.first (all_taken taken.now.table.now taken.now.k)) made.launch)
        < 2 ^ 30 }
    ensures { OnOk result (cnf.new ≡ with_clauses cnf.old
        (of_thing made.var (takes_register facts.now
        (numbered taken.now.first (all_taken taken.now.table.now taken.now.k)) made.launch))) }
{
    if takes_pool(made.launch, facts.instr_at(made.launch.row)) {
        add_implied(
            cnf,
            made.var,
            taken_var(taken, made.launch.slot, made.launch.cycle),
        )
    } else {
        Ok(())
    }
}

/// So many variables, one after another; `first` is the one before them.
fn following(alloc: Global, first: u32, count: u32) -> Result<Vec<Lit>, NoMemory>
    requires few { first + count < 2 ^ 29 }
    ensures { IfOk result (λ lits. (xs : List Taken) → length xs ≡ count
        → lits.items ≡ vars_of any (numbered first xs)) }
{
    let mut lits = Vec::new(alloc);
    for place in 0..count {
        lits.push(Lit {
            var: first + place + 1,
            positive: true,
        })?;
    }
    Ok(lits)
}

/// Adds the variables and clauses of registers that are kept to the end of the block. The launches have the first variables.
pub fn extend_by_registers(alloc: Global, cnf: &mut Cnf, plan: &Plan) -> Result<(), NoMemory>
    requires frame { IsFrame plan.now.frame }
    requires exist { length plan.now.launches.now ≤ cnf.old.vars }
    requires vars { (registers_by plan.now cnf.old).vars ≤ most_vars }
    requires clauses { length (registers_by plan.now cnf.old).clauses ≤ most_clauses }
    ensures { OnOk result (cnf.new ≡ registers_by plan.now cnf.old) }
{
    counters_count();
    let first = cnf.vars();
    let count = plan.frame.table.slots.len() as u32 * plan.frame.k;
    let most = registers(plan.frame.facts.graph(), count);
    let lits = following(alloc, first, count)?;
    add_vars(cnf, count);
    let taken = TakenVars {
        table: plan.frame.table,
        k: plan.frame.k,
        first,
    };
    add_takes(cnf, plan.frame.facts, &taken, plan.launches)?;
    at_most(cnf, &lits, most)
}
