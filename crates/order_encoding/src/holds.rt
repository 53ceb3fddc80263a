// Which launches hold a register in which cycles, by live ranges.
ghost use Rattle.std.specs.Prelude.{◌≡◌, ◌+◌, ◌-◌, ◌*◌, ◌==◌, ◌<◌, ◌≤◌, ◌^◌, ◌∷◌, ◌++◌, length, map, IfOk, OnOk, option_to_list};
ghost use Rattle.schedule_meaning.specs.Limits.{most_cycles};
ghost use Rattle.machine_table.specs.Tables.{IsTable};
ghost use Rattle.cnf_core.specs.Formula as formula;
ghost use Rattle.cycle_encoding.specs.Shapes.{counters, counters_size, counters_vars, negative, numbered, vars_of};
ghost use Rattle.cycle_encoding.specs.Steps.{of_thing, with_clauses};
ghost use Rattle.order_encoding.specs.LiveOver.{AreNeedsOver, last_need, launched_over, needs_over};
ghost use Rattle.order_encoding.specs.LiveVariables.{all_holds};
ghost use Rattle.order_encoding.specs.LiveFamilies as families;
ghost use Rattle.order_encoding.specs.LiveFamilies.{is_hold_at};
ghost use Rattle.order_encoding.specs.OrderCounts as order_counts;
ghost use Rattle.order_encoding.specs.OrderSteps.{slot_lits};
ghost use Rattle.order_encoding.specs.OrderSteps as steps;

use crate::counts::registers;
use crate::needs::{Live, need_var, push_lit};
use cnf_core::{Cnf, Lit, at_most, counters_count};
use cycle_encoding::{Facts, Made, add_implied};
use items::NoMemory;
use machine_table::Table;
use schedule_meaning::{Launch, class_at, takes_pool};
use std::alloc::Global;

/// How many cycles there are from each of the starts below this one to the last cycle below k.
pub fn starts_before(k: u32, start: u32) -> u32
    requires cycles { k ≤ most_cycles }
    requires start { start ≤ k }
    ensures value { result ≡ steps.starts_before k start }
    ensures few { result ≤ 600 }
{
    let mut before = 0;
    for one in 0..start {
        before += k - one;
    }
    before
}

/// How many slots, starts and cycles from then on there are.
pub fn holds_count(table: &Table, k: u32) -> u32
    requires table { IsTable table.now }
    requires cycles { k ≤ most_cycles }
    ensures value { result ≡ order_counts.holds_count table.now k }
    ensures few { result ≤ 4800 }
{
    table.slots.len() as u32 * starts_before(k, k)
}

/// The variables which say that the launch of a slot, which starts in one of the cycles below k, holds a register in
/// another one; `first` is the variable before those.
#[derive(Clone, Copy)]
pub struct HoldVars<'a> {
    pub table: &'a Table,
    pub k: u32,
    pub first: u32,
}

/// That of a slot, a start and a cycle, if there is one.
fn hold_var(holds: &HoldVars, slot: u32, start: u32, cycle: u32) -> Option<Lit>
    requires table { IsTable holds.now.table.now }
    requires cycles { holds.now.k ≤ most_cycles }
    requires few { holds.now.first + length (all_holds holds.now.table.now holds.now.k) < 2 ^ 29 }
    ensures { option_to_list result
        ≡ vars_of (is_hold_at slot start cycle) (numbered holds.now.first (all_holds holds.now.table.now holds.now.k)) }
{
    if slot as usize >= holds.table.slots.len() {
        return None;
    }
    if cycle < start {
        return None;
    }
    if cycle >= holds.k {
        return None;
    }
    let before = slot * starts_before(holds.k, holds.k) + starts_before(holds.k, start);
    Some(Lit {
        var: holds.first + before + (cycle - start) + 1,
        positive: true,
    })
}

/// Adds for each launch to the pool that gives a word the clauses that it holds a register in its cycle, and in each later
/// one in which its class is needed. `first` is the variable before those of registers that are held.
pub fn add_holds(alloc: Global, cnf: &mut Cnf, live: &Live, first: u32) -> Result<(), NoMemory>
    requires table { IsTable live.now.table.now }
    requires cycles { live.now.needs.cycles ≤ most_cycles }
    requires needs { AreNeedsOver live.now }
    requires launches { length live.now.launches.now ≤ live.now.needs.first }
    requires next { last_need live.now ≤ first }
    requires exist { first + length (all_holds live.now.table.now live.now.needs.cycles) ≤ cnf.old.vars }
    requires few { cnf.old.vars < 2 ^ 29 }
    requires room { length cnf.old.clauses + length (families.hold_clauses live.now.facts.now live.now.needs.cycles
        (launched_over live.now) (needs_over live.now)
        (numbered first (all_holds live.now.table.now live.now.needs.cycles))) < 2 ^ 30 }
    ensures { OnOk result (cnf.new ≡ with_clauses cnf.old
        (families.hold_clauses live.now.facts.now live.now.needs.cycles (launched_over live.now) (needs_over live.now)
        (numbered first (all_holds live.now.table.now live.now.needs.cycles)))) }
{
    for (index, launch) in live.launches.iter().enumerate() {
        let made = Made {
            var: index as u32 + 1,
            launch: *launch,
        };
        add_launch_holds(alloc, cnf, live, first, made)?;
    }
    Ok(())
}

/// Adds those of one launch, if it goes to the pool and gives a word.
fn add_launch_holds(
    alloc: Global,
    cnf: &mut Cnf,
    live: &Live,
    first: u32,
    made: Made,
) -> Result<(), NoMemory>
    requires table { IsTable live.now.table.now }
    requires cycles { live.now.needs.cycles ≤ most_cycles }
    requires needs { AreNeedsOver live.now }
    requires var { 1 ≤ made.var }
    requires launches { made.var ≤ live.now.needs.first }
    requires next { last_need live.now ≤ first }
    requires exist { first + length (all_holds live.now.table.now live.now.needs.cycles) ≤ cnf.old.vars }
    requires few { cnf.old.vars < 2 ^ 29 }
    requires room { length cnf.old.clauses + length (families.holds_register live.now.facts.now live.now.needs.cycles
        (needs_over live.now)
        (numbered first (all_holds live.now.table.now live.now.needs.cycles)) made.launch) < 2 ^ 30 }
    ensures { OnOk result (cnf.new ≡ with_clauses cnf.old
        (of_thing made.var (families.holds_register live.now.facts.now live.now.needs.cycles (needs_over live.now)
        (numbered first (all_holds live.now.table.now live.now.needs.cycles)) made.launch))) }
{
    if !takes_pool(made.launch, live.facts.instr_at(made.launch.row)) {
        return Ok(());
    }
    let (k, slot, start) = (live.needs.cycles, made.launch.slot, made.launch.cycle);
    let holds = HoldVars {
        table: live.table,
        k,
        first,
    };
    add_implied(cnf, made.var, hold_var(&holds, slot, start, start))?;
    for step in 1..k.saturating_sub(start) {
        let cycle = start + step;
        let need = need_var(live, class_at(live.facts.graph(), made.launch.row), cycle);
        let hold = hold_var(&holds, slot, start, cycle);
        let clause = hold_clause(alloc, made.var, need, hold)?;
        cnf.add(&clause)?;
    }
    Ok(())
}

/// The clause that a variable and what is needed, if it has a variable, imply that a register is held.
fn hold_clause(
    alloc: Global,
    var: u32,
    need: Option<Lit>,
    hold: Option<Lit>,
) -> Result<Vec<Lit>, NoMemory>
    ensures { IfOk result (λ clause. clause.items
        ≡ negative var ∷ (map formula.negated (option_to_list need) ++ option_to_list hold)) }
{
    let mut clause = Vec::new(alloc);
    clause.push(Lit {
        var,
        positive: false,
    })?;
    push_lit(&mut clause, negated_option(need))?;
    push_lit(&mut clause, hold)?;
    Ok(clause)
}

/// The literal negated, if there is one.
pub fn negated_option(lit: Option<Lit>) -> Option<Lit>
    ensures { option_to_list result ≡ map formula.negated (option_to_list lit) }
{
    match lit {
        Some(lit) => Some(lit.negated()),
        None => None,
    }
}

/// The variables of what is held in a cycle, by slot, then by start.
fn held_lits(alloc: Global, holds: &HoldVars, cycle: u32) -> Result<Vec<Lit>, NoMemory>
    requires table { IsTable holds.now.table.now }
    requires cycles { holds.now.k ≤ most_cycles }
    requires cycle { cycle < holds.now.k }
    requires few { holds.now.first + length (all_holds holds.now.table.now holds.now.k) < 2 ^ 29 }
    ensures { IfOk result (λ lits. lits.items
        ≡ vars_of (λ h. h.cycle == cycle) (numbered holds.now.first (all_holds holds.now.table.now holds.now.k))) }
{
    let mut lits = Vec::new(alloc);
    for slot in 0..holds.table.slots.len() as u32 {
        push_slot_lits(&mut lits, holds, slot, cycle)?;
    }
    Ok(lits)
}

/// Those of one slot.
fn push_slot_lits(
    lits: &mut Vec<Lit>,
    holds: &HoldVars,
    slot: u32,
    cycle: u32,
) -> Result<(), NoMemory>
    requires table { IsTable holds.now.table.now }
    requires cycles { holds.now.k ≤ most_cycles }
    requires cycle { cycle < holds.now.k }
    requires few { holds.now.first + length (all_holds holds.now.table.now holds.now.k) < 2 ^ 29 }
    ensures { OnOk result (lits.new.items ≡ lits.old.items
        ++ slot_lits cycle (numbered holds.now.first (all_holds holds.now.table.now holds.now.k)) slot) }
{
    for start in 0..cycle + 1 {
        push_lit(lits, hold_var(holds, slot, start, cycle))?;
    }
    Ok(())
}

/// Adds a counter for each cycle: at most as many registers are held as the pool has.
pub fn add_hold_counters(
    alloc: Global,
    cnf: &mut Cnf,
    facts: &Facts,
    holds: &HoldVars,
) -> Result<(), NoMemory>
    requires table { IsTable holds.now.table.now }
    requires cycles { holds.now.k ≤ most_cycles }
    requires exist { holds.now.first + length (all_holds holds.now.table.now holds.now.k) ≤ cnf.old.vars }
    requires vars { cnf.old.vars + counters_vars (length facts.now.pool) (families.hold_groups holds.now.k
        (numbered holds.now.first (all_holds holds.now.table.now holds.now.k))) < 2 ^ 29 }
    requires room { length cnf.old.clauses + counters_size (length facts.now.pool) (families.hold_groups holds.now.k
        (numbered holds.now.first (all_holds holds.now.table.now holds.now.k))) < 2 ^ 30 }
    ensures { OnOk result (cnf.new ≡ record {
      vars = cnf.old.vars + counters_vars (length facts.now.pool)
          (families.hold_groups holds.now.k (numbered holds.now.first (all_holds holds.now.table.now holds.now.k)));
      clauses = cnf.old.clauses ++ counters cnf.old.vars (length facts.now.pool)
          (families.hold_groups holds.now.k (numbered holds.now.first (all_holds holds.now.table.now holds.now.k)));
    }) }
{
    counters_count();
    for cycle in 0..holds.k {
        let lits = held_lits(alloc, holds, cycle)?;
        let most = registers(facts.graph(), lits.len() as u32);
        at_most(cnf, &lits, most)?;
    }
    Ok(())
}
