// Which classes are needed in which cycles, by live ranges: their variables, and the clauses that say when they are.
ghost use Rattle.std.specs.Prelude.{◌≡◌, not, ◌+◌, ◌-◌, ◌<◌, ◌≤◌, ◌^◌, ◌∷◌, [], ◌++◌, length, map, IfOk, OnOk, option_to_list, slice_get};
ghost use Rattle.std.specs.List.{range_with_len};
ghost use Rattle.schedule_meaning.specs.Limits.{most_cycles};
ghost use Rattle.schedule_meaning.specs.Launches as specs;
ghost use Rattle.graph_meaning.specs.WellFormed.{IsLaunchGraph};
ghost use Rattle.graph_meaning.specs.WellFormed as wellformed;
ghost use Rattle.cycle_encoding.specs.Facts.{one_or_none};
ghost use Rattle.cycle_encoding.specs.Shapes.{negated, numbered, vars_of};
ghost use Rattle.cycle_encoding.specs.Families.{is_lost};
ghost use Rattle.cycle_encoding.specs.Steps.{AreOverwrittenVars, of_thing, with_clauses};
ghost use Rattle.cycle_encoding.specs.Variables.{all_overwritten, classes_of};
ghost use Rattle.order_encoding.specs.LiveOver.{AreNeedsOver, last_need, launched_over, lost_over, needed, needs_over};
ghost use Rattle.order_encoding.specs.LiveVariables as variables;
ghost use Rattle.order_encoding.specs.LiveFamilies as families;
ghost use Rattle.order_encoding.specs.LiveFamilies.{is_need_at};
ghost use Rattle.order_encoding.specs.OrderSteps.{AreNeedVars, needed_before};

use cnf_core::{Cnf, Lit};
use cycle_encoding::{
    Facts, Made, OverwrittenVars, add_implied, filled, mark, next_class, push_lost,
};
use graph_meaning::SetClass;
use items::NoMemory;
use machine_table::Table;
use schedule_meaning::{Launch, Operand, class_at, operand_at, operand_count, takes_pool};
use std::alloc::Global;

/// The variables of pooled classes and the cycles below `cycles` in which they are needed: by class, then by cycle, after
/// `first`. `starts` has for each such class how many are needed of smaller ones.
#[derive(Drop)]
pub struct NeedVars {
    pub first: u32,
    pub cycles: u32,
    pub classes: Vec<u32>,
    pub starts: Vec<Option<usize>>,
}

/// The variables over which the clauses of live ranges are: those of launches, of what is needed, and of what is
/// overwritten.
#[derive(Drop)]
pub struct Live<'a> {
    pub facts: &'a Facts<'a>,
    pub table: &'a Table,
    pub launches: &'a [Launch],
    pub needs: NeedVars,
    pub over: &'a OverwrittenVars,
}

/// For each class whether some launch goes to the pool and gives it, as a mark.
#[derive(Clone, Copy)]
struct Marked<'a> {
    facts: &'a Facts<'a>,
    launches: &'a [Launch],
    marks: &'a [bool],
}

/// For each class whether some launch goes to the pool and gives it.
fn pooled(alloc: Global, facts: &Facts, launches: &[Launch]) -> Result<Vec<bool>, NoMemory>
    requires { IsLaunchGraph facts.now }
    ensures { IfOk result (λ marks. marks.items
        ≡ map (variables.is_pooled facts.now (numbered 0 launches.now)) (classes_of facts.now)) }
{
    let mut marks = filled(alloc, false, next_class(facts.graph()))?;
    for launch in launches {
        let passes = takes_pool(*launch, facts.instr_at(launch.row));
        mark(&mut marks, class_at(facts.graph(), launch.row), passes);
    }
    Ok(marks)
}

/// Whether some launch goes to the pool and gives the class, by its mark.
fn is_marked(marked: &Marked, class: u32) -> bool
    requires marks { marked.now.marks.now ≡ map (variables.is_pooled marked.now.facts.now
        (numbered 0 marked.now.launches.now)) (classes_of marked.now.facts.now) }
    requires class { class < wellformed.next_class marked.now.facts.now.rows }
    ensures { result ≡ variables.is_pooled marked.now.facts.now (numbered 0 marked.now.launches.now) class }
{
    if class as usize >= marked.marks.len() {
        return false;
    }
    marked.marks[class as usize]
}

/// The variables of what is needed in the cycles below k.
#[tactic(auto, using(crate::proofs::NeedPlaces::needs_yes, crate::proofs::NeedPlaces::needs_no, crate::proofs::NeedPlaces::pooled_yes, crate::proofs::NeedPlaces::pooled_no, crate::proofs::NeedPlaces::from_yes, crate::proofs::NeedPlaces::from_no))]
pub fn need_vars(
    alloc: Global,
    facts: &Facts,
    launches: &[Launch],
    k: u32,
    first: u32,
) -> Result<NeedVars, NoMemory>
    requires graph { IsLaunchGraph facts.now }
    requires cycles { k ≤ most_cycles }
    ensures first { IfOk result (λ needs. needs.first ≡ first) }
    ensures cycles { IfOk result (λ needs. needs.cycles ≡ k) }
    ensures needs { IfOk result (λ needs. AreNeedVars facts.now needs.cycles (numbered 0 launches.now)
        needs.classes.items needs.starts.items) }
    ensures few { IfOk result (λ needs. length needs.classes.items < 2 ^ 32) }
{
    let marks = pooled(alloc, facts, launches)?;
    let marked = Marked {
        facts,
        launches,
        marks: &marks,
    };
    let mut classes = Vec::new(alloc);
    let mut starts = Vec::new(alloc);
    let mut start = 0;
    for class in 0..next_class(facts.graph()) {
        if is_marked(&marked, class) {
            classes.push(class)?;
            starts.push(Some(start))?;
            start += k as usize;
        } else {
            starts.push(None)?;
        }
    }
    Ok(NeedVars {
        first,
        cycles: k,
        classes,
        starts,
    })
}

/// How many variables there are of what is needed.
pub fn needs_count(live: &Live) -> u32
    requires needs { AreNeedsOver live.now }
    requires classes { length live.now.needs.classes.items < 2 ^ 32 }
    requires few { length (needed live.now) < 2 ^ 29 }
    ensures { result ≡ length (needed live.now) }
{
    live.needs.classes.len() as u32 * live.needs.cycles
}

/// Whether some launch goes to the pool and gives the class.
pub fn is_pooled(live: &Live, class: u32) -> bool
    requires { AreNeedsOver live.now }
    ensures { result ≡ variables.is_pooled live.now.facts.now (launched_over live.now) class }
{
    let starts = live.needs.starts.as_slice();
    if class as usize >= starts.len() {
        return false;
    }
    starts[class as usize].is_some()
}

/// The variable of a class that is needed in a cycle, if it has one.
pub fn need_var(live: &Live, class: u32, cycle: u32) -> Option<Lit>
    requires needs { AreNeedsOver live.now }
    requires few { last_need live.now < 2 ^ 29 }
    ensures { option_to_list result ≡ vars_of (is_need_at class cycle) (needs_over live.now) }
{
    if cycle >= live.needs.cycles {
        return None;
    }
    let starts = live.needs.starts.as_slice();
    if class as usize >= starts.len() {
        return None;
    }
    match starts[class as usize] {
        Some(start) => Some(Lit {
            var: live.needs.first + start as u32 + cycle + 1,
            positive: true,
        }),
        None => None,
    }
}

// ---- the operands of launches

/// Adds for each launch the clauses that its operands are needed in its cycle.
pub fn add_needs(cnf: &mut Cnf, live: &Live) -> Result<(), NoMemory>
    requires needs { AreNeedsOver live.now }
    requires launches { length live.now.launches.now ≤ live.now.needs.first }
    requires exist { last_need live.now ≤ cnf.old.vars }
    requires few { cnf.old.vars < 2 ^ 29 }
    requires room { length cnf.old.clauses + length (families.need_clauses live.now.facts.now (launched_over live.now)
        (needs_over live.now)) < 2 ^ 30 }
    ensures { OnOk result (cnf.new ≡ with_clauses cnf.old (families.need_clauses live.now.facts.now
        (launched_over live.now) (needs_over live.now))) }
{
    for (index, launch) in live.launches.iter().enumerate() {
        let made = Made {
            var: index as u32 + 1,
            launch: *launch,
        };
        add_launch_needs(cnf, live, made)?;
    }
    Ok(())
}

/// Adds those of one launch.
fn add_launch_needs(cnf: &mut Cnf, live: &Live, made: Made) -> Result<(), NoMemory>
    requires needs { AreNeedsOver live.now }
    requires var { 1 ≤ made.var }
    requires launches { made.var ≤ live.now.needs.first }
    requires exist { last_need live.now ≤ cnf.old.vars }
    requires few { cnf.old.vars < 2 ^ 29 }
    requires room { length cnf.old.clauses + length (families.operand_needs live.now.facts.now (launched_over live.now)
        (needs_over live.now) made.launch) < 2 ^ 30 }
    ensures { OnOk result (cnf.new ≡ with_clauses cnf.old (of_thing made.var (families.operand_needs live.now.facts.now
        (launched_over live.now) (needs_over live.now) made.launch))) }
{
    for at in 0..operand_count(live.facts.graph(), made.launch.row) {
        add_need_at(cnf, live, made, at)?;
    }
    Ok(())
}

/// Adds the clause of the operand at a place, if there is one that needs a register and whose class is pooled.
fn add_need_at(cnf: &mut Cnf, live: &Live, made: Made, at: usize) -> Result<(), NoMemory>
    requires needs { AreNeedsOver live.now }
    requires var { 1 ≤ made.var }
    requires launches { made.var ≤ live.now.needs.first }
    requires exist { last_need live.now ≤ cnf.old.vars }
    requires few { cnf.old.vars < 2 ^ 29 }
    requires room { length cnf.old.clauses + length (families.operands_needed live.now.facts.now (launched_over live.now)
        (needs_over live.now) made.launch.cycle
        (one_or_none (slice_get (specs.operands_at live.now.facts.now made.launch.row) at))) < 2 ^ 30 }
    ensures { OnOk result (cnf.new ≡ with_clauses cnf.old (of_thing made.var (families.operands_needed live.now.facts.now
        (launched_over live.now) (needs_over live.now) made.launch.cycle
        (one_or_none (slice_get (specs.operands_at live.now.facts.now made.launch.row) at))))) }
{
    match operand_at(live.facts.graph(), made.launch.row, at) {
        Some(operand) => add_need_of(cnf, live, made.var, made.launch.cycle, operand),
        None => Ok(()),
    }
}

/// Adds the clause of an operand, if it needs a register and its class is pooled.
fn add_need_of(
    cnf: &mut Cnf,
    live: &Live,
    var: u32,
    cycle: u32,
    operand: Operand,
) -> Result<(), NoMemory>
    requires needs { AreNeedsOver live.now }
    requires var { 1 ≤ var }
    requires launches { var ≤ live.now.needs.first }
    requires exist { last_need live.now ≤ cnf.old.vars }
    requires few { cnf.old.vars < 2 ^ 29 }
    requires room { length cnf.old.clauses + length (families.operands_needed live.now.facts.now (launched_over live.now)
        (needs_over live.now) cycle (operand ∷ [])) < 2 ^ 30 }
    ensures { OnOk result (cnf.new ≡ with_clauses cnf.old (of_thing var
        (families.operands_needed live.now.facts.now (launched_over live.now)
        (needs_over live.now) cycle (operand ∷ [])))) }
{
    if live.facts.is_free(operand.class, operand.second) {
        return Ok(());
    }
    if !is_pooled(live, operand.class) {
        return Ok(());
    }
    let need = need_var(live, operand.class, cycle);
    add_implied(cnf, var, need)
}

// ---- from cycle to cycle

/// Adds for each class and each cycle behind the first the clause that what is needed in it was needed in the one before.
pub fn add_earlier(cnf: &mut Cnf, live: &Live) -> Result<(), NoMemory>
    requires needs { AreNeedsOver live.now }
    requires exist { last_need live.now ≤ cnf.old.vars }
    requires few { cnf.old.vars < 2 ^ 29 }
    requires room { length cnf.old.clauses + length (families.earlier_clauses (needs_over live.now)) < 2 ^ 30 }
    ensures { OnOk result (cnf.new ≡ with_clauses cnf.old (families.earlier_clauses (needs_over live.now))) }
{
    let mut before = live.needs.first;
    for _class in live.needs.classes.as_slice() {
        add_class_earlier(cnf, before, live.needs.cycles)?;
        before += live.needs.cycles;
    }
    Ok(())
}

/// Adds those of one class. `before` is the variable before those of its cycles.
fn add_class_earlier(cnf: &mut Cnf, before: u32, k: u32) -> Result<(), NoMemory>
    requires exist { before + k ≤ cnf.old.vars }
    requires few { cnf.old.vars < 2 ^ 29 }
    requires room { length cnf.old.clauses + (k - 1) < 2 ^ 30 }
    ensures { OnOk result (cnf.new ≡ with_clauses cnf.old (map (needed_before before) (range_with_len 1 (k - 1)))) }
{
    for cycle in 1..k {
        let last = Lit {
            var: before + cycle,
            positive: true,
        };
        add_implied(cnf, before + cycle + 1, Some(last))?;
    }
    Ok(())
}

// ---- targets

/// Adds for each target without a pin that has to be made, and whose class is pooled, the clause that it is needed in the
/// last cycle, or that an input of its class is never overwritten.
pub fn add_last_needs(alloc: Global, cnf: &mut Cnf, live: &Live) -> Result<(), NoMemory>
    requires needs { AreNeedsOver live.now }
    requires exist { last_need live.now ≤ cnf.old.vars }
    requires over { AreOverwrittenVars live.now.facts.now live.now.over.now.cycles live.now.over.now.first
        live.now.over.now.sets.items }
    requires same { live.now.over.now.cycles ≡ live.now.needs.cycles }
    requires overwritten { live.now.over.now.first + length (all_overwritten live.now.facts.now live.now.over.now.cycles)
        ≤ cnf.old.vars }
    requires few { cnf.old.vars < 2 ^ 29 }
    requires room { length cnf.old.clauses + length (families.last_need_clauses live.now.facts.now live.now.needs.cycles
        (launched_over live.now) (needs_over live.now) (lost_over live.now)) < 2 ^ 30 }
    ensures { OnOk result (cnf.new ≡ with_clauses cnf.old
        (families.last_need_clauses live.now.facts.now live.now.needs.cycles (launched_over live.now) (needs_over live.now)
        (lost_over live.now))) }
{
    for set in live.facts.graph().sets.as_slice() {
        add_last_need(alloc, cnf, live, set)?;
    }
    Ok(())
}

/// Adds the clause of one target, if it is such a one.
fn add_last_need(alloc: Global, cnf: &mut Cnf, live: &Live, set: &SetClass) -> Result<(), NoMemory>
    requires needs { AreNeedsOver live.now }
    requires exist { last_need live.now ≤ cnf.old.vars }
    requires over { AreOverwrittenVars live.now.facts.now live.now.over.now.cycles live.now.over.now.first
        live.now.over.now.sets.items }
    requires same { live.now.over.now.cycles ≡ live.now.needs.cycles }
    requires overwritten { live.now.over.now.first + length (all_overwritten live.now.facts.now live.now.over.now.cycles)
        ≤ cnf.old.vars }
    requires few { cnf.old.vars < 2 ^ 29 }
    requires room { length cnf.old.clauses + length (families.target_groups live.now.facts.now live.now.needs.cycles
        (launched_over live.now) (needs_over live.now) (lost_over live.now) (set.now ∷ [])) < 2 ^ 30 }
    ensures { OnOk result (cnf.new ≡ with_clauses cnf.old
        (families.target_groups live.now.facts.now live.now.needs.cycles (launched_over live.now) (needs_over live.now)
        (lost_over live.now) (set.now ∷ []))) }
{
    if !live.facts.is_needed_target(set) {
        return Ok(());
    }
    if !is_pooled(live, set.class) {
        return Ok(());
    }
    let clause = last_clause(alloc, live, set.class)?;
    cnf.add(&clause)
}

/// The clause that a class is needed in the last cycle, or that an input of it is never overwritten.
fn last_clause(alloc: Global, live: &Live, class: u32) -> Result<Vec<Lit>, NoMemory>
    requires needs { AreNeedsOver live.now }
    requires few { last_need live.now < 2 ^ 29 }
    requires over { AreOverwrittenVars live.now.facts.now live.now.over.now.cycles live.now.over.now.first
        live.now.over.now.sets.items }
    ensures { IfOk result (λ clause. clause.items ≡ vars_of (is_need_at class (live.now.needs.cycles - 1))
        (needs_over live.now) ++ negated (is_lost live.now.facts.now class live.now.needs.cycles) (lost_over live.now)) }
{
    let mut clause = Vec::new(alloc);
    let last = live.needs.cycles.saturating_sub(1);
    push_lit(&mut clause, need_var(live, class, last))?;
    push_lost(
        &mut clause,
        live.facts,
        live.over,
        class,
        u64::from(live.needs.cycles),
    )?;
    Ok(clause)
}

/// Pushes a literal, if there is one.
pub fn push_lit(lits: &mut Vec<Lit>, lit: Option<Lit>) -> Result<(), NoMemory>
    ensures { OnOk result (lits.new.items ≡ lits.old.items ++ option_to_list lit) }
{
    if let Some(lit) = lit {
        lits.push(lit)?;
    }
    Ok(())
}
