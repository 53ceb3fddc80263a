// The clauses of capacity.
ghost use Rattle.std.specs.Prelude.{◌≡◌, ◌==◌, ◌&&◌, ◌||◌, ◌+◌, ◌-◌, ◌<◌, ◌≤◌, ◌^◌, ◌∷◌, [], ◌++◌, All, length, min, nat_le, not, false, option_to_list, slice_get};
ghost use Rattle.std.specs.Prelude.{IfOk, OnOk, map};
ghost use Rattle.std.specs.Option.{option_map_or};
ghost use Rattle.std.specs.List.{range_with_len};
ghost use Rattle.schedule_meaning.specs.Launches as launches;
ghost use Rattle.cycle_encoding.specs.Counts.{row_is};
ghost use Rattle.cycle_encoding.specs.Families as families;
ghost use Rattle.cycle_encoding.specs.Narrow as narrow;
ghost use Rattle.cycle_encoding.specs.Limits.{most_clauses, most_vars};
ghost use Rattle.cycle_encoding.specs.Shapes.{numbered, vars_of};
ghost use Rattle.cycle_encoding.specs.Steps.{of_thing, with_clauses};
ghost use Rattle.slot_capacity.specs.CapacityClauses as specs;
ghost use Rattle.slot_capacity.specs.CapacityClauses.{all_launched, is_launched_at, with_capacity};
ghost use Rattle.slot_capacity.specs.CapacitySteps as steps;
ghost use Rattle.slot_capacity.specs.CapacityCounts.{IsSmall};
ghost use Rattle.slot_capacity.specs.Makers as makers;

use crate::deadlines::Deadline;
use crate::limits::{Capacity, Limit};
use crate::makers::accesses;
use cnf_core::{Cnf, Lit, at_most, counters_count};
use cycle_encoding::{Facts, Made, add_implied, add_vars};
use items::NoMemory;
use machine_table::InstrKind;
use schedule_meaning::{Launch, class_at, memory_class_at, operand_at, operand_count};
use std::alloc::Global;

// ---- look-ups

/// Whether the operand at a place of the row is of the class, and needs a register.
fn reads_at(facts: &Facts, row: u32, class: u32, at: usize) -> bool
    ensures { result ≡ option_map_or (λ o. not (families.is_free facts.now o) && (o.class == class))
        (slice_get (launches.operands_at facts.now row) at) false }
{
    match operand_at(facts.graph(), row, at) {
        Some(operand) => !facts.is_free(operand.class, operand.second) && operand.class == class,
        None => false,
    }
}

/// Whether a launch of the row reads the class.
fn reads(facts: &Facts, row: u32, class: u32) -> bool
    ensures { result ≡ makers.has (makers.reads_of facts.now row) class }
{
    for at in 0..operand_count(facts.graph(), row) {
        if reads_at(facts, row, class, at) {
            return true;
        }
    }
    reads_memory(facts, row, class)
}

/// Whether a launch of the row is a load or store that reads the memory of the class.
fn reads_memory(facts: &Facts, row: u32, class: u32) -> bool
    ensures { result ≡ (row_is facts.now narrow.accesses row && (launches.memory_class_at facts.now row == class)) }
{
    accesses(facts, row) && memory_class_at(facts.graph(), row) == class
}

/// Whether a launch of a row that is no branch gives its class without reading it; it takes no memory.
pub fn makes_own(facts: &Facts, row: u32) -> bool
    ensures { result ≡ makers.makes_own facts.now row }
{
    if let Some(InstrKind::Beq) = facts.instr_at(row) {
        return false;
    }
    !reads(facts, row, class_at(facts.graph(), row))
}

/// The last cycle of the class, if it is counted.
pub fn last_counted(counted: &[Deadline], class: u32) -> Option<u32>
    ensures { result ≡ specs.last_counted counted.now class }
{
    for one in counted {
        if is_of(*one, class) {
            return Some(one.last);
        }
    }
    None
}

/// Whether the deadline is that of the class.
fn is_of(one: Deadline, class: u32) -> bool
    ensures { result ≡ (one.class == class) }
{
    one.class == class
}

/// The variable which says that the class is launched by a cycle, if it has one; `first` is the variable before those
/// of all counted classes.
fn launched_var(counted: &[Deadline], first: u32, class: u32, cycle: u32) -> Option<Lit>
    requires apart { steps.AreApart counted.now }
    requires few { first + length (all_launched counted.now) < 2 ^ 29 }
    ensures { option_to_list result ≡ vars_of (is_launched_at class cycle) (numbered first (all_launched counted.now)) }
{
    let mut before = first;
    for one in counted {
        if is_of(*one, class) {
            return own_var(*one, before, cycle);
        }
        before += cycles_of(*one);
    }
    None
}

/// How many cycles there are from the first of a class to its last.
fn cycles_of(one: Deadline) -> u32
    requires { one.last < 2 ^ 29 }
    ensures { result ≡ length (specs.class_launched one) }
{
    (one.last + 1).saturating_sub(one.first)
}

/// Whether the cycle is one of those from the first of a class to its last.
fn has_cycle(one: Deadline, cycle: u32) -> bool
    ensures { result ≡ (nat_le one.first cycle && nat_le cycle one.last) }
{
    one.first <= cycle && cycle <= one.last
}

/// The variable of a class's cycle, if it is one of those from its first to its last; `before` is the variable before
/// those.
fn own_var(one: Deadline, before: u32, cycle: u32) -> Option<Lit>
    requires { before + length (specs.class_launched one) < 2 ^ 29 }
    ensures { option_to_list result
        ≡ vars_of (is_launched_at one.class cycle) (numbered before (specs.class_launched one)) }
{
    if !has_cycle(one, cycle) {
        return None;
    }
    Some(Lit {
        var: before + (cycle - one.first) + 1,
        positive: true,
    })
}

// ---- families

/// Adds for each launch that makes a counted class by its last cycle the clause that the class is launched.
fn add_made(
    cnf: &mut Cnf,
    facts: &Facts,
    counted: &[Deadline],
    launches: &[Launch],
    first: u32,
) -> Result<(), NoMemory>
    requires apart { steps.AreApart counted.now }
    requires launches { length launches.now ≤ first }
    requires exist { first + length (all_launched counted.now) ≤ cnf.old.vars }
    requires few { cnf.old.vars < 2 ^ 29 }
    requires room { length cnf.old.clauses + length (specs.made_clauses facts.now counted.now
        (numbered 0 launches.now) (numbered first (all_launched counted.now))) < 2 ^ 30 }
    ensures { OnOk result (cnf.new ≡ with_clauses cnf.old (specs.made_clauses facts.now counted.now
        (numbered 0 launches.now) (numbered first (all_launched counted.now)))) }
{
    for (index, launch) in launches.iter().enumerate() {
        let made = Made {
            var: index as u32 + 1,
            launch: *launch,
        };
        add_make(cnf, facts, counted, first, made)?;
    }
    Ok(())
}

/// Whether a launch of the row in the cycle makes a counted class by its last.
fn makes_by(facts: &Facts, counted: &[Deadline], row: u32, cycle: u32) -> bool
    ensures { result ≡ specs.makes_by facts.now counted.now row cycle }
{
    match last_counted(counted, class_at(facts.graph(), row)) {
        Some(last) => cycle <= last && makes_own(facts, row),
        None => false,
    }
}

/// Adds the clause of one launch, if it does.
fn add_make(
    cnf: &mut Cnf,
    facts: &Facts,
    counted: &[Deadline],
    first: u32,
    made: Made,
) -> Result<(), NoMemory>
    requires apart { steps.AreApart counted.now }
    requires var { 1 ≤ made.var }
    requires launches { made.var ≤ first }
    requires exist { first + length (all_launched counted.now) ≤ cnf.old.vars }
    requires few { cnf.old.vars < 2 ^ 29 }
    requires room { length cnf.old.clauses + length (specs.makes_counted facts.now counted.now
        (numbered first (all_launched counted.now)) made.launch) < 2 ^ 30 }
    ensures { OnOk result (cnf.new ≡ with_clauses cnf.old (of_thing made.var (specs.makes_counted facts.now counted.now
        (numbered first (all_launched counted.now)) made.launch))) }
{
    if !makes_by(facts, counted, made.launch.row, made.launch.cycle) {
        return Ok(());
    }
    let class = class_at(facts.graph(), made.launch.row);
    add_implied(
        cnf,
        made.var,
        launched_var(counted, first, class, made.launch.cycle),
    )
}

/// Adds for each counted class and each of its cycles but the first the clause that what is launched up to the cycle
/// before is so up to this one.
fn add_stays(cnf: &mut Cnf, counted: &[Deadline], first: u32) -> Result<(), NoMemory>
    requires apart { steps.AreApart counted.now }
    requires exist { first + length (all_launched counted.now) ≤ cnf.old.vars }
    requires few { cnf.old.vars < 2 ^ 29 }
    requires room { length cnf.old.clauses
        + length (specs.stay_clauses counted.now (numbered first (all_launched counted.now))) < 2 ^ 30 }
    ensures { OnOk result (cnf.new ≡ with_clauses cnf.old
        (specs.stay_clauses counted.now (numbered first (all_launched counted.now)))) }
{
    let mut before = first;
    for one in counted {
        let cycles = cycles_of(*one);
        add_class_stays(cnf, before, cycles)?;
        before += cycles;
    }
    Ok(())
}

/// Adds those of one class. `before` is the variable before those of its cycles.
fn add_class_stays(cnf: &mut Cnf, before: u32, cycles: u32) -> Result<(), NoMemory>
    requires exist { before + cycles ≤ cnf.old.vars }
    requires few { cnf.old.vars < 2 ^ 29 }
    requires room { length cnf.old.clauses + (cycles - 1) < 2 ^ 30 }
    ensures { OnOk result (cnf.new ≡ with_clauses cnf.old
        (map (steps.stays_behind before) (range_with_len 1 (cycles - 1)))) }
{
    for place in 1..cycles {
        let next = Lit {
            var: before + place + 1,
            positive: true,
        };
        add_implied(cnf, before + place, Some(next))?;
    }
    Ok(())
}

/// Adds for each counted class the clause that it is launched by its last cycle.
fn add_ends(cnf: &mut Cnf, counted: &[Deadline], first: u32) -> Result<(), NoMemory>
    requires apart { steps.AreApart counted.now }
    requires exist { first + length (all_launched counted.now) ≤ cnf.old.vars }
    requires few { cnf.old.vars < 2 ^ 29 }
    requires room { length cnf.old.clauses
        + length (specs.end_clauses counted.now (numbered first (all_launched counted.now))) < 2 ^ 30 }
    ensures { OnOk result (cnf.new ≡ with_clauses cnf.old
        (specs.end_clauses counted.now (numbered first (all_launched counted.now)))) }
{
    let mut before = first;
    for one in counted {
        before += cycles_of(*one);
        cnf.add(&[Lit {
            var: before,
            positive: true,
        }])?;
    }
    Ok(())
}

/// Adds the literal to the list, if there is one.
fn push_lit(lits: &mut Vec<Lit>, lit: Option<Lit>) -> Result<(), NoMemory>
    ensures { OnOk result (lits.new.items ≡ lits.old.items ++ option_to_list lit) }
{
    if let Some(lit) = lit {
        lits.push(lit)?;
    }
    Ok(())
}

/// What a limit counts: that its classes are launched up to its cycle, or up to their last.
fn limit_lits(
    alloc: Global,
    counted: &[Deadline],
    first: u32,
    limit: &Limit,
) -> Result<Vec<Lit>, NoMemory>
    requires apart { steps.AreApart counted.now }
    requires few { first + length (all_launched counted.now) < 2 ^ 29 }
    ensures { IfOk result (λ lits. lits.items
        ≡ specs.limit_lits (numbered first (all_launched counted.now)) limit.now) }
{
    let mut lits = Vec::new(alloc);
    for one in limit.due.as_slice() {
        let cycle = limit.cycle.min(one.last);
        push_lit(&mut lits, launched_var(counted, first, one.class, cycle))?;
    }
    Ok(lits)
}

/// Adds the counters of limits.
fn add_limits(
    alloc: Global,
    cnf: &mut Cnf,
    counted: &[Deadline],
    first: u32,
    limits: &[Limit],
) -> Result<(), NoMemory>
    requires apart { steps.AreApart counted.now }
    requires due { All (λ m. length m.due ≤ length counted.now) limits.now }
    requires exist { first + length (all_launched counted.now) ≤ cnf.old.vars }
    requires vars { cnf.old.vars + specs.limit_vars (numbered first (all_launched counted.now)) limits.now < 2 ^ 29 }
    requires room { length cnf.old.clauses + length (specs.limit_counters cnf.old.vars
        (numbered first (all_launched counted.now)) limits.now) < 2 ^ 30 }
    ensures { OnOk result (cnf.new ≡ record {
      vars = cnf.old.vars + specs.limit_vars (numbered first (all_launched counted.now)) limits.now;
      clauses = cnf.old.clauses
          ++ specs.limit_counters cnf.old.vars (numbered first (all_launched counted.now)) limits.now;
    }) }
{
    counters_count();
    for limit in limits {
        let lits = limit_lits(alloc, counted, first, limit)?;
        at_most(cnf, &lits, limit.most)?;
    }
    Ok(())
}

/// Adds the variables and clauses of capacity. The launches have the first variables.
pub fn extend_by_capacity(
    alloc: Global,
    cnf: &mut Cnf,
    facts: &Facts,
    capacity: &Capacity,
    launches: &[Launch],
) -> Result<(), NoMemory>
    requires apart { steps.AreApart capacity.now.counted }
    requires small { IsSmall capacity.now }
    requires exist { length launches.now ≤ cnf.old.vars }
    requires vars { (with_capacity facts.now capacity.now (numbered 0 launches.now) cnf.old).vars ≤ most_vars }
    requires clauses { length (with_capacity facts.now capacity.now (numbered 0 launches.now) cnf.old).clauses
        ≤ most_clauses }
    ensures { OnOk result (cnf.new ≡ with_capacity facts.now capacity.now (numbered 0 launches.now) cnf.old) }
{
    counters_count();
    let counted = capacity.counted.as_slice();
    let first = cnf.vars();
    add_launched_vars(cnf, counted);
    add_made(cnf, facts, counted, launches, first)?;
    add_stays(cnf, counted, first)?;
    add_ends(cnf, counted, first)?;
    add_limits(alloc, cnf, counted, first, capacity.limits.as_slice())
}

/// Makes the variables of the counted classes.
fn add_launched_vars(cnf: &mut Cnf, counted: &[Deadline])
    requires few { cnf.old.vars + length (all_launched counted.now) < 2 ^ 29 }
    requires early { All (λ x. x.last < 2 ^ 29) counted.now }
    ensures { cnf.new ≡ record cnf.old { vars = cnf.old.vars + length (all_launched counted.now) } }
{
    for one in counted {
        add_vars(cnf, cycles_of(*one));
    }
}
