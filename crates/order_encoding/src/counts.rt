// Counts and their sums, and what a row adds to the counts of memory and of a guard's branch.
ghost use Rattle.std.specs.Prelude.{◌≡◌, ◌+◌, ◌*◌, ◌<◌, ◌≤◌, ◌^◌, ◌==◌, not, ℕ, List, length};
ghost use Rattle.std.specs.List.{count_by};
ghost use Rattle.cnf_core.specs.Counter as counter;
ghost use Rattle.cnf_core.specs.declared.literal.Lit.{Lit as LitOf};
ghost use Rattle.graph_meaning.specs.WellFormed.{IsLaunchGraph};
ghost use Rattle.cycle_encoding.specs.Framed.{IsFrame, over};
ghost use Rattle.order_encoding.specs.OrderCounts as counts;
ghost use Rattle.order_encoding.specs.OrderVariables.{memory_classes};

use crate::held_memory::is_memory_class;
use cnf_core::Cnf;
use cycle_encoding::{Facts, Frame, Sizes, can_begin, next_class, slot_count};
use graph_meaning::LaunchGraph;
use schedule_meaning::is_store;

/// The counts of a formula to which a part is added.
pub fn grown(cnf: &Cnf, part: Sizes) -> Sizes
    requires vars { part.vars < 2 ^ 62 }
    requires clauses { part.clauses < 2 ^ 62 }
    ensures vars { result.vars ≡ cnf.now.vars + part.vars }
    ensures clauses { result.clauses ≡ length cnf.now.clauses + part.clauses }
{
    Sizes {
        vars: u64::from(cnf.vars()) + part.vars,
        clauses: u64::from(cnf.clauses()) + part.clauses,
    }
}

/// The sums of two counts.
pub fn both(one: Sizes, other: Sizes) -> Sizes
    requires vars { one.vars + other.vars < 2 ^ 64 }
    requires clauses { one.clauses + other.clauses < 2 ^ 64 }
    ensures vars { result.vars ≡ one.vars + other.vars }
    ensures clauses { result.clauses ≡ one.clauses + other.clauses }
{
    Sizes {
        vars: one.vars + other.vars,
        clauses: one.clauses + other.clauses,
    }
}

/// So many times a count.
pub fn times(factor: u32, count: u64) -> u64
    requires factor { factor ≤ 25 }
    requires count { count < 2 ^ 40 }
    ensures value { result ≡ factor * count }
    ensures few { result ≤ 25 * count }
{
    u64::from(factor) * count
}

// ---- memory

/// How many stores of a row may be launched in a cycle.
#[tactic(auto, using(crate::proofs::CountSteps::no_store, crate::proofs::CountSteps::stores_without_instr, crate::proofs::CountSteps::stores_without_use, crate::proofs::CountSteps::stores_without_first, crate::proofs::CountSteps::stores_in_time, crate::proofs::CountSteps::stores_too_late))]
pub fn row_stores(frame: &Frame, cycle: u32, row: u32) -> u64
    requires frame { IsFrame frame.now }
    ensures value { result ≡ over frame.now counts.row_stores cycle row }
    ensures few { result ≤ 8 }
{
    if !is_store(frame.facts.instr_at(row)) {
        return 0;
    }
    let Some(instr) = frame.facts.instr_at(row) else {
        return 0;
    };
    let Some(latency) = frame.table.latency(instr) else {
        return 0;
    };
    let Some(first) = frame.scope.first(row) else {
        return 0;
    };
    if can_begin(frame.k, latency, first, cycle) {
        slot_count(frame.table, instr)
    } else {
        0
    }
}

/// How many classes are memories'.
#[tactic(auto, using(crate::proofs::CountSteps::count_more, crate::proofs::CountSteps::memories_are))]
pub fn memory_count(facts: &Facts) -> u64
    requires graph { IsLaunchGraph facts.now }
    ensures value { result ≡ length (memory_classes facts.now) }
    ensures few { result < 2 ^ 32 }
{
    let mut count = 0;
    for class in 0..next_class(facts.graph()) {
        count += u64::from(is_memory_class(facts, class));
    }
    count
}

/// How many of them aren't the memory's at entry.
#[tactic(auto, using(crate::proofs::CountSteps::count_more, crate::proofs::CountSteps::others_are))]
pub fn other_count(facts: &Facts) -> u64
    requires graph { IsLaunchGraph facts.now }
    ensures value { result ≡ count_by (λ c. not (c == facts.now.entry)) (memory_classes facts.now) }
    ensures few { result < 2 ^ 32 }
{
    let entry = facts.graph().entry;
    let mut count = 0;
    for class in 0..next_class(facts.graph()) {
        count += u64::from(is_memory_class(facts, class) && class != entry);
    }
    count
}

// ---- registers

/// Up to how many of so many things a counter over the registers of the pool counts: as many as the pool has, or all.
pub fn registers(graph: &LaunchGraph, things: u32) -> u32
    ensures few { result ≤ things }
    ensures vars { counter.at_most_vars result things ≡ counter.at_most_vars (length graph.now.pool) things }
    ensures size { counter.at_most_size result things ≡ counter.at_most_size (length graph.now.pool) things }
    ensures clauses { (old : ℕ) (lits : List LitOf) → length lits ≡ things
        → counter.at_most_clauses old result lits ≡ counter.at_most_clauses old (length graph.now.pool) lits }
{
    if graph.pool.len() < things as usize {
        graph.pool.len() as u32
    } else {
        things
    }
}
