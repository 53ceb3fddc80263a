// The counts of registers by live ranges, found row by row before any clause is.
ghost use Rattle.std.specs.Prelude.{◌≡◌, ◌-◌, ◌+◌, ◌*◌, ◌&&◌, ◌<◌, ◌≤◌, ◌^◌, length, map, nat_lt, slice_get, IfOk};
ghost use Rattle.std.specs.Option.{option_map_or};
ghost use Rattle.std.specs.List.{count_by, range_with_len, sum_by};
ghost use Rattle.schedule_meaning.specs.Limits.{most_cycles};
ghost use Rattle.schedule_meaning.specs.Launches as launches;
ghost use Rattle.cnf_core.specs.Counter as counter;
ghost use Rattle.cycle_encoding.specs.Framed.{IsFrame, over};
ghost use Rattle.cycle_encoding.specs.Counts as cycle_counts;
ghost use Rattle.cycle_encoding.specs.Counts.{one_if, row_is};
ghost use Rattle.cycle_encoding.specs.Families.{is_made_target};
ghost use Rattle.cycle_encoding.specs.Variables.{classes_of, row_numbers};
ghost use Rattle.order_encoding.specs.PooledMarks.{ArePooledMarks};
ghost use Rattle.order_encoding.specs.OrderCounts as counts;

use crate::counts::registers;
use crate::holds::holds_count;
use crate::pins::set_count;
use cnf_core::{at_most_size, at_most_vars};
use cycle_encoding::{
    Frame, Sizes, destination_count, filled, mark, next_class, row_count, slot_count,
};
use items::NoMemory;
use schedule_meaning::{class_at, gives_word, operand_at, operand_count};
use std::alloc::Global;

/// For each class whether a launch to the pool may give it.
fn pooled(alloc: Global, frame: &Frame) -> Result<Vec<bool>, NoMemory>
    requires frame { IsFrame frame.now }
    ensures { IfOk result (λ marks. marks.items
        ≡ map (over frame.now counts.is_pooled_in) (classes_of frame.now.facts.now)) }
{
    let mut marks = filled(alloc, false, next_class(frame.facts.graph()))?;
    for row in 0..frame.facts.row_numbers() {
        mark(
            &mut marks,
            class_at(frame.facts.graph(), row),
            may_give(frame, row),
        );
    }
    Ok(marks)
}

/// Whether a row gives a word, and has a launch.
fn may_give(frame: &Frame, row: u32) -> bool
    requires frame { IsFrame frame.now }
    ensures { result ≡ (row_is frame.now.facts.now launches.gives_word row
        && nat_lt 0 (over frame.now cycle_counts.row_count row)) }
{
    gives_word(frame.facts.instr_at(row))
        && row_count(frame.facts, frame.table, frame.scope, frame.k, row) > 0
}

/// For each class whether a launch to the pool may give it, as a mark.
#[derive(Clone, Copy)]
struct PoolMarks<'a> {
    frame: Frame<'a>,
    marks: &'a [bool],
}

/// Whether a launch to the pool may give the class.
fn is_pooled(pooled: &PoolMarks, class: u32) -> bool
    requires frame { IsFrame pooled.now.frame }
    requires marks { ArePooledMarks pooled.now }
    ensures { result ≡ over pooled.now.frame counts.is_pooled_in class }
{
    if class as usize >= pooled.marks.len() {
        return false;
    }
    pooled.marks[class as usize]
}

/// How many classes are.
#[tactic(auto, using(crate::proofs::CountSteps::count_more))]
fn pooled_count(pooled: &PoolMarks) -> u64
    requires frame { IsFrame pooled.now.frame }
    requires marks { ArePooledMarks pooled.now }
    ensures value { result ≡ over pooled.now.frame counts.pooled_count }
    ensures few { result < 2 ^ 32 }
{
    let mut count = 0;
    for class in 0..next_class(pooled.frame.facts.graph()) {
        count += u64::from(is_pooled(pooled, class));
    }
    count
}

/// Whether the operand at a place needs a register and is of such a class, as a number.
fn operand_need(pooled: &PoolMarks, row: u32, at: usize) -> u64
    requires frame { IsFrame pooled.now.frame }
    requires marks { ArePooledMarks pooled.now }
    ensures value { result ≡ option_map_or (λ o. one_if (over pooled.now.frame counts.is_pooled_operand_in o))
        (slice_get (launches.operands_at pooled.now.frame.facts.now row) at) 0 }
    ensures few { result ≤ 1 }
{
    match operand_at(pooled.frame.facts.graph(), row, at) {
        Some(operand) => u64::from(
            !pooled.frame.facts.is_free(operand.class, operand.second)
                && is_pooled(pooled, operand.class),
        ),
        None => 0,
    }
}

/// How many operands of a row do.
fn row_needs(pooled: &PoolMarks, row: u32) -> u64
    requires frame { IsFrame pooled.now.frame }
    requires marks { ArePooledMarks pooled.now }
    ensures value { result ≡ count_by (over pooled.now.frame counts.is_pooled_operand_in)
        (launches.operands_at pooled.now.frame.facts.now row) }
    ensures few { result ≤ 4 }
{
    let mut count = 0;
    for at in 0..operand_count(pooled.frame.facts.graph(), row) {
        count += operand_need(pooled, row, at);
    }
    count
}

/// How many clauses say that the operands of launches are needed.
#[tactic(auto, using(crate::proofs::CountSteps::sum_more))]
fn need_count(pooled: &PoolMarks) -> u64
    requires frame { IsFrame pooled.now.frame }
    requires marks { ArePooledMarks pooled.now }
    ensures value { result ≡ over pooled.now.frame cycle_counts.sum_destined
        (λ row to. count_by (over pooled.now.frame counts.is_pooled_operand_in)
        (launches.operands_at pooled.now.frame.facts.now row)) }
    ensures few { result < 2 ^ 46 }
{
    let mut count = 0;
    for row in 0..pooled.frame.facts.row_numbers() {
        count += row_count(
            pooled.frame.facts,
            pooled.frame.table,
            pooled.frame.scope,
            pooled.frame.k,
            row,
        ) * (row_needs(pooled, row)
            * destination_count(pooled.frame.facts, pooled.frame.scope.allocation(), row));
    }
    count
}

/// How many targets without a pin have to be made, and are of such a class.
fn target_count(pooled: &PoolMarks) -> u64
    requires frame { IsFrame pooled.now.frame }
    requires marks { ArePooledMarks pooled.now }
    ensures value { result ≡ count_by (λ s. is_made_target pooled.now.frame.facts.now s
        && over pooled.now.frame counts.is_pooled_in s.class) pooled.now.frame.facts.now.sets }
    ensures few { result < 2 ^ 32 }
{
    let mut count = 0;
    for place in 0..set_count(pooled.frame.facts) {
        count += target_at(pooled, place);
    }
    count
}

/// Whether the one at a place does, as a number.
fn target_at(pooled: &PoolMarks, place: u32) -> u64
    requires frame { IsFrame pooled.now.frame }
    requires marks { ArePooledMarks pooled.now }
    ensures value { result ≡ option_map_or (λ s. one_if (is_made_target pooled.now.frame.facts.now s
        && over pooled.now.frame counts.is_pooled_in s.class)) (slice_get pooled.now.frame.facts.now.sets place) 0 }
    ensures few { result ≤ 1 }
{
    match pooled
        .frame
        .facts
        .graph()
        .sets
        .as_slice()
        .get(place as usize)
    {
        Some(set) => u64::from(
            pooled.frame.facts.is_needed_target(set) && is_pooled(pooled, set.class),
        ),
        None => 0,
    }
}

/// How many cycles there are from that of each launch of a row to the pool to the last one.
#[tactic(auto, using(crate::proofs::LiveTallies::holds_is, crate::proofs::LiveTallies::holds_without_first, crate::proofs::LiveTallies::holds_without_use, crate::proofs::LiveTallies::holds_without_instr))]
fn row_holds(frame: &Frame, row: u32) -> u64
    requires frame { IsFrame frame.now }
    ensures value { result ≡ over frame.now counts.row_holds row }
    ensures few { result ≤ 5000 }
{
    let Some(instr) = frame.facts.instr_at(row) else {
        return 0;
    };
    let Some(latency) = frame.table.latency(instr) else {
        return 0;
    };
    let Some(first) = frame.scope.first(row) else {
        return 0;
    };
    slot_count(frame.table, instr) * cycles_from(frame.k, latency, first)
}

/// How many cycles there are to the last below k from each cycle in which an instruction can begin, from a first one, that
/// ends by k.
#[tactic(auto, using(crate::proofs::LiveTallies::cycles_more))]
fn cycles_from(k: u32, latency: u32, first: u32) -> u64
    requires { k ≤ most_cycles }
    ensures value { result ≡ sum_by (λ t. 1 + (k - (t + 1))) (range_with_len first (k + 1 - latency - first)) }
    ensures few { result ≤ 600 }
{
    let mut count = 0;
    for step in 0..(k + 1).saturating_sub(latency).saturating_sub(first) {
        count += 1 + u64::from(k.saturating_sub(first + step + 1));
    }
    count
}

/// Those of a row that passes.
fn holds_if(frame: &Frame, row: u32, passes: bool) -> u64
    requires frame { IsFrame frame.now }
    ensures value { result ≡ one_if passes * over frame.now counts.row_holds row }
    ensures few { result ≤ 5000 }
{
    if passes { row_holds(frame, row) } else { 0 }
}

/// How many clauses say which launches hold a register.
#[tactic(auto, using(crate::proofs::CountSteps::sum_more))]
fn hold_count(frame: &Frame) -> u64
    requires frame { IsFrame frame.now }
    ensures value { result ≡ sum_by (λ row. one_if (row_is frame.now.facts.now launches.gives_word row)
        * over frame.now counts.row_holds row) (row_numbers frame.now.facts.now) }
    ensures few { result < 2 ^ 45 }
{
    let mut count = 0;
    for row in 0..frame.facts.row_numbers() {
        count += holds_if(frame, row, gives_word(frame.facts.instr_at(row)));
    }
    count
}

/// The counts of the counters of all cycles.
#[tactic(auto, using(crate::proofs::CountSteps::sum_more, crate::proofs::LiveTallies::few_vars, crate::proofs::LiveTallies::few_size))]
fn counter_sizes(frame: &Frame) -> Sizes
    requires frame { IsFrame frame.now }
    ensures vars { result.vars ≡ sum_by (λ t. counter.at_most_vars (length frame.now.facts.now.pool)
        (length frame.now.table.now.slots * (t + 1))) (range_with_len 0 frame.now.k) }
    ensures clauses { result.clauses ≡ sum_by (λ t. counter.at_most_size (length frame.now.facts.now.pool)
        (length frame.now.table.now.slots * (t + 1))) (range_with_len 0 frame.now.k) }
    ensures few_vars { result.vars < 2 ^ 30 }
    ensures few_clauses { result.clauses < 2 ^ 30 }
{
    let mut vars = 0;
    let mut clauses = 0;
    for cycle in 0..frame.k {
        let literals = frame.table.slots.len() as u32 * (cycle + 1);
        let most = registers(frame.facts.graph(), literals);
        vars += at_most_vars(most, literals as usize);
        clauses += at_most_size(most, literals as usize);
    }
    Sizes { vars, clauses }
}

/// The counts of registers by live ranges.
pub fn live_sizes(alloc: Global, frame: &Frame) -> Result<Sizes, NoMemory>
    requires frame { IsFrame frame.now }
    ensures vars { IfOk result (λ sizes. sizes.vars ≡ over frame.now counts.live_vars) }
    ensures clauses { IfOk result (λ sizes. sizes.clauses ≡ over frame.now counts.live_size) }
    ensures few_vars { IfOk result (λ sizes. sizes.vars < 2 ^ 61) }
    ensures few_clauses { IfOk result (λ sizes. sizes.clauses < 2 ^ 61) }
{
    let marks = pooled(alloc, frame)?;
    let pooled = PoolMarks {
        frame: *frame,
        marks: &marks,
    };
    let classes = pooled_count(&pooled);
    let counters = counter_sizes(frame);
    Ok(Sizes {
        vars: classes * u64::from(frame.k)
            + u64::from(holds_count(frame.table, frame.k))
            + counters.vars,
        clauses: need_count(&pooled)
            + classes * u64::from(frame.k.saturating_sub(1))
            + target_count(&pooled)
            + hold_count(frame)
            + counters.clauses,
    })
}
