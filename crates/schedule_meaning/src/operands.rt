// The word operands of a row, and whether a launch can read its own.
ghost use Rattle.std.specs.Prelude.{◌≡◌, ◌↔◌, ◌∷◌, [], IsTrue, IfSome, length, slice_get};
ghost use Rattle.schedule_meaning.specs.Launches as launches;
ghost use Rattle.schedule_meaning.specs.Fits as rules;
ghost use Rattle.schedule_meaning.specs.Readers.{CanUse, operand_of};

use crate::lookups::{copied_at, operand_class};
use crate::readers::{has_input, is_given};
use crate::schedules::{Launch, Operand};
use graph_meaning::LaunchGraph;
use machine_table::{Table, operate_kind};
use word_ops::{Op, WordOp};

/// All that the row of an operate has, of which the last is the second operand.
fn operate_operand(operands: &[u32], at: usize) -> Option<Operand>
    ensures { result ≡ slice_get (launches.operate_operands operands.now) at }
{
    if at < operands.len() {
        return Some(Operand {
            class: operand_class(operands, at),
            second: at + 1 == operands.len(),
        });
    }
    None
}

fn only_operand(class: u32, second: bool, at: usize) -> Option<Operand>
    ensures { result ≡ slice_get (operand_of class second ∷ []) at }
{
    if at == 0 {
        return Some(Operand { class, second });
    }
    None
}

fn one_of_two(one: u32, other: u32, at: usize) -> Option<Operand>
    ensures { result ≡ slice_get (launches.plain one ∷ launches.plain other ∷ []) at }
{
    if at == 0 {
        return Some(Operand {
            class: one,
            second: false,
        });
    }
    if at == 1 {
        return Some(Operand {
            class: other,
            second: false,
        });
    }
    None
}

fn word_operand(op: WordOp, operands: &[u32], at: usize) -> Option<Operand>
    ensures { result ≡ slice_get (launches.word_op_operands op operands.now) at }
{
    if operate_kind(op).is_some() {
        return operate_operand(operands, at);
    }
    only_operand(operand_class(operands, 0), false, at)
}

/// The word operand at a place of a row's number; the branch has the guard's class, and a copy that of its set.
pub fn operand_at(graph: &LaunchGraph, row: u32, at: usize) -> Option<Operand>
    ensures { result ≡ slice_get (launches.operands_at graph.now row) at }
{
    if row as usize == graph.rows.len() {
        return match graph.guard {
            Some(guard) => only_operand(guard.class, false, at),
            None => None,
        };
    }
    if let Some(class) = copied_at(graph, row) {
        return only_operand(class, true, at);
    }
    let Some(found) = graph.rows.as_slice().get(row as usize) else {
        return None;
    };
    let operands = found.operands.as_slice();
    match found.op {
        Op::Word(op) => word_operand(op, operands, at),
        Op::Select(_) | Op::Load(_) => only_operand(operand_class(operands, 1), false, at),
        Op::Store(_) => one_of_two(operand_class(operands, 1), operand_class(operands, 2), at),
        Op::Put(_) => one_of_two(operand_class(operands, 1), operand_class(operands, 3), at),
        _ => None,
    }
}

fn word_operand_count(op: WordOp, operands: &[u32]) -> usize
    ensures { result ≡ length (launches.word_op_operands op operands.now) }
{
    if operate_kind(op).is_some() {
        return operands.len();
    }
    1
}

/// How many word operands a row's number has: two at most where the graph is well formed.
pub fn operand_count(graph: &LaunchGraph, row: u32) -> usize
    ensures { result ≡ length (launches.operands_at graph.now row) }
{
    if row as usize == graph.rows.len() {
        return match graph.guard {
            Some(_) => 1,
            None => 0,
        };
    }
    if copied_at(graph, row).is_some() {
        return 1;
    }
    match graph.rows.as_slice().get(row as usize) {
        Some(found) => match found.op {
            Op::Word(op) => word_operand_count(op, found.operands.as_slice()),
            Op::Select(_) | Op::Load(_) => 1,
            Op::Store(_) | Op::Put(_) => 2,
            _ => 0,
        },
        None => 0,
    }
}

pub(crate) fn is_zero_class(graph: &LaunchGraph, class: u32) -> bool
    ensures { IsTrue result ↔ launches.IsZero graph.now class }
{
    graph.is_zero_class(class)
}

/// The operand needs no register: the zero class, or a literal.
pub(crate) fn is_free(graph: &LaunchGraph, wanted: Operand) -> bool
    ensures test { result ≡ launches.is_free graph.now wanted }
    ensures fact { IsTrue result ↔ launches.IsFree graph.now wanted }
{
    if graph.is_zero_class(wanted.class) {
        return true;
    }
    match graph.constant_of(wanted.class) {
        Some(constant) => wanted.second && constant <= 255,
        None => false,
    }
}

fn can_use(
    graph: &LaunchGraph,
    table: &Table,
    list: &[Launch],
    launch: Launch,
    wanted: Operand,
) -> bool
    ensures { IsTrue result ↔ CanUse graph.now table.now list.now launch wanted }
{
    if is_free(graph, wanted) {
        return true;
    }
    if has_input(graph, list, Some(launch), wanted.class) {
        return true;
    }
    is_given(graph, table, list, Some(launch), wanted.class)
}

fn can_read_at(
    graph: &LaunchGraph,
    table: &Table,
    list: &[Launch],
    launch: Launch,
    at: usize,
) -> bool
    ensures { IsTrue result ↔ IfSome (slice_get (launches.operands_at graph.now launch.row) at)
        (CanUse graph.now table.now list.now launch) }
{
    match operand_at(graph, launch.row, at) {
        Some(wanted) => can_use(graph, table, list, launch, wanted),
        None => true,
    }
}

pub(crate) fn can_read(graph: &LaunchGraph, table: &Table, list: &[Launch], launch: Launch) -> bool
    ensures { IsTrue result ↔ rules.CanRead graph.now table.now list.now launch }
{
    for at in 0..operand_count(graph, launch.row) {
        if !can_read_at(graph, table, list, launch, at) {
            return false;
        }
    }
    true
}
