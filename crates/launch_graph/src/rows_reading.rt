// The block of a graph's rows, read row by row.
ghost use Rattle.std.specs.Prelude.{◌≡◌, ◌≤◌, ◌<◌, ◌+◌, ◌++◌, ◌∷◌, [], ℕ, None, get_or, List, length, IfOk, IfErr, OnOk};
ghost use Rattle.text_core.specs.Faults.{IsFaultBy};
ghost use Rattle.launch_graph.specs.LineFaults.{IsFirstFaultOf};
ghost use Rattle.launch_graph.specs.RowsRead.{IsBlockFrom, AreRowsTo, HasRead, line_op_name};
ghost use Rattle.launch_graph.specs.declared.row_lines.RowLine.{RowLine as Row};

use crate::class_marks::Mark;
use crate::index::RowIndex;
use crate::line_faults::line_fault;
use crate::numbering::{UsedName, numbered_op, row_key};
use crate::row_lines::{LineOp, RowLine};
use crate::row_reading::row_line;
use crate::seen_rows::{has_bad_class, see_row};
use graph_meaning::LaunchRow;
use items::{Items, NoMemory};
use std::alloc::Global;
use text_core::{Kind, Name, TextFault, TextLines};
use word_ops::{Op, operators_are_listed};

/// The rows of a block so far: the declared operators that they use, what each applies, how many classes there are, the
/// constants of these, and the rows.
#[derive(Drop)]
pub struct RowsSoFar {
    pub used: Items<UsedName>,
    pub index: RowIndex,
    pub next: u32,
    pub constants: Vec<Option<u64>>,
    pub rows: Items<LaunchRow>,
}

/// The name of a row's operator, which is empty where it is no declared one.
fn name_of_op(alloc: Global, op: LineOp) -> Result<Name, NoMemory>
    ensures { IfOk result (λ name. name ≡ line_op_name op) }
{
    match op {
        LineOp::Plain(_) => Name::new(alloc, b""),
        LineOp::Use(name) => Ok(name),
        LineOp::Unknown(word) => Ok(word),
    }
}

/// Reads the row of a line behind the rows so far.
pub(crate) fn next_row(
    alloc: Global,
    text: &TextLines<'_>,
    line: u32,
    marks: &[Mark],
    so_far: &mut RowsSoFar,
) -> Result<(), TextFault>
    requires line { line < length text.now }
    requires size { length so_far.old.constants.items ≡ length marks.now }
    requires few { length so_far.old.used ≤ 16 }
    ensures size { length so_far.new.constants.items ≡ length so_far.old.constants.items }
    ensures few { OnOk result (length so_far.new.used ≤ 16) }
    ensures ok { OnOk result ((version from : ℕ) (all before : List Row)
        → AreRowsTo version text.now from all before marks.now line so_far.old
        → length before < length marks.now
        → (row : Row) × AreRowsTo version text.now from all (before ++ row ∷ []) marks.now (line + 1) so_far.new) }
    ensures fault { IfErr result (λ fault. (version from : ℕ) (all before : List Row)
        → AreRowsTo version text.now from all before marks.now line so_far.old
        → length before < length marks.now → IsFaultBy (IsFirstFaultOf version text.now from) fault) }
{
    operators_are_listed();
    let Some(row) = row_line(alloc, text, line)? else {
        return Err(line_fault(text, line, Kind::BadLine));
    };
    let Some(op) = numbered_op(&mut so_far.used, &row.op, row.operands.len())? else {
        return Err(line_fault(text, line, Kind::BadRow));
    };
    let fresh = so_far.index.note(row_key(op, row.operands.as_slice()))?;
    if !fresh {
        return Err(line_fault(text, line, Kind::BadRow));
    }
    let bad = has_bad_class(marks, so_far.next, so_far.constants.as_slice(), &row);
    if bad {
        return Err(line_fault(text, line, Kind::BadClass));
    }
    so_far.next = see_row(so_far.next, &mut so_far.constants, &row);
    so_far.rows.push(LaunchRow {
        class: row.class,
        op,
        name: name_of_op(alloc, row.op)?,
        operands: row.operands,
    })?;
    Ok(())
}

/// No rows, and no constant for so many classes.
fn no_rows(alloc: Global, count: usize) -> Result<RowsSoFar, NoMemory>
    ensures used { IfOk result (λ so_far. so_far.used ≡ []) }
    ensures index { IfOk result (λ so_far. so_far.index ≡ []) }
    ensures rows { IfOk result (λ so_far. so_far.rows ≡ []) }
    ensures next { IfOk result (λ so_far. so_far.next ≡ 0) }
    ensures size { IfOk result (λ so_far. length so_far.constants.items ≡ count) }
    ensures none { IfOk result (λ so_far. (k : ℕ) → get_or so_far.constants.items k None ≡ None) }
{
    let mut constants = Vec::new(alloc);
    for _ in 0..count {
        constants.push(None)?;
    }
    Ok(RowsSoFar {
        used: Items::new(alloc),
        index: RowIndex::new(alloc),
        next: 0,
        constants,
        rows: Items::new(alloc),
    })
}

/// The rows of a block from a line on, one for each mark.
pub(crate) fn read_rows(
    alloc: Global,
    text: &TextLines<'_>,
    first: u32,
    marks: &[Mark],
) -> Result<RowsSoFar, TextFault>
    requires first { first ≤ length text.now }
    requires few { length marks.now ≤ 1000000 }
    ensures ok { IfOk result (HasRead text.now marks.now first (length marks.now)) }
    ensures fault { IfErr result (λ fault. (version from : ℕ) (all : List Row)
        → IsBlockFrom text.now from all marks.now first → IsFaultBy (IsFirstFaultOf version text.now from) fault) }
{
    operators_are_listed();
    let mut so_far = no_rows(alloc, marks.len())?;
    let end = text.count();
    let mut line = first;
    for _ in 0..marks.len() {
        if line == end {
            return Err(line_fault(text, line, Kind::BadLine));
        }
        next_row(alloc, text, line, marks, &mut so_far)?;
        line += 1;
    }
    Ok(so_far)
}
