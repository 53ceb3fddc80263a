// A first walk over the lines of a block of rows, which finds which classes there are, and their sorts: a row may name
// the class of a later row.
ghost use Rattle.std.specs.Prelude.{◌≡◌, ◌≤◌, ◌<◌, ◌+◌, ◌-◌, ◌++◌, ◌∷◌, [], ℕ, List, length, take, drop, IfOk, OnOk, Some, None, if◌then◌else◌, IsTrue, false, ◌↔◌};
ghost use Rattle.text_core.specs.Lines.{Line};
ghost use Rattle.launch_graph.specs.RowFaults.{tells_sort, sort_given, sort_taken, IsWrongClass};
ghost use Rattle.launch_graph.specs.ClassMarks.{AreMarks, HasMarks, HasWrongOperand, next_mark};
ghost use Rattle.launch_graph.specs.declared.row_lines.RowLine.{RowLine as Row};

use crate::row_lines::{LineOp, RowLine};
use crate::row_reading::row_line;
use items::NoMemory;
use std::alloc::Global;
use text_core::TextLines;
use word_ops::{Op, Sort};

/// What is known of a class: that no row has it, that a row has it but none tells its sort, or its sort.
#[derive(Clone, Copy)]
pub enum Mark {
    Absent,
    Unsorted,
    Sorted(Sort),
}

/// The mark of a class once one more row of it is seen, with this operator over so many operands.
fn mark_after(mark: Mark, op: &LineOp, count: usize) -> Mark
    ensures { result ≡ next_mark mark (if tells_sort op.now count then Some (sort_given op.now) else None) }
{
    if let Mark::Sorted(sort) = mark {
        return Mark::Sorted(sort);
    }
    match op {
        LineOp::Plain(op) if op.arity() == count => Mark::Sorted(op.sort()),
        LineOp::Use(_) => Mark::Sorted(Sort::Word),
        _ => Mark::Unsorted,
    }
}

/// Marks the class of a row.
fn mark_row(marks: &mut [Mark], row: &RowLine)
    ensures size { length marks.new ≡ length marks.old }
    ensures marks { (rows : List Row) → AreMarks (length marks.old) rows marks.old
        → AreMarks (length marks.old) (rows ++ row.now ∷ []) marks.new }
{
    let class = row.class as usize;
    if class < marks.len() {
        marks[class] = mark_after(marks[class], &row.op, row.operands.len());
    }
}

/// Marks the class of a line, where it has the form of a row.
fn mark_line(
    alloc: Global,
    text: &TextLines<'_>,
    line: u32,
    marks: &mut [Mark],
) -> Result<(), NoMemory>
    requires { line < length text.now }
    ensures size { length marks.new ≡ length marks.old }
    ensures marks { OnOk result ((first count : ℕ) → first ≤ line
        → HasMarks (take (line - first) (drop first text.now)) count marks.old
        → HasMarks (take (line + 1 - first) (drop first text.now)) count marks.new) }
{
    let Some(row) = row_line(alloc, text, line)? else {
        return Ok(());
    };
    mark_row(marks, &row);
    Ok(())
}

/// The marks of the classes below `count`, by the lines before `end`.
pub(crate) fn class_marks(
    alloc: Global,
    text: &TextLines<'_>,
    first: u32,
    end: u32,
    count: u32,
) -> Result<Vec<Mark>, NoMemory>
    requires order { first ≤ end }
    requires end { end ≤ length text.now }
    ensures { IfOk result (λ marks. HasMarks (take (end - first) (drop first text.now)) count marks.items) }
{
    let mut marks = vec![in alloc; Mark::Absent; count as usize]?;
    for line in first..end {
        mark_line(alloc, text, line, &mut marks)?;
    }
    Ok(marks)
}

fn is_sort(sort: Sort, wanted: Sort) -> bool
    ensures { IsTrue result ↔ (sort ≡ wanted) }
{
    matches!(
        (sort, wanted),
        (Sort::Word, Sort::Word) | (Sort::Memory, Sort::Memory)
    )
}

/// Whether a class is wrong in a place where one of this sort is wanted.
pub(crate) fn is_wrong(marks: &[Mark], wanted: Sort, class: u32) -> bool
    ensures low { result ≡ false → class < length marks.now }
    ensures wrong { (rows : List Row) → AreMarks (length marks.now) rows marks.now
        → IsTrue result ↔ IsWrongClass (length marks.now) rows wanted class }
{
    if class as usize >= marks.len() {
        return true;
    }
    match marks[class as usize] {
        Mark::Absent => true,
        Mark::Unsorted => false,
        Mark::Sorted(sort) => !is_sort(sort, wanted),
    }
}

/// The sort that an operator gives.
pub(crate) fn given_sort(op: &LineOp) -> Sort
    ensures { result ≡ sort_given op.now }
{
    match op {
        LineOp::Plain(op) => op.sort(),
        _ => Sort::Word,
    }
}

/// The sort that an operator takes as operand `at`.
fn taken_sort(op: &LineOp, at: usize) -> Sort
    ensures { result ≡ sort_taken op.now at }
{
    match op {
        LineOp::Plain(Op::Select(_) | Op::Store(_) | Op::Load(_) | Op::Put(_)) if at == 0 =>
            Sort::Memory,
        _ => Sort::Word,
    }
}

/// Whether some operand of a row is a wrong class.
pub(crate) fn has_wrong_operand(marks: &[Mark], row: &RowLine) -> bool
    ensures { (rows : List Row) → AreMarks (length marks.now) rows marks.now
        → IsTrue result ↔ HasWrongOperand (length marks.now) rows row.now }
{
    let operands = row.operands.as_slice();
    for at in 0..operands.len() {
        if is_wrong(marks, taken_sort(&row.op, at), operands[at]) {
            return true;
        }
    }
    false
}
