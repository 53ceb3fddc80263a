// Whether the classes of a row are right behind the rows before it.
ghost use Rattle.std.specs.Prelude.{◌≡◌, ◌≢◌, ◌<◌, ◌≤◌, ◌^◌, ◌++◌, ◌∷◌, [], ◌↔◌, List, length, get_or, IsTrue, Some, None, ℕ, false};
ghost use Rattle.launch_graph.specs.RowFaults.{IsBadClass, line_constant};
ghost use Rattle.launch_graph.specs.ClassMarks.{AreMarks};
ghost use Rattle.launch_graph.specs.SeenRows.{IsSeen};
ghost use Rattle.launch_graph.specs.declared.row_lines.RowLine.{RowLine as Row};

use crate::class_marks::{Mark, given_sort, has_wrong_operand, is_wrong};
use crate::row_lines::{LineOp, RowLine};
use word_ops::Op;

/// The constant that a row gives its class.
fn constant(op: &LineOp) -> Option<u64>
    ensures { result ≡ line_constant op.now }
{
    match op {
        LineOp::Plain(Op::Constant(number)) => Some(*number),
        _ => None,
    }
}

/// Whether two constants are there and differ.
fn differ(one: Option<u64>, two: Option<u64>) -> bool
    ensures { IsTrue result ↔ ((m : ℕ) × (n : ℕ) × (one ≡ Some m) × (two ≡ Some n) × (m ≢ n)) }
{
    match (one, two) {
        (Some(one), Some(two)) => one != two,
        _ => false,
    }
}

/// Whether a class of a row is wrong, where `next` is the number of classes of the rows before it, and `constants` has
/// their constants.
pub(crate) fn has_bad_class(
    marks: &[Mark],
    next: u32,
    constants: &[Option<u64>],
    row: &RowLine,
) -> bool
    requires { length constants.now ≡ length marks.now }
    ensures low { result ≡ false → row.now.class < length marks.now }
    ensures near { result ≡ false → row.now.class ≤ next }
    ensures agree { result ≡ false → (m : ℕ) → (n : ℕ) → get_or constants.now row.now.class None ≡ Some m
        → line_constant row.now.op ≡ Some n → m ≡ n }
    ensures bad { (all before : List Row) → AreMarks (length marks.now) all marks.now
        → IsSeen (length marks.now) before next constants.now
        → IsTrue result ↔ IsBadClass (length marks.now) all before row.now }
{
    if is_wrong(marks, given_sort(&row.op), row.class) {
        return true;
    }
    if row.class > next {
        return true;
    }
    if differ(constants[row.class as usize], constant(&row.op)) {
        return true;
    }
    has_wrong_operand(marks, row)
}

/// Notes the class of a row that is right, and gives the number of classes with it.
pub(crate) fn see_row(next: u32, constants: &mut [Option<u64>], row: &RowLine) -> u32
    requires class { row.now.class < length constants.old }
    requires few { row.now.class < 2 ^ 31 }
    requires near { row.now.class ≤ next }
    requires agree { (m : ℕ) → (n : ℕ) → get_or constants.old row.now.class None ≡ Some m
        → line_constant row.now.op ≡ Some n → m ≡ n }
    ensures size { length constants.new ≡ length constants.old }
    ensures seen { (before : List Row) → IsSeen (length constants.old) before next constants.old
        → IsSeen (length constants.old) (before ++ row.now ∷ []) result constants.new }
{
    let class = row.class as usize;
    constants[class] = constant(&row.op).or(constants[class]);
    next.max(row.class + 1)
}
