// The declared operators of a graph, numbered in the order of their first rows.
ghost use Rattle.std.specs.Prelude.{◌≡◌, ◌<◌, ◌≤◌, IfOk, MatchOption, Some, length, slice_get};
ghost use Rattle.launch_graph.specs.Numbering as numbering;
ghost use Rattle.launch_graph.specs.declared.numbering.UsedName.{UsedName as Used};
ghost use Rattle.launch_graph.specs.declared.row_lines.LineOp.TheVariants as lines;

use crate::index::RowKey;
use crate::row_lines::LineOp;
use items::{Items, NoMemory};
use text_core::Name;
use word_ops::{Arity, Op};
use word_terms::Operator;

/// How many different declared operators a graph may use.
const MOST_NAMES: usize = 16;

/// A declared operator that rows use, and how many operands it takes.
#[derive(Drop)]
pub struct UsedName {
    pub name: Name,
    pub arity: Arity,
}

/// The place of a name among those used.
fn place_of(used: &[UsedName], name: &Name) -> Option<usize>
    ensures none { MatchOption result (numbering.IsUnused used.now name.now) (λ at. at < length used.now) }
    ensures some { MatchOption result (Unit {0})
        (λ at. (one : Used) × (slice_get used.now at ≡ Some one) × (one.name ≡ name.now)) }
{
    for (at, one) in used.iter().enumerate() {
        if one.name.same(name) {
            return Some(at);
        }
    }
    None
}

/// The number of a declared operator with so many operands, where a row may use it.
fn use_op(used: &mut Items<UsedName>, name: &Name, count: usize) -> Result<Option<Op>, NoMemory>
    requires { length used.old ≤ 16 }
    ensures { IfOk result (λ found. MatchOption found (numbering.HasNoNumber used.old (lines.Use name.now) count)
        (numbering.IsNumberedOp used.old used.new (lines.Use name.now) count)) }
{
    let Some(arity) = Arity::of(count) else {
        return Ok(None);
    };
    let Some(at) = place_of(used.as_slice(), name) else {
        let index = used.len();
        if index >= MOST_NAMES {
            return Ok(None);
        }
        used.push(UsedName {
            name: name.copy()?,
            arity,
        })?;
        return Ok(Some(Op::Declared {
            index: index as u8,
            arity,
        }));
    };
    let known = used.as_slice()[at].arity;
    if known.count() != count {
        return Ok(None);
    }
    Ok(Some(Op::Declared {
        index: at as u8,
        arity: known,
    }))
}

/// The operator of a row with so many operands, with a number where it is a declared one; `None` where no row may have
/// it.
pub(crate) fn numbered_op(
    used: &mut Items<UsedName>,
    op: &LineOp,
    count: usize,
) -> Result<Option<Op>, NoMemory>
    requires { length used.old ≤ 16 }
    ensures { IfOk result (λ found. MatchOption found (numbering.HasNoNumber used.old op.now count)
        (numbering.IsNumberedOp used.old used.new op.now count)) }
{
    match op {
        LineOp::Plain(op) => {
            if op.arity() == count {
                Ok(Some(*op))
            } else {
                Ok(None)
            }
        }
        LineOp::Unknown(_) => Ok(None),
        LineOp::Use(name) => use_op(used, name, count),
    }
}

/// The class at a place, and a number that is no class where there is none.
fn operand_or_none(operands: &[u32], at: usize) -> u32
    ensures { result ≡ numbering.operand_or_none operands.now at }
{
    match operands.get(at) {
        Some(class) => *class,
        None => u32::MAX,
    }
}

/// What a row applies.
pub(crate) fn row_key(op: Op, operands: &[u32]) -> RowKey
    ensures { result ≡ numbering.row_key op operands.now }
{
    let (kind, number) = op.key();
    RowKey {
        kind,
        number,
        first: operand_or_none(operands, 0),
        second: operand_or_none(operands, 1),
        third: operand_or_none(operands, 2),
        fourth: operand_or_none(operands, 3),
    }
}
