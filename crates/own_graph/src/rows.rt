// Rows that come one after another, each in a class of its own where it isn't there yet.
ghost use Rattle.std.specs.Prelude.{◌≡◌, ◌+◌, [], ◌∷◌, ◌++◌, length, IfOk, OnOk};
ghost use Rattle.graph_meaning.specs.Graphs.{plain_row};
ghost use Rattle.graph_meaning.specs.WellFormed as well_formed;
ghost use Rattle.own_graph.specs.Own as own_graphs;
ghost use Rattle.own_graph.specs.Rows as row_lists;
ghost use Rattle.own_graph.specs.Rows.{HasRoom};

use crate::operands::Part;
use graph_meaning::LaunchRow;
use items::{Items, NoMemory};
use std::alloc::Global;
use text_core::Name;
use word_ops::Op;
use word_terms::Operator;

fn applies(op: Op, operands: &[u32], row: &LaunchRow) -> bool
    ensures { result ≡ row_lists.applies op operands.now row.now }
{
    row.op.key() == op.key() && row.operands.as_slice() == operands
}

/// The class of the row that applies the operator to the operands. It looks through the rows.
pub(crate) fn class_in(rows: &[LaunchRow], op: Op, operands: &[u32]) -> Option<u32>
    ensures { result ≡ row_lists.class_in rows.now op operands.now }
{
    for row in rows {
        if applies(op, operands, row) {
            return Some(row.class);
        }
    }
    None
}

/// The number of the next new class.
fn next_class(rows: &[LaunchRow]) -> u32
    requires { HasRoom 1 rows.now }
    ensures { result ≡ well_formed.next_class rows.now }
{
    let mut next = 0;
    for row in rows {
        next = next.max(row.class + 1);
    }
    next
}

/// Puts a row behind the others.
fn push_row(
    alloc: Global,
    rows: &mut Vec<LaunchRow>,
    class: u32,
    op: Op,
    operands: &[u32],
) -> Result<(), NoMemory>
    ensures { OnOk result (rows.new.items ≡ rows.old.items ++ plain_row class op operands.now ∷ []) }
{
    rows.push(LaunchRow {
        class,
        op,
        name: Name::new(alloc, &[])?,
        operands: Items::from_slice(alloc, operands)?,
    })?;
    Ok(())
}

/// The class of the row that applies the operator to the operands, which is put behind the others with a class of its
/// own where it isn't there.
pub(crate) fn place_row(
    alloc: Global,
    rows: &mut Vec<LaunchRow>,
    op: Op,
    operands: &[u32],
) -> Result<u32, NoMemory>
    requires { HasRoom 1 rows.old.items }
    ensures rows { OnOk result (rows.new.items ≡ row_lists.with_row rows.old.items op operands.now) }
    ensures class { IfOk result (λ class. class ≡ row_lists.class_with rows.old.items op operands.now) }
{
    if let Some(class) = class_in(rows, op, operands) {
        return Ok(class);
    }
    let class = next_class(rows);
    push_row(alloc, rows, class, op, operands)?;
    Ok(class)
}

/// Puts the row of this class behind the others where no row applies the operator to the operands.
pub(crate) fn place_row_of(
    alloc: Global,
    rows: &mut Vec<LaunchRow>,
    class: u32,
    op: Op,
    operands: &[u32],
) -> Result<(), NoMemory>
    ensures { OnOk result (rows.new.items ≡ own_graphs.with_row_of class rows.old.items op operands.now) }
{
    if class_in(rows, op, operands).is_some() {
        return Ok(());
    }
    push_row(alloc, rows, class, op, operands)
}

/// The class of a part; a leaf gets its row.
pub(crate) fn place_part(
    alloc: Global,
    rows: &mut Vec<LaunchRow>,
    part: Part,
) -> Result<u32, NoMemory>
    requires { HasRoom 1 rows.old.items }
    ensures rows { OnOk result (rows.new.items ≡ row_lists.with_leaves rows.old.items (part ∷ [])) }
    ensures class { IfOk result (λ class. class ≡ row_lists.class_of_part rows.old.items part) }
{
    match part {
        Part::Class(class) => Ok(class),
        Part::Leaf(op) => place_row(alloc, rows, op, &[]),
    }
}

/// The classes of parts; each leaf gets its row.
pub(crate) fn place_parts(
    alloc: Global,
    rows: &mut Vec<LaunchRow>,
    parts: &[Part],
) -> Result<Vec<u32>, NoMemory>
    requires { HasRoom (length parts.now) rows.old.items }
    ensures rows { OnOk result (rows.new.items ≡ row_lists.with_leaves rows.old.items parts.now) }
    ensures classes { IfOk result (λ classes. classes.items
        ≡ row_lists.classes_of (row_lists.with_leaves rows.old.items parts.now) parts.now) }
{
    let mut classes = Vec::new(alloc);
    for part in parts {
        classes.push(place_part(alloc, rows, *part)?)?;
    }
    Ok(classes)
}

/// The class of the row that applies the operator to parts.
pub(crate) fn place_applied(
    alloc: Global,
    rows: &mut Vec<LaunchRow>,
    op: Op,
    parts: &[Part],
) -> Result<u32, NoMemory>
    requires { HasRoom (length parts.now + 1) rows.old.items }
    ensures rows { OnOk result (rows.new.items ≡ row_lists.with_applied rows.old.items op parts.now) }
    ensures class { IfOk result (λ class. class ≡ row_lists.applied_class rows.old.items op parts.now) }
{
    let classes = place_parts(alloc, rows, parts)?;
    place_row(alloc, rows, op, &classes)
}
