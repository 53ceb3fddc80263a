// Moving a class in the rows that name it, and in the classes that are in it.
ghost use Rattle.std.specs.Prelude.{◌≡◌, ◌≢◌, ◌<◌, ℕ, map, length, slice_index, Some, OnOk, IfOk, IsTrue, Contains};
ghost use Rattle.slab.specs.Slab.{get, slab_len};
ghost use Rattle.egraph.specs.declared.rows.Row.{Row as RowOf};
ghost use Rattle.egraph.specs.Steps.{moved};
ghost use Rattle.egraph.specs.declared.row_index.RowKey.{RowKey as Key};
ghost use Rattle.egraph.specs.Keys.{indexed_place};
ghost use Rattle.egraph.specs.Tables.{reclass, reoperand, Becomes, EachBecomes, ListsRowsOf, ListsUsesOf, ListsMembersOf, IsTracked};

use crate::row_index::{RowIndex, row_key};
use crate::rows::{Row, move_all, moved_class};
use items::{Items, NoMemory};
use slab::Slab;
use std::alloc::Global;
use std::mem;
use word_terms::Operator;

/// Puts the class `to` in place of `from` as the class of the row under a key.
fn move_class<O: Operator>(rows: &mut Slab<Row<O>>, place: usize, from: u32, to: u32)
    ensures becomes { Becomes (reclass (moved from to)) rows.old rows.new place }
    ensures others { (other : ℕ) → other ≢ place → get rows.new other ≡ get rows.old other }
    ensures len { slab_len rows.new ≡ slab_len rows.old }
{
    if let Some(mut row) = rows.try_remove(place) {
        row.class = moved_class(row.class, from, to);
        rows.insert_reserved(row);
    }
}

/// Puts the class `to` in place of `from` in the operands of the row under a key.
fn move_operands<O: Operator>(
    alloc: Global,
    rows: &mut Slab<Row<O>>,
    place: usize,
    from: u32,
    to: u32,
)
    ensures becomes { Becomes (reoperand (moved from to)) rows.old rows.new place }
    ensures others { (other : ℕ) → other ≢ place → get rows.new other ≡ get rows.old other }
    ensures len { slab_len rows.new ≡ slab_len rows.old }
{
    if let Some(mut row) = rows.try_remove(place) {
        let mut operands = mem::replace(&mut row.operands, Items::new(alloc)).into_vec();
        move_all(&mut operands, from, to);
        row.operands = Items::from(operands);
        rows.insert_reserved(row);
    }
}

/// Whether the row under a key is there and of the class.
fn is_of<O: Operator>(rows: &Slab<Row<O>>, place: usize, class: u32) -> bool
    ensures { (r : RowOf O) → get rows.now place ≡ Some r → r.class ≡ class → IsTrue result }
{
    match rows.get(place) {
        Some(row) => row.class == class,
        None => false,
    }
}

/// Whether the row under a key is there and has the class as an operand.
fn is_using<O: Operator>(rows: &Slab<Row<O>>, place: usize, class: u32) -> bool
    ensures { (r : RowOf O) → get rows.now place ≡ Some r → Contains r.operands class → IsTrue result }
{
    match rows.get(place) {
        Some(row) => row.operands.as_slice().contains(&class),
        None => false,
    }
}

/// Those of the keys whose rows are still of the class.
pub(crate) fn still_of<O: Operator>(
    alloc: Global,
    rows: &Slab<Row<O>>,
    places: &[usize],
    class: u32,
) -> Result<Vec<usize>, NoMemory>
    requires listed { ListsRowsOf rows.now class places.now }
    ensures { IfOk result (λ kept. ListsRowsOf rows.now class kept.items) }
{
    let mut kept = Vec::new(alloc);
    for place in places {
        if is_of(rows, *place, class) {
            kept.push(*place)?;
        }
    }
    Ok(kept)
}

/// Those of the keys whose rows still have the class as an operand.
pub(crate) fn still_using<O: Operator>(
    alloc: Global,
    rows: &Slab<Row<O>>,
    places: &[usize],
    class: u32,
) -> Result<Vec<usize>, NoMemory>
    requires listed { ListsUsesOf rows.now class places.now }
    ensures { IfOk result (λ kept. ListsUsesOf rows.now class kept.items) }
{
    let mut kept = Vec::new(alloc);
    for place in places {
        if is_using(rows, *place, class) {
            kept.push(*place)?;
        }
    }
    Ok(kept)
}

/// Replaces the class `from` by `to` in the rows whose class it is; the list has the keys of all these rows.
pub(crate) fn move_classes<O: Operator>(
    rows: &mut Slab<Row<O>>,
    places: &[usize],
    from: u32,
    to: u32,
)
    requires listed { ListsRowsOf rows.old from places.now }
    ensures becomes { EachBecomes (reclass (moved from to)) rows.old rows.new }
    ensures len { slab_len rows.new ≡ slab_len rows.old }
{
    for place in places {
        move_class(rows, *place, from, to);
    }
}

/// Takes the row under the key out of the index.
fn forget_row<O: Operator>(rows: &Slab<Row<O>>, index: &mut RowIndex, place: usize)
    ensures { (other : ℕ) → other ≢ place → (key : Key) → indexed_place index.old key ≡ Some other →
        indexed_place index.new key ≡ Some other }
{
    if let Some(row) = rows.get(place) {
        let key = row_key(row.op, row.operands.as_slice());
        if index.find(key) == Some(place) {
            index.forget(key);
        }
    }
}

/// Replaces the class `from` by `to` in the rows that have it as an operand; the list has the keys of all these rows.
/// They then wait to be put back into the index.
pub(crate) fn move_uses<O: Operator>(
    alloc: Global,
    rows: &mut Slab<Row<O>>,
    index: &mut RowIndex,
    waiting: &mut Vec<usize>,
    places: &[usize],
    from: u32,
    to: u32,
) -> Result<(), NoMemory>
    requires listed { ListsUsesOf rows.old from places.now }
    ensures becomes { OnOk result (EachBecomes (reoperand (moved from to)) rows.old rows.new) }
    ensures len { slab_len rows.new ≡ slab_len rows.old }
    ensures tracked { OnOk result ((place : ℕ) → IsTracked O.signature rows.old index.old waiting.old.items place →
        IsTracked O.signature rows.new index.new waiting.new.items place) }
{
    for place in places {
        forget_row(rows, index, *place);
        move_operands(alloc, rows, *place, from, to);
        waiting.push(*place)?;
    }
    Ok(())
}

/// Puts one class that is in `from` into `to`.
fn move_member(current: &mut Vec<u32>, member: usize, from: u32, to: u32)
    ensures len { length current.new.items ≡ length current.old.items }
    ensures moved { member < length current.old.items →
        slice_index current.new.items member ≡ moved from to (slice_index current.old.items member) }
    ensures others { (other : ℕ) → other ≢ member →
        slice_index current.new.items other ≡ slice_index current.old.items other }
{
    if member < current.len() {
        current[member] = moved_class(current[member], from, to);
    }
}

/// Puts the classes that are in `from` into `to`; the list has all these classes.
pub(crate) fn move_members(current: &mut Vec<u32>, members: &[usize], from: u32, to: u32)
    requires listed { ListsMembersOf current.old.items from members.now }
    ensures { current.new.items ≡ map (moved from to) current.old.items }
{
    for member in members {
        move_member(current, *member, from, to);
    }
}
