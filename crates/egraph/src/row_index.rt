// The places of rows by what they apply.
ghost use Rattle.std.specs.Prelude.{◌≡◌, ◌≢◌, ◌<◌, ℕ, None, OnErr, map, slice_index, slice_index_or, Some, OnOk, MatchOption};
ghost use Rattle.slab.specs.Slab.{get};
ghost use Rattle.egraph.specs.declared.rows.Row.{Row as RowOf};
ghost use Rattle.egraph.specs.Graph.{AreMade};
ghost use Rattle.egraph.specs.declared.row_index.RowKey.{RowKey as Key};
ghost use Rattle.egraph.specs.Keys.{key_of_row, indexed_place};
ghost use Rattle.egraph.specs.Tables.{IsIndexed};

use crate::rows::{Row, reads_as};
use indexmap::IndexMap;
use items::NoMemory;
use slab::Slab;
use std::alloc::Global;
use std::marker::Model;
use word_terms::{Operator, same_operator};

/// The key of an operator, and its operands, at most four, filled up with 0.
#[derive(Clone, Copy, PartialEq, Eq, Hash)]
pub struct RowKey {
    pub kind: u8,
    pub number: u64,
    pub first: u32,
    pub second: u32,
    pub third: u32,
    pub fourth: u32,
}

/// A place for each of some keys. A look-up costs the same however many there are.
#[derive(Drop)]
pub struct RowIndex {
    places: IndexMap<RowKey, usize>,
}

impl Model for RowIndex {
    ghost use Rattle.std.specs.Prelude.{ℕ, List};
    ghost use Rattle.egraph.specs.declared.row_index.RowKey.{RowKey as Key};

    ghost Value = { List (Key × ℕ) };

    ghost view = { λ a. a.places.entries };
}

impl RowIndex {
    /// No places, for which no memory is taken.
    pub fn new(alloc: Global) -> RowIndex
        ensures { (key : Key) → indexed_place result key ≡ None }
    {
        RowIndex {
            places: IndexMap::new(alloc),
        }
    }

    pub fn find(&self, key: RowKey) -> Option<usize>
        ensures { result ≡ indexed_place self.now key }
    {
        match self.places.get(&key) {
            Some(place) => Some(*place),
            None => None,
        }
    }

    pub fn note(&mut self, key: RowKey, place: usize) -> Result<(), NoMemory>
        ensures noted { OnOk result (indexed_place self.new key ≡ Some place) }
        ensures others { (other : Key) → other ≢ key → indexed_place self.new other ≡ indexed_place self.old other }
        ensures err { OnErr result ((other : Key) → indexed_place self.new other ≡ indexed_place self.old other) }
    {
        self.places.insert(key, place)?;
        Ok(())
    }

    /// Forgets the place of the key.
    pub fn forget(&mut self, key: RowKey)
        ensures forgotten { indexed_place self.new key ≡ None }
        ensures others { (other : Key) → other ≢ key → indexed_place self.new other ≡ indexed_place self.old other }
    {
        let _ = self.places.swap_remove(&key);
    }
}

/// The operand at a place, or 0.
fn operand_at(operands: &[u32], at: usize) -> u32
    ensures { result ≡ slice_index_or operands.now at 0 }
{
    match operands.get(at) {
        Some(class) => *class,
        None => 0,
    }
}

pub(crate) fn row_key<O: Operator>(op: O, operands: &[u32]) -> RowKey
    ensures { result ≡ key_of_row O.signature op operands.now }
{
    let (kind, number) = op.key();
    RowKey {
        kind,
        number,
        first: operand_at(operands, 0),
        second: operand_at(operands, 1),
        third: operand_at(operands, 2),
        fourth: operand_at(operands, 3),
    }
}

/// The class that the operand at a place is in at present, or 0.
fn present_at(current: &[u32], operands: &[u32], at: usize) -> u32
    requires { AreMade current.now operands.now }
    ensures { result ≡ slice_index_or (map (slice_index current.now) operands.now) at 0 }
{
    match operands.get(at) {
        Some(class) => current[*class as usize],
        None => 0,
    }
}

/// The class of the row with this operator and these operands, read through `current`.
pub(crate) fn find_class<O: Operator>(
    rows: &Slab<Row<O>>,
    index: &RowIndex,
    current: &[u32],
    op: O,
    operands: &[u32],
) -> Option<u32>
    requires made { AreMade current.now operands.now }
    requires indexed { IsIndexed O.signature rows.now index.now }
    ensures { MatchOption result
        ((place : ℕ) (r : RowOf O) → get rows.now place ≡ Some r → r.op ≡ op →
        r.operands ≢ map (slice_index current.now) operands.now)
        (λ class. (place : ℕ)
        × (get rows.now place
        ≡ Some (record { op = op; operands = map (slice_index current.now) operands.now; class = class }))) }
{
    let (kind, number) = op.key();
    let place = index.find(RowKey {
        kind,
        number,
        first: present_at(current, operands, 0),
        second: present_at(current, operands, 1),
        third: present_at(current, operands, 2),
        fourth: present_at(current, operands, 3),
    })?;
    let row = rows.get(place)?;
    if same_operator(row.op, op) && reads_as(row.operands.as_slice(), operands, current) {
        Some(row.class)
    } else {
        None
    }
}
