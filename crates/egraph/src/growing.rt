// Putting a row into the tables.
ghost use Rattle.std.specs.Prelude.{◌≡◌, ◌≢◌, ◌<◌, ◌^◌, ◌⊎◌, ℕ, [], ◌∷◌, ◌++◌, None, OnErr, IsOk, length, Some, IfOk, OnOk, Contains, is_some};
ghost use Rattle.slab.specs.Slab.{get, HasRoomFor};
ghost use Rattle.std.specs.Vec.{vec_len, vec_capacity};
ghost use Rattle.egraph.specs.declared.rows.Row.{Row as RowOf};
ghost use Rattle.egraph.specs.declared.row_index.RowKey.{RowKey as Key};
ghost use Rattle.egraph.specs.Keys.{key_of_row, indexed_place, listed_at, constant_at};
ghost use Rattle.egraph.specs.Tables.{IsIndexed, FitLists, Grows, RowsAreMade};

use crate::class_constants::put_constant;
use crate::class_lists::Lists;
use crate::row_index::row_key;
use crate::rows::Row;
use crate::tables::Tables;
use items::{Items, NoMemory};
use word_terms::Operator;

/// Puts the key of a row beside its class and each of its operands, and the class among those that are in it.
fn note_row(
    own: &mut Lists,
    uses: &mut Lists,
    members: &mut Lists,
    operands: &[u32],
    place: usize,
    class: u32,
) -> Result<(), NoMemory>
    ensures own { Grows own.old own.new }
    ensures uses { Grows uses.old uses.new }
    ensures members { Grows members.old members.new }
    ensures own_noted { OnOk result (Contains (listed_at own.new class) place) }
    ensures uses_noted { OnOk result ((used : ℕ) → Contains operands.now used →
        Contains (listed_at uses.new used) place) }
    ensures member_noted { OnOk result (Contains (listed_at members.new class) class) }
{
    for used in operands {
        uses.add(*used, place)?;
    }
    own.add(class, place)?;
    members.add(class, class as usize)
}

/// Takes the memory that one more row needs, and puts its key, which has no row yet, into the lists where it will be
/// looked for. What is there already stays.
fn make_room<O: Operator>(
    tables: &mut Tables<O>,
    op: O,
    operands: &[u32],
    place: usize,
    class: u32,
) -> Result<(), NoMemory>
    ensures rows { tables.new.rows ≡ record tables.old.rows { capacity = tables.new.rows.capacity } }
    ensures current { tables.new.current.items ≡ tables.old.current.items }
    ensures own { Grows tables.old.own tables.new.own }
    ensures uses { Grows tables.old.uses tables.new.uses }
    ensures members { Grows tables.old.members tables.new.members }
    ensures index { (key : Key) → key ≢ key_of_row O.signature op operands.now →
        indexed_place tables.new.index key ≡ indexed_place tables.old.index key }
    ensures constants { (other : ℕ) → other ≢ class →
        constant_at tables.new.constants.items other ≡ constant_at tables.old.constants.items other }
    ensures room { OnOk result (HasRoomFor tables.new.rows 1) }
    ensures current_room { OnOk result (vec_len tables.new.current < vec_capacity tables.new.current) }
    ensures own_noted { OnOk result (Contains (listed_at tables.new.own class) place) }
    ensures uses_noted { OnOk result ((used : ℕ) → Contains operands.now used →
        Contains (listed_at tables.new.uses used) place) }
    ensures member_noted { OnOk result (Contains (listed_at tables.new.members class) class) }
    ensures indexed { OnOk result (indexed_place tables.new.index (key_of_row O.signature op operands.now)
        ≡ Some place) }
    ensures constant { OnOk result ((x : ℕ) → O.signature.constant op ≡ Some x →
        constant_at tables.new.constants.items class ≡ Some x) }
    ensures no_other { (x : ℕ) → constant_at tables.new.constants.items class ≡ Some x →
        (IsOk result × (O.signature.constant op ≡ Some x)) ⊎ (constant_at tables.old.constants.items class ≡ Some x) }
    ensures kept { OnErr result (constant_at tables.new.constants.items class
        ≡ constant_at tables.old.constants.items class) }
{
    tables.rows.reserve(1)?;
    tables.current.reserve(1)?;
    note_row(
        &mut tables.own,
        &mut tables.uses,
        &mut tables.members,
        operands,
        place,
        class,
    )?;
    tables.index.note(row_key(op, operands), place)?;
    let constant = op.constant();
    if constant.is_some() {
        put_constant(&mut tables.constants, class, constant)?;
    }
    Ok(())
}

/// Puts a row with a class of its own under a new key.
pub(crate) fn add_row<O: Operator>(
    tables: &mut Tables<O>,
    op: O,
    operands: Vec<u32>,
) -> Result<usize, NoMemory>
    requires few { length tables.old.current.items < 2 ^ 31 }
    requires arity { length operands.items ≡ O.signature.arity op }
    requires made { RowsAreMade tables.old.rows (length tables.old.current.items) }
    requires listed { FitLists O.signature tables.old.rows
        tables.old.own tables.old.uses tables.old.members tables.old.constants.items tables.old.current.items }
    requires indexed { IsIndexed O.signature tables.old.rows tables.old.index }
    requires absent { (place : ℕ) (r : RowOf O) → get tables.old.rows place ≡ Some r → r.op ≡ op →
        r.operands ≢ operands.items }
    ensures err_rows { OnErr result ((place : ℕ) → get tables.new.rows place ≡ get tables.old.rows place) }
    ensures err_current { OnErr result (tables.new.current.items ≡ tables.old.current.items) }
    ensures vacant { IfOk result (λ place. get tables.old.rows place ≡ None) }
    ensures row { IfOk result (λ place.
        get tables.new.rows place
        ≡ Some (record { op = op; operands = operands.items; class = length tables.old.current.items })) }
    ensures others { IfOk result (λ place. (other : ℕ) → other ≢ place →
        get tables.new.rows other ≡ get tables.old.rows other) }
    ensures current { OnOk result (tables.new.current.items
        ≡ tables.old.current.items ++ length tables.old.current.items ∷ []) }
    ensures listed { FitLists O.signature tables.new.rows
        tables.new.own tables.new.uses tables.new.members tables.new.constants.items tables.new.current.items }
    ensures indexed { IsIndexed O.signature tables.new.rows tables.new.index }
{
    let place = tables.rows.vacant_key();
    let class = tables.current.len() as u32;
    make_room(tables, op, &operands, place, class)?;
    tables.rows.insert_reserved(Row {
        op,
        operands: Items::from(operands),
        class,
    });
    tables.current.push(class)?;
    Ok(place)
}
