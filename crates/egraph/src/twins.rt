// Rows that agree, among those whose operands changed.
ghost use Rattle.std.specs.Prelude.{◌≡◌, ◌≢◌, ◌<◌, ℕ, [], None, Some, IfOk, OnOk, IfSome, IfNone, MatchOption};
ghost use Rattle.slab.specs.Slab.{get};
ghost use Rattle.egraph.specs.declared.rows.Row.{Row as RowOf};
ghost use Rattle.egraph.specs.Graph.{Agree};
ghost use Rattle.egraph.specs.Keys.{indexed_place};
ghost use Rattle.egraph.specs.Tables.{HasArities, IsTracked, Twins};

use crate::row_index::{RowIndex, RowKey, row_key};
use crate::rows::Row;
use items::NoMemory;
use slab::Slab;
use word_terms::{Operator, same_operator};

/// The key of another row that agrees with the row under `place`, which has this key in the index.
fn find_twin<O: Operator>(
    rows: &Slab<Row<O>>,
    index: &RowIndex,
    key: RowKey,
    place: usize,
    row: &Row<O>,
) -> Option<usize>
    ensures { MatchOption result
        ((first : ℕ) (r : RowOf O) → indexed_place index.now key ≡ Some first → get rows.now first ≡ Some r →
        first ≢ place → ¬ Agree r row.now)
        (λ first. (first ≢ place) × (r : RowOf O) × (get rows.now first ≡ Some r) × Agree r row.now) }
{
    let first = index.find(key)?;
    let other = rows.get(first)?;
    if first == place || !same_operator(other.op, row.op) {
        return None;
    }
    if other.operands.as_slice() == row.operands.as_slice() {
        Some(first)
    } else {
        None
    }
}

/// The keys of two rows that agree; the second of these waits to be put into the index. A row that agrees with no other
/// one is put into the index.
pub(crate) fn next_twins<O: Operator>(
    rows: &Slab<Row<O>>,
    index: &mut RowIndex,
    waiting: &mut Vec<usize>,
) -> Result<Option<(usize, usize)>, NoMemory>
    requires arities { HasArities O.signature rows.now }
    ensures tracked { OnOk result ((place : ℕ) → IsTracked O.signature rows.now index.old waiting.old.items place →
        IsTracked O.signature rows.now index.new waiting.new.items place) }
    ensures found { IfOk result (λ twins. IfSome twins (λ p. Twins rows.now p.0 p.1)) }
    ensures done { IfOk result (λ twins. IfNone twins (waiting.new.items ≡ [])) }
{
    while let Some(place) = waiting.last() {
        let place = *place;
        if let Some(row) = rows.get(place) {
            let key = row_key(row.op, row.operands.as_slice());
            if let Some(first) = find_twin(rows, index, key, place, row) {
                return Ok(Some((first, place)));
            }
            index.note(key, place)?;
        }
        waiting.pop();
    }
    Ok(None)
}
