// The rows of a graph, and the tables that find them.
use crate::class_lists::Lists;
use crate::row_index::RowIndex;
use crate::rows::Row;
use slab::Slab;
use word_terms::Operator;

/// The rows of a graph, and what finds them. Beside each class stand the keys of rows: those that it is the class of
/// (`own`) and those that it is an operand of (`uses`); the key of a row that is gone stands there until the class
/// goes. `members` has the classes that are in a class at present.
#[derive(Drop)]
pub struct Tables<O: Operator> {
    pub rows: Slab<Row<O>>,
    pub index: RowIndex,
    pub own: Lists,
    pub uses: Lists,
    pub members: Lists,
    pub constants: Vec<Option<u64>>,
    pub current: Vec<u32>,
}
