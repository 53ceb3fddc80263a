// The rows of a graph by operator, and by operator and class.
ghost use Rattle.std.specs.Prelude.{◌≡◌, ◌≢◌, ℕ, ◌<◌, length, slice_set, slice_index_or, Some, None, IfOk, OnOk};
ghost use Rattle.word_terms.specs.Keys.{op_signature};
ghost use Rattle.egraph.specs.Graph.{IsGraph};
ghost use Rattle.pattern_match.specs.declared.row_lists.ListKey.{ListKey as Key};
ghost use Rattle.pattern_match.specs.ByOperator.{class_part as part_of, list_key, first_in, AreLists, AreTables};

use egraph::Egraph;
use indexmap::IndexMap;
use items::NoMemory;
use std::alloc::Global;
use word_ops::Op;
use word_terms::Operator;

/// The key of an operator, and a class, or 0 where rows are listed by operators alone.
#[derive(Clone, Copy, PartialEq, Eq, Hash)]
pub struct ListKey {
    pub kind: u8,
    pub number: u64,
    pub class: u32,
}

/// The rows of a graph by operator and class, and by operator alone.
#[derive(Drop)]
pub struct RowTables {
    pub by_class: RowLists,
    pub by_operator: RowLists,
}

impl RowTables {
    /// The tables of all rows of the graph. Each row costs two look-ups.
    pub fn new(alloc: Global, graph: &Egraph<Op>) -> Result<RowTables, NoMemory>
        ensures tables { IfOk result (AreTables graph.now) }
        ensures graph { OnOk result (IsGraph op_signature graph.now) }
    {
        let by_class = RowLists::new(alloc, graph, true)?;
        let by_operator = RowLists::new(alloc, graph, false)?;
        Ok(RowTables {
            by_class,
            by_operator,
        })
    }
}

/// Lists of rows by operator, or by operator and class: for each list its first row, and for each row the next one of
/// its list.
#[derive(Drop)]
pub struct RowLists {
    pub firsts: IndexMap<ListKey, u32>,
    pub nexts: Vec<Option<u32>>,
}

fn list_key_of(op: Op, class: u32) -> ListKey
    ensures { result ≡ list_key op class }
{
    let (kind, number) = op.key();
    ListKey {
        kind,
        number,
        class,
    }
}

impl RowLists {
    /// The lists of all rows. Each row costs one look-up.
    fn new(alloc: Global, graph: &Egraph<Op>, by_class: bool) -> Result<RowLists, NoMemory>
        ensures lists { IfOk result (λ made. AreLists by_class graph.now 0 made.firsts.entries made.nexts.items) }
        ensures graph { OnOk result (IsGraph op_signature graph.now) }
    {
        let mut at = graph.rows();
        let mut lists = RowLists {
            firsts: IndexMap::new(alloc),
            nexts: vec![in alloc; None; at as usize]?,
        };
        while at > 0 {
            at -= 1;
            let row = graph.row(at);
            let class = if by_class { row.class } else { 0 };
            lists.put_first(at, row.op, class)?;
        }
        Ok(lists)
    }

    /// Puts a row before those of its list.
    fn put_first(&mut self, at: u32, op: Op, class: u32) -> Result<(), NoMemory>
        requires { at < length self.old.nexts.items }
        ensures first { OnOk result (first_in self.new.firsts.entries (list_key op class) ≡ Some at) }
        ensures others { OnOk result ((key : Key) → key ≢ list_key op class →
            first_in self.new.firsts.entries key ≡ first_in self.old.firsts.entries key) }
        ensures next { OnOk result (self.new.nexts.items
            ≡ slice_set self.old.nexts.items at (first_in self.old.firsts.entries (list_key op class))) }
    {
        let next = self.firsts.insert(list_key_of(op, class), at)?;
        self.nexts[at as usize] = next;
        Ok(())
    }

    /// The first row of the operator and the class; the class is 0 where lists go by operators alone.
    pub(crate) fn first(&self, op: Op, class: u32) -> Option<u32>
        ensures { result ≡ first_in self.now.firsts.entries (list_key op class) }
    {
        match self.firsts.get(&list_key_of(op, class)) {
            Some(at) => Some(*at),
            None => None,
        }
    }

    /// The next row of the same list.
    pub(crate) fn next(&self, at: u32) -> Option<u32>
        ensures { result ≡ slice_index_or self.now.nexts.items at None }
    {
        match self.nexts.get(at as usize) {
            Some(next) => *next,
            None => None,
        }
    }
}
