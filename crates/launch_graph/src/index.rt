// The rows of a graph, found by their operator and operands.
ghost use Rattle.std.specs.Prelude.{◌≡◌, ◌↔◌, ◌++◌, ◌∷◌, [], IfOk, OnErr, IsTrue, Contains, false};

use indexmap::IndexSet;
use items::NoMemory;
use std::alloc::Global;
use std::marker::Model;

/// The key of an operator, and its operands, filled up to four with 2 ^ 32 - 1, which is no class.
#[derive(Clone, Copy, PartialEq, Eq, Hash)]
pub struct RowKey {
    pub kind: u8,
    pub number: u64,
    pub first: u32,
    pub second: u32,
    pub third: u32,
    pub fourth: u32,
}

/// The keys of rows in the order of the rows. Whether a key is there costs the same however many there are.
#[derive(Drop)]
pub struct RowIndex {
    seen: IndexSet<RowKey>,
}

impl Model for RowIndex {
    ghost use Rattle.std.specs.Prelude.{List};
    ghost use Rattle.launch_graph.specs.declared.index.RowKey.{RowKey as Key};

    ghost Value = { List Key };

    ghost view = { λ a. a.seen.keys };
}

impl RowIndex {
    pub fn new(alloc: Global) -> RowIndex
        ensures { result ≡ [] }
    {
        RowIndex {
            seen: IndexSet::new(alloc),
        }
    }

    /// Puts a key at the end, unless it is there, and says whether it was new.
    pub fn note(&mut self, key: RowKey) -> Result<bool, NoMemory>
        ensures fresh { IfOk result (λ fresh. IsTrue fresh ↔ ¬ Contains self.old key) }
        ensures there { IfOk result (λ fresh. fresh ≡ false → Contains self.old key) }
        ensures new { IfOk result (λ fresh. IsTrue fresh → self.new ≡ self.old ++ key ∷ []) }
        ensures old { IfOk result (λ fresh. fresh ≡ false → self.new ≡ self.old) }
        ensures err { OnErr result (self.new ≡ self.old) }
    {
        let (_, fresh) = self.seen.insert_full(key)?;
        Ok(fresh)
    }
}
