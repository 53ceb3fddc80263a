// The lines of a refutation.
use crate::Lit;
use items::Items;

/// A lemma with its id and, as hints, the ids of the clauses and lemmas that show it, in the order in which unit
/// propagation takes them.
#[derive(Drop)]
pub struct Line {
    pub id: u32,
    pub lits: Items<Lit>,
    pub hints: Items<u32>,
}

/// Lemmas, each shown by the formula and by those before it.
pub struct Lines {
    pub lines: Items<Line>,
}

// By hand, so that it is proved here alone: a derived one is proved in each crate that drops lines.
impl Drop for Lines {
    fn drop(self) {
        let Lines { lines: _lines } = self;
    }
}
