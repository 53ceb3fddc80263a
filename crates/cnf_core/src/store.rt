// Clauses that share one block of memory.
ghost use Rattle.cnf_core.specs.Pieces.{AreEnds};
ghost use Rattle.std.specs.Prelude.{◌≡◌, ◌<◌, ◌≤◌, [], ◌∷◌, ◌++◌, length, take, slice_get, slice_index, slice_range, Some, OnOk, OnErr};

use crate::Lit;
use items::NoMemory;
use std::alloc::Global;
use std::marker::Model;

/// A list of clauses, by their places from 0. The literals of all of them lie in one vector, so a clause costs its
/// literals and one number.
#[derive(Drop)]
pub struct Clauses {
    literals: Vec<Lit>,
    ends: Vec<usize>,
}

impl Model for Clauses {
    ghost use Rattle.std.specs.Prelude.{List, length};
    ghost use Rattle.cnf_core.specs.declared.literal.Lit.{Lit};
    ghost use Rattle.cnf_core.specs.Pieces.{pieces, AreEnds};

    ghost Value = { List (List Lit) };

    ghost view = { λ a. pieces 0 a.ends.items a.literals.items };

    ghost invariant = { λ a. AreEnds 0 a.ends.items (length a.literals.items) };
}

impl Clauses {
    /// No clause, for which no memory is taken.
    pub fn new(alloc: Global) -> Clauses
        ensures { result ≡ [] }
    {
        Clauses {
            literals: Vec::new(alloc),
            ends: Vec::new(alloc),
        }
    }

    /// The number of clauses.
    #[tactic(auto, using(crate::proofs::Splitting::length_pieces))]
    pub fn len(&self) -> usize
        ensures { result ≡ length self.now }
    {
        self.ends.len()
    }

    /// The clause at a place.
    pub fn get(&self, place: usize) -> &[Lit]
        requires { place < length self.now }
        ensures { slice_get self.now place ≡ Some result.now }
    {
        part(&self.literals, &self.ends, place)
    }

    /// Puts a clause at the end.
    pub fn push(&mut self, clause: &[Lit]) -> Result<(), NoMemory>
        ensures ok { OnOk result (self.new ≡ self.old ++ clause.now ∷ []) }
        ensures err { OnErr result (self.new ≡ self.old) }
    {
        self.ends.reserve(1)?;
        self.literals.extend_from_slice(clause)?;
        self.ends.push(self.literals.len())?;
        Ok(())
    }

    /// Keeps the first clauses, as many as `count`, and drops the rest.
    pub(crate) fn truncate(&mut self, count: usize)
        ensures { self.new ≡ take count self.old }
    {
        if count < self.ends.len() {
            let end = start_of(&self.ends, count);
            self.literals.truncate(end);
            self.ends.truncate(count);
        }
    }
}

/// The part of the literals that is the clause at a place.
#[tactic(auto, using(crate::proofs::Splitting::part_rises, crate::proofs::Splitting::part_within))]
fn part<'a>(literals: &'a [Lit], ends: &[usize], place: usize) -> &'a [Lit]
    requires ends { AreEnds 0 ends.now (length literals.now) }
    requires place { place < length ends.now }
    ensures { result.now ≡ slice_range literals.now (slice_index (0 ∷ ends.now) place) (slice_index ends.now place) }
{
    let start = start_of(ends, place);
    let end = ends[place];
    &literals[start..end]
}

/// Where the clause at a place begins, and at the place after the last one where all of them end.
fn start_of(ends: &[usize], place: usize) -> usize
    requires { place ≤ length ends.now }
    ensures { result ≡ slice_index (0 ∷ ends.now) place }
{
    if place == 0 { 0 } else { ends[place - 1] }
}
