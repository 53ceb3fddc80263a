//! Finds values that satisfy a formula, or lines that refute it, by conflict-driven clause learning.
//!
//! The lines of a refutation can be checked without this crate.
//!
//! Proved: `solve` gives values that satisfy every clause (`solved`), or at most as many lines as the budget that
//! refute the formula (`refuted`), or exactly as many lemmas as the budget, each accepted and fresh: unit propagation
//! couldn't find it from the clauses before (`spent`). So a budget is never spent where unit propagation alone refutes
//! the formula. `solve_from` has the same clauses, with a score given for each variable. That each decision is the free
//! variable that the strategy picks is a contract inside the crate; no public clause shows it. That a search ends is
//! proved; that it ends soon isn't, nor is when it starts again.
//!
//! What nothing forced, and why:
//! - `solve` copies the formula's clauses once into a list of its own, to which lemmas are added, so that an id names a
//!   clause or a lemma by one look, and propagation has one contract over one list. Watches keep a second copy, whose
//!   literals are packed, beside what a visit needs of each clause, so that a visit reads two places of memory.
//! - A clause watches the two of its literals that become false last under the trail of that moment, so the formula's
//!   clauses, unit clauses and a lemma after a backjump need one rule. It has a true literal, or neither watched
//!   literal is false, before each decision too; so steps taken back cost the watch lists nothing.
//! - What is proved of the walk back from a conflict, whichever literals it keeps, is that its line is accepted; that
//!   its lemma is fresh rests on the one literal of the last level. That the lemma is the first unique implication
//!   point is shown by worked lemmas, and that the trail is taken back to the first decision before which it is unit
//!   already is a contract of its own (`before`). Which steps the whole implication graph makes spare is no clause: the
//!   test may answer either way.
//! - That the budget is below 3 to the number of variables is proved by counting: each fresh lemma has a number of its
//!   own below that, and none has the empty lemma's. The code keeps no such number.
//! - All strategies find their variable in one tournament of scores, as `Busy` does: `First` and `Last` have fixed
//!   scores. A tree that stands still needs no places of variables, as a heap does, and its one invariant is that each
//!   node has the better one of the two below it.
//! - An activity is a whole number. It doesn't decay: what is added grows by a nineteenth at each conflict, which is a
//!   decay of 0.95, and all are divided by 2^40 before they come to the end of their type. A restart comes after 100
//!   conflicts times the next number of Luby's sequence, as in MiniSat 2.2. No lemma is ever forgotten.
//! - A lemma is minimised through two reasons under `First`, `Last` and `Busy`, whose answers are stored in many places,
//!   and through the whole implication graph under `Activity`, with at most 100,000 looks at steps for each literal.
#![tactic(auto)]

mod choice;
mod conflict;
mod decision;
mod notes;
mod propagation;
mod restarts;
mod solver;
mod tournament;
mod trail;
mod watches;

pub use solver::{Verdict, solve, solve_from};
