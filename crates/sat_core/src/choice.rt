// The literals that a new clause watches: the two that become false last.
ghost use Rattle.std.specs.Prelude.{◌≡◌, ◌<◌, ◌↔◌, List, length, Some, IsTrue, MatchOption};
ghost use Rattle.std.specs.List.{All};
ghost use Rattle.cnf_core.specs.declared.literal.Lit.{Lit as Literal};
ghost use Rattle.cnf_core.specs.Formula.{IsLitOf};
ghost use Rattle.sat_core.specs.Steps.{var_count, IsTrailState};
ghost use Rattle.sat_core.specs.Watches.{IsLatest, IsLaterOf, IsChosen};

use crate::trail::Trail;
use crate::watches::Pair;
use cnf_core::Lit;

/// The two literals of a clause that become false last, or its one literal twice.
pub(crate) fn watched_pair(clause: &[Lit], trail: &Trail) -> Pair
    requires some { 0 < length clause.now }
    requires exist { All (IsLitOf (var_count trail.now)) clause.now }
    requires slots { length trail.now.indices.items ≡ var_count trail.now }
    ensures { (clauses : List (List Literal)) → IsTrailState clauses (var_count trail.now) trail.now
        → IsChosen trail.now.steps.items clause.now result }
{
    let a = latest(clause, trail, None).unwrap_or(clause[0]);
    let b = latest(clause, trail, Some(a)).unwrap_or(a);
    Pair { a, b, saved: 0 }
}

/// The literal of a clause that becomes false last, other than the one that is passed over.
fn latest(clause: &[Lit], trail: &Trail, but: Option<Lit>) -> Option<Lit>
    requires exist { All (IsLitOf (var_count trail.now)) clause.now }
    requires slots { length trail.now.indices.items ≡ var_count trail.now }
    ensures exist { MatchOption result (Unit {0}) (IsLitOf (var_count trail.now)) }
    ensures latest { (clauses : List (List Literal)) → IsTrailState clauses (var_count trail.now) trail.now
        → IsLatest trail.now.steps.items clause.now but result }
{
    let mut best = None;
    for lit in clause {
        best = later_of(trail, *lit, but, best);
    }
    best
}

/// One more literal, where it becomes false later than the best so far and isn't passed over, else the best so far.
fn later_of(trail: &Trail, lit: Lit, but: Option<Lit>, best: Option<Lit>) -> Option<Lit>
    requires exist { IsLitOf (var_count trail.now) lit }
    requires slots { length trail.now.indices.items ≡ var_count trail.now }
    requires best { MatchOption best (Unit {0}) (IsLitOf (var_count trail.now)) }
    ensures exist { MatchOption result (Unit {0}) (IsLitOf (var_count trail.now)) }
    ensures later { (clauses : List (List Literal)) → IsTrailState clauses (var_count trail.now) trail.now
        → IsLaterOf trail.now.steps.items lit but best result }
{
    if but == Some(lit) {
        return best;
    }
    match best {
        None => Some(lit),
        Some(old) => {
            if trail.false_from(old) < trail.false_from(lit) {
                Some(lit)
            } else {
                best
            }
        }
    }
}
