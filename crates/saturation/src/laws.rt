// Laws of the definitions, as contracts of functions that do nothing.
ghost use Rattle.std.specs.Prelude.{ℕ, ◌<◌, ◌≤◌, List, All};
ghost use Rattle.word_ops.specs.declared.sorts.Op.{Op as TermOperator};
ghost use Rattle.word_terms.specs.Keys.{op_signature};
ghost use Rattle.word_terms.specs.Tree.{Tree};
ghost use Rattle.axiom_base.specs.Rewrites.{IsRule};
ghost use Rattle.axiom_base.specs.Schemes.{AddedRules};
ghost use Rattle.egraph.specs.Graph.{Graph, IsGraph};
ghost use Rattle.saturation.specs.Alike.{AreAlike};
ghost use Rattle.saturation.specs.Derives.{Pair, IsClash};
ghost use Rattle.saturation.specs.Grown.{Halts, IsGrown, NotBefore};
ghost use Rattle.saturation.specs.Rounds.{StopIs};
ghost use Rattle.graph_meaning.specs.declared.stops.Stop.{Stop as Reason};

use axiom_base::schemes_are_true;

/// Does nothing. Its clauses are laws of graphs after a number of rounds: no two different constants are equal after
/// this number of rounds or fewer, and two graphs after the same number differ only in the order of their rows and the
/// numbers of their classes.
pub fn grown_graphs_are_one()
    ensures no_clash { (added : AddedRules) (present : List (Tree TermOperator)) (equal : List Pair)
        (g : Graph TermOperator) (j i a b : ℕ) → IsGraph op_signature g → IsGrown added present equal g j → i ≤ j →
        IsClash added present equal i a b → ⊥ }
    ensures alike { (added : AddedRules) (present : List (Tree TermOperator)) (equal : List Pair)
        (g h : Graph TermOperator) (j : ℕ) → IsGraph op_signature g → IsGraph op_signature h →
        IsGrown added present equal g j → IsGrown added present equal h j → AreAlike g h }
{}

/// Does nothing. Its clauses are laws of the number of rounds that are made: rounds halt at this number, and at no
/// smaller one.
pub fn rounds_end_once()
    ensures not_before { (added : AddedRules) (present : List (Tree TermOperator)) (equal : List Pair)
        (rounds nodes i j : ℕ) → All IsRule added.axioms → NotBefore added present equal rounds nodes j → i < j →
        Halts added present equal rounds nodes i → ⊥ }
    ensures halts { (added : AddedRules) (present : List (Tree TermOperator)) (equal : List Pair)
        (g : Graph TermOperator) (rounds nodes j : ℕ) (stop : Reason) → IsGraph op_signature g →
        IsGrown added present equal g j → StopIs added g rounds nodes j stop →
        Halts added present equal rounds nodes j }
{
    schemes_are_true();
}
