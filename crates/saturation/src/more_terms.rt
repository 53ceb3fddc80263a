// Laws of terms that are inserted beside those of a goal, as contracts of a function that does nothing.
ghost use Rattle.std.specs.Prelude.{ℕ, List, [], ◌++◌, All};
ghost use Rattle.word_ops.specs.declared.sorts.Op.{Op as TermOperator};
ghost use Rattle.word_terms.specs.Keys.{op_signature};
ghost use Rattle.word_terms.specs.Tree.{Tree};
ghost use Rattle.axiom_base.specs.Schemes.{AddedRules};
ghost use Rattle.egraph.specs.Graph.{Graph, IsGraph};
ghost use Rattle.pattern_match.specs.Classes.{IsClass};
ghost use Rattle.saturation.specs.AtStart.{IsSorted};
ghost use Rattle.saturation.specs.Derives.{Derives, Pair};
ghost use Rattle.saturation.specs.GraphStands.{GraphStands};
ghost use Rattle.saturation.specs.Grown.{IsGrown};
ghost use Rattle.saturation.specs.Trace.{AreInserted, IsBuilt};

use word_ops::meanings_are_in_range;

/// Does nothing. Its clauses are laws of terms that are inserted into a graph before any round: it is then the graph of
/// these terms beside the earlier ones, and stands for them too; a term that has a class is inserted already, one that
/// was inserted has the class that it was given, and all others keep theirs. With more terms present no equality is
/// lost.
pub fn more_terms_may_be_inserted()
    ensures grown { (added : AddedRules) (present terms : List (Tree TermOperator)) (equal : List Pair)
        (g new : Graph TermOperator) → IsGraph op_signature g → AreInserted terms g new →
        IsGrown added present equal g 0 → IsGrown added (present ++ terms) equal new 0 }
    ensures graph { (terms : List (Tree TermOperator)) (g new : Graph TermOperator) →
        IsGraph op_signature g → AreInserted terms g new → IsGraph op_signature new }
    ensures stand { (names : ℕ → List ℕ) (added : AddedRules) (equal : List Pair)
        (kept terms : List (Tree TermOperator)) (g new : Graph TermOperator) →
        IsGraph op_signature g → All IsSorted terms → AreInserted terms g new →
        GraphStands names added equal kept g → GraphStands names added equal (kept ++ terms) new }
    ensures derived { (added : AddedRules) (present terms : List (Tree TermOperator)) (equal : List Pair)
        (j : ℕ) (t u : Tree TermOperator) →
        Derives added present equal j t u → Derives added (present ++ terms) equal j t u }
    ensures there { (t : Tree TermOperator) (c : ℕ) (g : Graph TermOperator) →
        IsGraph op_signature g → IsClass g [] t c → IsBuilt [] t g c g }
    ensures class { (t : Tree TermOperator) (c : ℕ) (g new : Graph TermOperator) →
        IsGraph op_signature g → IsBuilt [] t g c new → IsClass new [] t c }
    ensures others { (t other : Tree TermOperator) (c d : ℕ) (g new : Graph TermOperator) →
        IsBuilt [] t g c new → IsClass g [] other d → IsClass new [] other d }
    ensures both { (terms more : List (Tree TermOperator)) (g h new : Graph TermOperator) →
        AreInserted terms g h → AreInserted more h new → AreInserted (terms ++ more) g new }
{
    meanings_are_in_range();
}
