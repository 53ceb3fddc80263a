// Laws of the definitions, as contracts of functions that do nothing.
ghost use Rattle.std.specs.Prelude.{◌≡◌, ℕ, ◌<◌, List, length, slice_index, All, AllPairs};
ghost use Rattle.word_ops.specs.declared.operators.WordOp.{WordOp as Operator};
ghost use Rattle.word_ops.specs.declared.sorts.Op.{Op as TermOperator};
ghost use Rattle.word_ops.specs.declared.sorts.Op.TheVariants.{Word};
ghost use Rattle.word_terms.specs.Keys.{op_signature};
ghost use Rattle.word_terms.specs.Sorting.{sort_at};
ghost use Rattle.word_terms.specs.Tree.{Tree, Trees};
ghost use Rattle.axiom_base.specs.Rewrites.{Rewrite, IsUsable};
ghost use Rattle.axiom_base.specs.Schemes.{folding, IsOf};
ghost use Rattle.egraph.specs.Graph.{Graph, IsGraph, Agree, HasClass, HasRow};
ghost use Rattle.egraph.specs.Sorts.{IsOfSort};
ghost use Rattle.pattern_match.specs.Classes.{IsClass, AreClasses};
ghost use Rattle.pattern_match.specs.Matches.{IsMatch};

use egraph::classes_have_one_sort;
use word_ops::Op;

/// Does nothing. Its clauses are laws: where no two rows agree, a term has at most one class, and so has each of a list
/// of terms; and the class of a term whose variables stand for classes of the graph is a class of the graph.
pub fn terms_have_one_class()
    ensures one { (g : Graph TermOperator) (places : List ℕ) (t : Tree TermOperator) (c d : ℕ) →
        AllPairs (λ x y. ¬ Agree x y) g.rows → IsClass g places t c → IsClass g places t d → c ≡ d }
    ensures each { (g : Graph TermOperator) (places : List ℕ) (ts : Trees TermOperator) (cs ds : List ℕ) →
        AllPairs (λ x y. ¬ Agree x y) g.rows → AreClasses g places ts cs → AreClasses g places ts ds → cs ≡ ds }
    ensures has { (g : Graph TermOperator) (places : List ℕ) (t : Tree TermOperator) (c : ℕ) →
        All (HasClass g) places → IsClass g places t c → HasClass g c }
{}

/// Does nothing. Its clauses are laws of the matches of rules in a graph: the class of the left side is a class of the
/// graph, and of the sort of both sides; each variable's class has the variable's sort; and a match of folding is a
/// row.
pub fn matches_have_sorts()
    ensures has { (g : Graph TermOperator) (r : Rewrite) (places : List ℕ) (c : ℕ) →
        IsMatch g r places c → HasClass g c }
    ensures class { (g : Graph TermOperator) (r : Rewrite) (places : List ℕ) (c : ℕ) (usable : IsUsable r) →
        IsGraph op_signature g → IsMatch g r places c → IsOfSort op_signature g c usable.sort }
    ensures places { (g : Graph TermOperator) (r : Rewrite) (places : List ℕ) (c n : ℕ) → IsUsable r →
        IsGraph op_signature g → IsMatch g r places c → n < length places →
        IsOfSort op_signature g (slice_index places n) (sort_at r.variables n) }
    ensures folds { (g : Graph TermOperator) (op : Operator) (r : Rewrite) (places : List ℕ) (c : ℕ) →
        IsOf (folding op) r → IsMatch g r places c → HasRow g.rows (Word op) places c }
{
    classes_have_one_sort::<Op>();
}
