// Laws of the definitions, as contracts of functions that do nothing.
ghost use Rattle.std.specs.Prelude.{◌≡◌, ℕ, List};
ghost use Rattle.std.specs.declared.vec.Vec.{Vec as VecOf};
ghost use Rattle.std.specs.declared.alloc.Global.{Global as GlobalOf};
ghost use Rattle.word_ops.specs.Worlds.{Value};
ghost use Rattle.word_terms.specs.Tree.{Tree, variable, application, operands_of, value, put_in, substituted};
ghost use Rattle.word_terms.specs.View.{tree_of, trees_of};
ghost use Rattle.word_terms.specs.declared.term.Term.{Term as TermOf};
ghost use Rattle.word_terms.specs.declared.term.Term.TheVariants.{Var, App};

use crate::operator::Operator;

/// The tree of a variable and of an application, and the value of a tree after a substitution.
pub fn terms_are_trees<O: Operator>()
    ensures variables { (n : ℕ) → tree_of {O = O} (Var n) ≡ variable n }
    ensures applications { (op : O) (operands : VecOf (TermOf O) GlobalOf) →
        tree_of (App op operands) ≡ application op (operands_of (trees_of operands.items)) }
    ensures substitutions { (meaning : O → List Value → Value) (values : ℕ → Value)
        (trees : List (Tree O)) (t : Tree O) →
        value meaning values (substituted trees t) ≡ value meaning (λ n. value meaning values (put_in trees n)) t }
{}
