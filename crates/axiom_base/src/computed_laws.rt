// Laws of the computed rules, of folding and of all schemes, as contracts of functions that do nothing.
ghost use Rattle.std.specs.Prelude.{◌≡◌, ◌↔◌, ℕ, ◌+◌, ◌<◌, List, ◌++◌, length, slice_index, All, Contains};
ghost use Rattle.word_ops.specs.Words.{IsWord};
ghost use Rattle.word_ops.specs.Operators.{arity_of};
ghost use Rattle.word_ops.specs.Worlds.{World};
ghost use Rattle.word_ops.specs.declared.operators.WordOp.{WordOp as Operator};
ghost use Rattle.axiom_base.specs.Rewrites.{Rewrite, IsRule, IsTrueIn, IsUsable};
ghost use Rattle.axiom_base.specs.Conditions.{IsCalc, constants_of};
ghost use Rattle.axiom_base.specs.Computed.{calc_rewrite, calc_variables, first_constant, constants_from, fold_rewrite};
ghost use Rattle.word_terms.specs.OperatorsIn.{operators_in};
ghost use Rattle.axiom_base.specs.Schemes.{AddedRules, Scheme, IsOf, IsRuleOf, calc_kinds, further_kinds, weight};
ghost use Rattle.axiom_base.specs.declared.kinds.Calc.{Calc as Kind};
ghost use Rattle.axiom_base.specs.declared.kinds.Given.{Given as Constants};

use crate::table::equations_are_true;
use word_ops::{meanings_are_in_range, memories_hold_words, words_have_bits};

/// Does nothing. Its clauses are laws of the computed rules. A rule whose constants meet its condition is true in every
/// world, and the constants give one choice of constants for its right side. Whatever its constants, the sides of a
/// rule are well formed, the left side has every variable of the rule, and the last variables are those of the
/// constants. Each kind is listed, with those of every text or with the further ones.
pub fn computed_rules_are_true()
    ensures true_rules { (world : World) (names : ℕ → List ℕ) (kind : Kind) (cs : List ℕ)
        (given : Constants) → IsCalc kind cs given → IsTrueIn world names (calc_rewrite kind cs given) }
    ensures usable { (kind : Kind) (cs : List ℕ) (given : Constants) → length cs ≡ constants_of kind →
        IsWord given.e → IsWord given.f → IsUsable (calc_rewrite kind cs given) }
    ensures last { (kind : Kind) → length (calc_variables kind) ≡ first_constant kind + constants_of kind }
    ensures one { (kind : Kind) (cs : List ℕ) (given other : Constants) →
        IsCalc kind cs given → IsCalc kind cs other → given ≡ other }
    ensures listed { (kind : Kind) → Contains (calc_kinds ++ further_kinds) kind }
{
    memories_hold_words();
    words_have_bits();
}

/// Does nothing. Its clause is a law of computed rules and folds: which of a rule's variables stand for constants.
pub fn constants_are_numbered()
    ensures numbers { (k : ℕ) (cs : List ℕ) (n c : ℕ) → Contains (constants_from k cs) (n, c)
        ↔ ((i : ℕ) × (i < length cs) × (n ≡ k + i) × (c ≡ slice_index cs i)) }
{}

/// Does nothing. Its clauses are laws of folding: in every world, an operator applied to constants equals the constant
/// that it gives.
pub fn folds_are_true()
    ensures true_rules { (world : World) (names : ℕ → List ℕ) (op : Operator) (cs : List ℕ) →
        length cs ≡ arity_of op → IsTrueIn world names (fold_rewrite op cs) }
    ensures usable { (op : Operator) (cs : List ℕ) → All IsWord cs → length cs ≡ arity_of op →
        IsUsable (fold_rewrite op cs) }
{
    meanings_are_in_range();
}

/// Does nothing. Its clauses are laws of all rules of a saturation, whatever axioms and kinds join: each is true in a
/// world where these axioms are true, both of its sides are well formed, and the right sides of the rules of one scheme
/// have the same number of operators.
pub fn schemes_are_true()
    ensures true_rules { (world : World) (names : ℕ → List ℕ) (added : AddedRules) (r : Rewrite) →
        All (IsTrueIn world names) added.axioms → IsRuleOf added r → IsTrueIn world names r }
    ensures usable { (added : AddedRules) (r : Rewrite) → All IsRule added.axioms → IsRuleOf added r → IsUsable r }
    ensures rules { (r : Rewrite) → IsRule r → IsUsable r }
    ensures weights { (scheme : Scheme) (r : Rewrite) → IsOf scheme r → operators_in r.right ≡ weight scheme }
{
    equations_are_true();
    computed_rules_are_true();
    folds_are_true();
}
