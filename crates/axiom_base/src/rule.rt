// A rewrite rule.
ghost use Rattle.std.specs.Prelude.{◌≡◌, List, IfNone, IfOk, IfSome};
ghost use Rattle.word_ops.specs.declared.sorts.Sort.{Sort as SortOf};
ghost use Rattle.word_terms.specs.View.{tree_of};
ghost use Rattle.axiom_base.specs.Rewrites.{IsRule, rewrite};

use crate::well_formed::{has_sort, sort_of, sorts_of_variables};
use items::{Items, NoMemory};
use std::alloc::Global;
use std::marker::Model;
use word_ops::{Op, Sort};
use word_terms::Term;

/// A rewrite rule: wherever its left side stands, its right side is made equal to it.
#[derive(Drop)]
pub struct Rule {
    variables: Items<Sort>,
    left: Term<Op>,
    right: Term<Op>,
}

impl Model for Rule {
    ghost use Rattle.axiom_base.specs.Rewrites.{Rewrite, rewrite, IsRule};
    ghost use Rattle.axiom_base.specs.Codes.{rewrite_code};
    ghost use Rattle.word_terms.specs.View.{tree_of};

    ghost Value = { Rewrite };

    ghost coded = { rewrite_code };

    ghost view = { λ r. rewrite r.variables (tree_of r.left) (tree_of r.right) };

    ghost invariant = { λ r. IsRule (rewrite r.variables (tree_of r.left) (tree_of r.right)) };
}

impl Rule {
    /// The rule with these two sides, or `None` where they make none. It costs the number of variables times the length
    /// of the left side, and the length of both sides.
    pub fn new(alloc: Global, left: Term<Op>, right: Term<Op>) -> Result<Option<Rule>, NoMemory>
        ensures some { IfOk result (λ made. IfSome made (λ rule.
            (rule.left ≡ tree_of left) × (rule.right ≡ tree_of right) × IsRule rule)) }
        ensures none { IfOk result (λ made. IfNone made ((variables : List SortOf) →
            IsRule (rewrite variables (tree_of left) (tree_of right)) → ⊥)) }
    {
        let Some(sort) = sort_of(&left) else {
            return Ok(None);
        };
        let variables = sorts_of_variables(alloc, &left, sort)?;
        let sorts = variables.as_slice();
        if has_sort(&left, sort, sorts) && has_sort(&right, sort, sorts) {
            Ok(Some(Rule {
                variables,
                left,
                right,
            }))
        } else {
            Ok(None)
        }
    }

    /// The rule over variables of these sorts, for sides that are known to make one.
    pub fn over(
        alloc: Global,
        variables: &[Sort],
        left: Term<Op>,
        right: Term<Op>,
    ) -> Result<Rule, NoMemory>
        requires { IsRule (rewrite variables.now (tree_of left) (tree_of right)) }
        ensures { IfOk result (λ rule. rule ≡ rewrite variables.now (tree_of left) (tree_of right)) }
    {
        Ok(Rule {
            variables: Items::from_slice(alloc, variables)?,
            left,
            right,
        })
    }

    /// The sort of each variable, by its number.
    pub fn variables(&self) -> &[Sort]
        ensures sorts { result.now ≡ self.now.variables }
        ensures rule { IsRule self.now }
    {
        self.variables.as_slice()
    }

    pub fn left(&self) -> &Term<Op>
        ensures { tree_of result.now ≡ self.now.left }
    {
        &self.left
    }

    pub fn right(&self) -> &Term<Op>
        ensures { tree_of result.now ≡ self.now.right }
    {
        &self.right
    }
}
