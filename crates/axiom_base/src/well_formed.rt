// The sorts of a rule's variables, and whether its sides keep to them.
ghost use Rattle.std.specs.Prelude.{◌≡◌, ℕ, ◌<◌, ◌^◌, ◌↔◌, List, length, IfOk, IfSome, IsTrue, MatchOption};
ghost use Rattle.word_ops.specs.Meanings as meanings;
ghost use Rattle.word_ops.specs.Meanings.{arity_of_op, operand_sort};
ghost use Rattle.word_ops.specs.declared.sorts.Sort.{Sort as SortOf};
ghost use Rattle.word_terms.specs.View.{tree_of};
ghost use Rattle.word_terms.specs.Signature.{HasWordConstant};
ghost use Rattle.word_terms.specs.Keys.{op_signature};
ghost use Rattle.word_terms.specs.Sorting.{HasSort, IsApplication, Occurs, sort_at};
ghost use Rattle.axiom_base.specs.Steps.{IsSortOf};

use items::{Items, NoMemory};
use std::alloc::Global;
use word_ops::{Op, Sort};
use word_terms::{Term, terms_are_trees};

/// What an application gives, or `None` for a variable.
pub(crate) fn sort_of(term: &Term<Op>) -> Option<Sort>
    ensures { MatchOption result
        (IsApplication (tree_of term.now) → ⊥)
        (λ found. IsApplication (tree_of term.now) × ((variables : List SortOf) (sort : SortOf) →
        HasSort op_signature variables sort (tree_of term.now) → found ≡ sort)) }
{
    terms_are_trees::<Op>();
    match term {
        Term::Var(_) => None,
        Term::App(op, _) => Some(op.sort()),
    }
}

/// The sorts of variables 0, 1 and so on, up to the first that doesn't stand in the term. Each is that of a place
/// where the variable stands.
pub(crate) fn sorts_of_variables(
    alloc: Global,
    term: &Term<Op>,
    sort: Sort,
) -> Result<Items<Sort>, NoMemory>
    ensures found { IfOk result (λ sorts. (n : ℕ) → n < length sorts →
        IsSortOf (tree_of term.now) sort n (sort_at sorts n)) }
    ensures all { IfOk result (λ sorts. Occurs (length sorts) (tree_of term.now) → ⊥) }
{
    let mut sorts = Items::new(alloc);
    while let Some(found) = sort_in(term, sort, sorts.len()) {
        sorts.push(found)?;
    }
    Ok(sorts)
}

// The sort of a place where the variable stands, in a term of the sort.
fn sort_in(term: &Term<Op>, sort: Sort, number: usize) -> Option<Sort>
    ensures place { MatchOption result
        (Occurs number (tree_of term.now) → ⊥)
        (λ found. IsSortOf (tree_of term.now) sort number found) }
    ensures few { IfSome result (λ _. number < 2 ^ 32) }
{
    terms_are_trees::<Op>();
    match term {
        Term::Var(n) => {
            if *n as usize == number {
                Some(sort)
            } else {
                None
            }
        }
        Term::App(op, operands) => {
            for (at, operand) in operands.iter().enumerate() {
                if let Some(found) = sort_in(operand, sort_of_place(*op, at), number) {
                    return Some(found);
                }
            }
            None
        }
    }
}

// What the operator takes as operand `at`; a word, where it has no such operand.
fn sort_of_place(op: Op, at: usize) -> Sort
    ensures { result ≡ operand_sort op at }
{
    if at < op.arity() {
        op.operand_sort(at)
    } else {
        Sort::Word
    }
}

/// Whether the term is well formed and of the sort.
pub(crate) fn has_sort(term: &Term<Op>, sort: Sort, variables: &[Sort]) -> bool
    ensures { IsTrue result ↔ HasSort op_signature variables.now sort (tree_of term.now) }
{
    terms_are_trees::<Op>();
    match term {
        Term::Var(n) => is_sort_at(variables, *n as usize, sort),
        Term::App(op, operands) => {
            if !takes_and_gives(*op, operands.len(), sort) {
                return false;
            }
            for (at, operand) in operands.iter().enumerate() {
                if !has_sort(operand, sort_of_place(*op, at), variables) {
                    return false;
                }
            }
            true
        }
    }
}

// Whether the variable is there and of the sort.
fn is_sort_at(variables: &[Sort], number: usize, sort: Sort) -> bool
    ensures { IsTrue result ↔ ((number < length variables.now) × (sort_at variables.now number ≡ sort)) }
{
    number < variables.len() && variables[number] == sort
}

// Whether the operator takes as many operands and gives the sort. A constant is a word by its type.
fn takes_and_gives(op: Op, count: usize, sort: Sort) -> bool
    ensures exact { IsTrue result ↔ ((count ≡ arity_of_op op) × (meanings.sort_of op ≡ sort)) }
    ensures in_range { HasWordConstant op_signature op }
{
    op.has_word_constant();
    op.arity() == count && op.sort() == sort
}
