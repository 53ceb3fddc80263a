// Terms.
ghost use Rattle.std.specs.Prelude.{◌≡◌, ℕ, List, ◌↔◌, length, IfOk, IsTrue};
ghost use Rattle.word_ops.specs.Worlds.{Value, World};
ghost use Rattle.word_terms.specs.Tree as tree;
ghost use Rattle.word_terms.specs.Tree.{AreBelow, put_in, substituted, value};
ghost use Rattle.word_terms.specs.View.{tree_of, trees_of};

use crate::operator::Operator;
use items::NoMemory;
use std::alloc::Global;

/// A variable by its number, or an operator and its operands. Clauses see a term as its tree.
#[derive(Drop)]
pub enum Term<O> {
    Var(u32),
    App(O, Vec<Term<O>>),
}

impl<O: Operator> Term<O> {
    /// An equal term, in memory of its own.
    pub fn copy(&self, alloc: Global) -> Result<Term<O>, NoMemory>
        ensures equal { IfOk result (λ t. tree_of t ≡ tree_of self.now) }
    {
        match self {
            Term::Var(n) => Ok(Term::Var(*n)),
            Term::App(op, operands) => {
                let mut copies = Vec::new(alloc);
                for operand in operands {
                    copies.push(operand.copy(alloc)?)?;
                }
                Ok(Term::App(*op, copies))
            }
        }
    }
}

#[tactic(auto, using(crate::proofs::Trees::tree_of_variable))]
pub fn variable<O: Operator>(number: u32) -> Term<O>
    ensures tree { tree_of result ≡ tree.variable number }
{
    Term::Var(number)
}

#[tactic(auto, using(crate::proofs::Trees::tree_of_application))]
pub fn application<O: Operator>(op: O, operands: Vec<Term<O>>) -> Term<O>
    ensures tree { tree_of result ≡ tree.application op (tree.operands_of (trees_of operands.items)) }
{
    Term::App(op, operands)
}

/// The term with a copy of `values[n]` in place of each variable n. The cost is the size of the result.
pub fn subst<O: Operator>(
    alloc: Global,
    term: &Term<O>,
    values: &[Term<O>],
) -> Result<Term<O>, NoMemory>
    requires variables { AreBelow (length values.now) (tree_of term.now) }
    ensures tree { IfOk result (λ t. tree_of t ≡ substituted (trees_of values.now) (tree_of term.now)) }
    ensures keeps_value { IfOk result (λ t. (world : World) (names : ℕ → List ℕ) (words : ℕ → Value) →
        value (O.meaning world names) words (tree_of t)
        ≡ value (O.meaning world names) (λ n. value (O.meaning world names) words (put_in (trees_of values.now) n))
        (tree_of term.now)) }
{
    match term {
        Term::Var(n) => values[*n as usize].copy(alloc),
        Term::App(op, operands) => {
            let mut made = Vec::new(alloc);
            for operand in operands {
                made.push(subst(alloc, operand, values)?)?;
            }
            Ok(Term::App(*op, made))
        }
    }
}

/// Whether the two are the same term. Takes no memory.
pub fn same<O: Operator>(a: &Term<O>, b: &Term<O>) -> bool
    ensures exact { IsTrue result ↔ (tree_of a.now ≡ tree_of b.now) }
{
    match (a, b) {
        (Term::Var(m), Term::Var(n)) => *m == *n,
        (Term::App(p, xs), Term::App(q, ys)) => {
            if !same_operator(*p, *q) || xs.len() != ys.len() {
                return false;
            }
            for (i, x) in xs.iter().enumerate() {
                if !same(x, &ys[i]) {
                    return false;
                }
            }
            true
        }
        _ => false,
    }
}

/// Whether the two are the same operator.
pub fn same_operator<O: Operator>(op: O, other: O) -> bool
    ensures exact { IsTrue result ↔ (op ≡ other) }
{
    op.key() == other.key()
}
