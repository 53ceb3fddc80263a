//! Terms: their copies, keys and substitution, at two operator types.
ghost use Rattle.std.specs.Prelude.{◌≡◌, IfOk};
ghost use Rattle.word_terms.specs.Tree.{application, more, none};
ghost use Rattle.word_terms.specs.View.{tree_of};

use items::NoMemory;
use std::alloc::Global;
use word_ops::{Access, Op, Operate, WordOp};
use word_terms::{Operator, SmallOp, Term, same, subst};

fn leaf<O: Operator>(alloc: Global, op: O) -> Term<O> {
    Term::App(op, Vec::new(alloc))
}

#[tactic(auto, using(word_terms::proofs::Trees::tree_of_application))]
fn of_two<O: Operator>(alloc: Global, op: O, a: Term<O>, b: Term<O>) -> Result<Term<O>, NoMemory>
    ensures { IfOk result (λ t. tree_of t ≡ application op (more (tree_of a) (more (tree_of b) none))) }
{
    let mut operands = Vec::new(alloc);
    operands.push(a)?;
    operands.push(b)?;
    Ok(Term::App(op, operands))
}

// x + (y + x), for the two terms
fn sum<O: Operator>(alloc: Global, op: O, x: &Term<O>, y: &Term<O>) -> Result<Term<O>, NoMemory>
    ensures { IfOk result (λ t. tree_of t
        ≡ application op (more (tree_of x.now) (more (application op
        (more (tree_of y.now) (more (tree_of x.now) none))) none))) }
{
    let inner = of_two(alloc, op, y.copy(alloc)?, x.copy(alloc)?)?;
    of_two(alloc, op, x.copy(alloc)?, inner)
}

#[tactic(auto, using(word_terms::proofs::Trees::tree_of_variable))]
// Whether a variable that stands twice is replaced twice, and another by another term.
fn puts_in<O: Operator>(alloc: Global, op: O, first: O, second: O) -> Result<bool, NoMemory> {
    let pattern = sum(alloc, op, &Term::Var(0), &Term::Var(1))?;
    let mut values = Vec::new(alloc);
    values.push(leaf(alloc, first))?;
    values.push(Term::Var(7))?;
    let found = subst(alloc, &pattern, &values)?;
    let wanted = sum(alloc, op, &leaf(alloc, first), &Term::Var(7))?;
    let other = sum(alloc, op, &leaf(alloc, second), &Term::Var(7))?;
    Ok(same(&found, &wanted) && !same(&found, &other) && !same(&found, &pattern))
}

#[test]
fn subst_puts_a_term_in_each_place_of_its_variable(rt: HostRuntime) {
    let words = puts_in(
        rt.alloc(),
        Op::Word(WordOp::Operate(Operate::Addq)),
        Op::Input(16),
        Op::Input(17),
    );
    assert_eq!(rt; words.ok(), Some(true));
    let small = puts_in(
        rt.alloc(),
        SmallOp::Sum,
        SmallOp::Leaf(1),
        SmallOp::Number(1),
    );
    assert_eq!(rt; small.ok(), Some(true));
}

fn copies<O: Operator>(alloc: Global, op: O, leaves: &[O]) -> Result<bool, NoMemory> {
    for a in leaves {
        for b in leaves {
            let term = of_two(alloc, op, leaf(alloc, *a), leaf(alloc, *b))?;
            let turned = of_two(alloc, op, leaf(alloc, *b), leaf(alloc, *a))?;
            if !same(&term.copy(alloc)?, &term)
                || same(&term, &turned) != same(&leaf(alloc, *a), &leaf(alloc, *b))
            {
                return Ok(false);
            }
        }
    }
    Ok(true)
}

#[test]
fn a_copy_is_the_same_term(rt: HostRuntime) {
    let leaves = [
        Op::Entry,
        Op::Input(0),
        Op::Input(31),
        Op::Constant(0),
        Op::Constant(u64::MAX),
    ];
    assert_eq!(rt;
        copies(
            rt.alloc(),
            Op::Word(WordOp::Operate(Operate::Subq)),
            &leaves
        )
        .ok(),
        Some(true)
    );
    let leaves = [SmallOp::Number(0), SmallOp::Leaf(0), SmallOp::Entry];
    assert_eq!(rt; copies(rt.alloc(), SmallOp::Look, &leaves).ok(), Some(true));
}

#[test]
fn terms_that_differ_are_not_the_same(rt: HostRuntime) {
    let alloc = rt.alloc();
    let one: Term<Op> = Term::Var(1);
    assert!(rt; same(&one, &Term::Var(1)));
    assert!(rt; !same(&one, &Term::Var(2)));
    assert!(rt; !same(&one, &leaf(alloc, Op::Constant(1))));
    assert!(rt;
        !same(
            &leaf(alloc, Op::Select(Access::Quad)),
            &of_two(alloc, Op::Select(Access::Quad), Term::Var(0), Term::Var(1)).expect(
                &rt, "memory"
            )
        )
    );
}
