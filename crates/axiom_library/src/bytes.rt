// Bytes put together one by one.
ghost use Rattle.std.specs.Prelude.{◌≡◌, ◌≤◌, IfOk, map};
ghost use Rattle.goal_meaning.specs.Views.{axiom_view};
ghost use Rattle.word_terms.specs.Tree.{variable as variable_at};
ghost use Rattle.word_terms.specs.View.{tree_of};
ghost use Rattle.axiom_library.specs.Shapes as shapes;
ghost use Rattle.axiom_library.specs.Families as rows;

use crate::axiom::{over_abcd, over_x};
use crate::building::{by, repeated, stored, swapped};
use goal_meaning::Axiom;
use items::NoMemory;
use std::alloc::Global;
use word_ops::{Op, Operate, WordOp};
use word_terms::{Term, constant, operate_2, two, variable};

/// The low bytes of four terms put into another one, from a place on.
fn four_stored(
    alloc: Global,
    t: Term<Op>,
    at: u64,
    a: Term<Op>,
    b: Term<Op>,
    c: Term<Op>,
    d: Term<Op>,
) -> Result<Term<Op>, NoMemory>
    requires { at ≤ 4 }
    ensures { IfOk result (λ r. tree_of r
        ≡ shapes.four_stored (tree_of t) at (tree_of a) (tree_of b) (tree_of c) (tree_of d)) }
{
    let with_a = stored(alloc, t, at, a)?;
    let with_b = stored(alloc, with_a, at + 1, b)?;
    let with_c = stored(alloc, with_b, at + 2, c)?;
    stored(alloc, with_c, at + 3, d)
}

fn byte_of(alloc: Global, number: u64) -> Result<Term<Op>, NoMemory>
    ensures { IfOk result (λ t. tree_of t ≡ shapes.byte_of (variable_at 0) number) }
{
    two(alloc, WordOp::Selectb, variable(0), constant(alloc, number))
}

/// The bytes from a number down to 0, put into the term from a place on.
fn four_bytes(alloc: Global, t: Term<Op>, at: u64, first: u64) -> Result<Term<Op>, NoMemory>
    requires place { at ≤ 4 }
    requires bytes { 3 ≤ first }
    ensures { IfOk result (λ r. tree_of r ≡ rows.four_bytes (tree_of t) at (variable_at 0) first) }
{
    let a = byte_of(alloc, first)?;
    let b = byte_of(alloc, first - 1)?;
    let c = byte_of(alloc, first - 2)?;
    let d = byte_of(alloc, first - 3)?;
    four_stored(alloc, t, at, a, b, c, d)
}

fn packing(alloc: Global) -> Result<Axiom, NoMemory>
    ensures { IfOk result (λ a. axiom_view a ≡ rows.packing) }
{
    let zero = constant(alloc, 0);
    let left = four_stored(
        alloc,
        zero,
        0,
        variable(0),
        variable(1),
        variable(2),
        variable(3),
    )?;
    let first = by(alloc, Operate::And, variable(0), 255)?;
    let second = by(alloc, Operate::Insbl, variable(1), 1)?;
    let third = by(alloc, Operate::Insbl, variable(2), 2)?;
    let fourth = by(alloc, Operate::Insbl, variable(3), 3)?;
    let low = operate_2(alloc, Operate::Bis, first, second)?;
    let high = operate_2(alloc, Operate::Bis, third, fourth)?;
    over_abcd(alloc, left, operate_2(alloc, Operate::Bis, low, high)?)
}

fn swapping_4(alloc: Global) -> Result<Axiom, NoMemory>
    ensures { IfOk result (λ a. axiom_view a ≡ rows.swapping_4) }
{
    let left = four_bytes(alloc, constant(alloc, 0), 0, 3)?;
    let first = by(alloc, Operate::Extbl, variable(0), 3)?;
    let fourth = by(alloc, Operate::Insbl, variable(0), 3)?;
    let shifted = by(alloc, Operate::Srl, variable(0), 8)?;
    let second = by(alloc, Operate::Zapnot, shifted.copy(alloc)?, 2)?;
    let third = by(alloc, Operate::Insbl, shifted, 2)?;
    let outer = operate_2(alloc, Operate::Bis, first, fourth)?;
    let inner = operate_2(alloc, Operate::Bis, second, third)?;
    over_x(alloc, left, operate_2(alloc, Operate::Bis, outer, inner)?)
}

fn swapping_8(alloc: Global) -> Result<Axiom, NoMemory>
    ensures { IfOk result (λ a. axiom_view a ≡ rows.swapping_8) }
{
    let low = four_bytes(alloc, constant(alloc, 0), 0, 7)?;
    let left = four_bytes(alloc, low, 4, 3)?;
    let down = by(alloc, Operate::Srl, variable(0), 32)?;
    let up = by(alloc, Operate::Sll, variable(0), 32)?;
    let halves = operate_2(alloc, Operate::Bis, down, up)?;
    let quarters = swapped(alloc, 16, 51, 204, &halves)?;
    over_x(alloc, left, swapped(alloc, 8, 85, 170, &quarters)?)
}

fn four_times(alloc: Global) -> Result<Term<Op>, NoMemory>
    ensures { IfOk result (λ t. tree_of t ≡ shapes.four_times (variable_at 0)) }
{
    let first = by(alloc, Operate::And, variable(0), 255)?;
    let second = by(alloc, Operate::Insbl, variable(0), 1)?;
    let pair = operate_2(alloc, Operate::Bis, first, second)?;
    let other = by(alloc, Operate::Inswl, pair.copy(alloc)?, 2)?;
    operate_2(alloc, Operate::Bis, pair, other)
}

/// The low byte of variable 0 put in four times, from a place on.
fn x_stored(alloc: Global, t: Term<Op>, at: u64) -> Result<Term<Op>, NoMemory>
    requires { at ≤ 4 }
    ensures { IfOk result (λ r. tree_of r ≡ shapes.four_stored (tree_of t) at
        (variable_at 0) (variable_at 0) (variable_at 0) (variable_at 0)) }
{
    four_stored(
        alloc,
        t,
        at,
        variable(0),
        variable(0),
        variable(0),
        variable(0),
    )
}

fn spreading(alloc: Global) -> Result<Axiom, NoMemory>
    ensures { IfOk result (λ a. axiom_view a ≡ rows.spreading) }
{
    let low = x_stored(alloc, constant(alloc, 0), 0)?;
    let left = x_stored(alloc, low, 4)?;
    let half = four_times(alloc)?;
    over_x(alloc, left, repeated(alloc, Operate::Bis, 32, &half)?)
}

pub(crate) fn bytes(alloc: Global) -> Result<Vec<Axiom>, NoMemory>
    ensures { IfOk result (λ axioms. map axiom_view axioms.items ≡ rows.byte_moves) }
{
    let mut axioms = Vec::new(alloc);
    axioms.push(packing(alloc)?)?;
    axioms.push(swapping_4(alloc)?)?;
    axioms.push(swapping_8(alloc)?)?;
    axioms.push(spreading(alloc)?)?;
    Ok(axioms)
}
