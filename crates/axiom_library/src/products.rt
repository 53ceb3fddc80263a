// Products by constants.
ghost use Rattle.std.specs.Prelude.{◌≡◌, IfOk, map};
ghost use Rattle.goal_meaning.specs.Views.{axiom_view};
ghost use Rattle.word_ops.specs.declared.operates.Operate.TheVariants.{Mulq};
ghost use Rattle.word_terms.specs.View.{tree_of};
ghost use Rattle.word_terms.specs.Building as trees;
ghost use Rattle.word_terms.specs.Building.{o2};
ghost use Rattle.axiom_library.specs.Shapes as shapes;
ghost use Rattle.axiom_library.specs.Families as rows;
ghost use Rattle.axiom_library.specs.Families.{axioms_of};
ghost use Rattle.axiom_library.specs.declared.families.Family.TheVariants as families;

use crate::axiom::over_x;
use crate::building::{by, repeated};
use goal_meaning::Axiom;
use items::NoMemory;
use std::alloc::Global;
use word_ops::{Op, Operate};
use word_terms::{Term, constant, operate_2, variable};

/// `x` times the factor, which is the term.
fn product(alloc: Global, factor: u64, right: Term<Op>) -> Result<Axiom, NoMemory>
    ensures { IfOk result (λ a. axiom_view a
        ≡ shapes.over_x (λ x. (o2 Mulq x (trees.constant factor), tree_of right))) }
{
    over_x(alloc, by(alloc, Operate::Mulq, variable(0), factor)?, right)
}

fn in_steps(alloc: Global, factor: u64, outer: Operate, inner: Operate) -> Result<Axiom, NoMemory>
    ensures { IfOk result (λ a. axiom_view a ≡ rows.in_steps factor outer inner) }
{
    let multiple = operate_2(alloc, inner, variable(0), variable(0))?;
    product(
        alloc,
        factor,
        operate_2(alloc, outer, multiple, variable(0))?,
    )
}

fn in_steps_to_0(
    alloc: Global,
    factor: u64,
    outer: Operate,
    inner: Operate,
) -> Result<Axiom, NoMemory>
    ensures { IfOk result (λ a. axiom_view a ≡ rows.in_steps_to_0 factor outer inner) }
{
    let multiple = operate_2(alloc, inner, variable(0), variable(0))?;
    product(
        alloc,
        factor,
        operate_2(alloc, outer, multiple, constant(alloc, 0))?,
    )
}

fn small_products(alloc: Global) -> Result<Vec<Axiom>, NoMemory>
    ensures { IfOk result (λ axioms. map axiom_view axioms.items ≡ rows.small_products) }
{
    let mut axioms = Vec::new(alloc);
    axioms.push(in_steps(alloc, 6, Operate::Addq, Operate::S4addq)?)?;
    axioms.push(in_steps(alloc, 10, Operate::Addq, Operate::S8addq)?)?;
    axioms.push(in_steps(alloc, 11, Operate::S4subq, Operate::S4subq)?)?;
    axioms.push(in_steps(alloc, 25, Operate::S8addq, Operate::S4subq)?)?;
    axioms.push(in_steps_to_0(alloc, 12, Operate::S4addq, Operate::S4subq)?)?;
    axioms.push(in_steps_to_0(alloc, 20, Operate::S4addq, Operate::S4addq)?)?;
    axioms.push(in_steps_to_0(alloc, 24, Operate::S8addq, Operate::S4subq)?)?;
    axioms.push(in_steps_to_0(alloc, 36, Operate::S4addq, Operate::S8addq)?)?;
    axioms.push(in_steps_to_0(alloc, 40, Operate::S8addq, Operate::S4addq)?)?;
    Ok(axioms)
}

fn large_products(alloc: Global) -> Result<Vec<Axiom>, NoMemory>
    ensures { IfOk result (λ axioms. map axiom_view axioms.items ≡ rows.large_products) }
{
    let mut axioms = Vec::new(alloc);
    let times_3 = operate_2(alloc, Operate::S4subq, variable(0), variable(0))?;
    let times_25 = operate_2(alloc, Operate::S8addq, times_3, variable(0))?;
    let times_100 = operate_2(alloc, Operate::S4addq, times_25, constant(alloc, 0))?;
    axioms.push(product(alloc, 100, times_100)?)?;
    let twice = repeated(alloc, Operate::Addq, 8, &variable(0))?;
    let four_times = repeated(alloc, Operate::Addq, 16, &twice)?;
    let eight_times = repeated(alloc, Operate::Addq, 32, &four_times)?;
    axioms.push(product(alloc, 16843009, four_times)?)?;
    axioms.push(product(alloc, 72340172838076673, eight_times)?)?;
    Ok(axioms)
}

pub(crate) fn products(alloc: Global) -> Result<Vec<Axiom>, NoMemory>
    ensures { IfOk result (λ axioms. map axiom_view axioms.items ≡ axioms_of families.Products) }
{
    let mut axioms = small_products(alloc)?;
    axioms.append(&mut large_products(alloc)?)?;
    Ok(axioms)
}
