// Sums with constants.
ghost use Rattle.std.specs.Prelude.{◌≡◌, IfOk, map};
ghost use Rattle.goal_meaning.specs.Views.{axiom_view};
ghost use Rattle.axiom_library.specs.Families as rows;

use crate::axiom::over_xy;
use crate::building::by;
use goal_meaning::Axiom;
use items::NoMemory;
use std::alloc::Global;
use word_ops::Operate;
use word_terms::{constant, operate_1, operate_2, variable};

pub(crate) fn sums(alloc: Global) -> Result<Vec<Axiom>, NoMemory>
    ensures { IfOk result (λ axioms. map axiom_view axioms.items ≡ rows.sums) }
{
    let left = operate_2(alloc, Operate::Addq, variable(0), variable(1))?;
    let eighth = by(alloc, Operate::Srl, variable(1), 3)?;
    let rest = by(alloc, Operate::And, variable(1), 7)?;
    let sum = operate_2(alloc, Operate::Addq, variable(0), rest)?;
    let right = operate_2(alloc, Operate::S8addq, eighth, sum)?;
    Ok(vec![in alloc; over_xy(alloc, left, right)?]?)
}

pub(crate) fn halves(alloc: Global) -> Result<Vec<Axiom>, NoMemory>
    ensures { IfOk result (λ axioms. map axiom_view axioms.items ≡ rows.halves) }
{
    let left = operate_2(alloc, Operate::Addq, variable(0), variable(1))?;
    let rounded = operate_2(alloc, Operate::S4addq, constant(alloc, 8192), variable(1))?;
    let high = by(alloc, Operate::Zapnot, rounded, 252)?;
    let low = operate_1(alloc, Operate::Sextw, variable(1))?;
    let sum = operate_2(alloc, Operate::Addq, variable(0), high)?;
    let right = operate_2(alloc, Operate::Addq, sum, low)?;
    Ok(vec![in alloc; over_xy(alloc, left, right)?]?)
}
