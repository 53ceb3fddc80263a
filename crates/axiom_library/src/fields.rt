// Fields at bit 0.
ghost use Rattle.std.specs.Prelude.{◌≡◌, IfOk, map};
ghost use Rattle.goal_meaning.specs.Views.{axiom_view};
ghost use Rattle.axiom_library.specs.Families as rows;

use crate::axiom::over_x;
use crate::building::{by, stored};
use goal_meaning::Axiom;
use items::NoMemory;
use std::alloc::Global;
use word_ops::Operate;
use word_terms::{constant, variable};

fn field_at_0(alloc: Global, op: Operate, mask: u64) -> Result<Axiom, NoMemory>
    ensures { IfOk result (λ a. axiom_view a ≡ rows.field_at_0 op mask) }
{
    let left = by(alloc, op, variable(0), 0)?;
    let right = by(alloc, Operate::Zapnot, variable(0), mask)?;
    over_x(alloc, left, right)
}

fn byte_at_0(alloc: Global, op: Operate, word: u64) -> Result<Axiom, NoMemory>
    ensures { IfOk result (λ a. axiom_view a ≡ rows.byte_at_0 op word) }
{
    let left = by(alloc, op, variable(0), word)?;
    let right = by(alloc, Operate::And, variable(0), 255)?;
    over_x(alloc, left, right)
}

fn stored_in_0(alloc: Global) -> Result<Axiom, NoMemory>
    ensures { IfOk result (λ a. axiom_view a ≡ rows.stored_in_0) }
{
    let left = stored(alloc, constant(alloc, 0), 0, variable(0))?;
    let right = by(alloc, Operate::And, variable(0), 255)?;
    over_x(alloc, left, right)
}

pub(crate) fn fields(alloc: Global) -> Result<Vec<Axiom>, NoMemory>
    ensures { IfOk result (λ axioms. map axiom_view axioms.items ≡ rows.fields) }
{
    let mut axioms = Vec::new(alloc);
    axioms.push(byte_at_0(alloc, Operate::Insbl, 0)?)?;
    axioms.push(byte_at_0(alloc, Operate::Extbl, 0)?)?;
    axioms.push(byte_at_0(alloc, Operate::Zapnot, 1)?)?;
    axioms.push(field_at_0(alloc, Operate::Insll, 15)?)?;
    axioms.push(field_at_0(alloc, Operate::Extll, 15)?)?;
    axioms.push(field_at_0(alloc, Operate::Inswl, 3)?)?;
    axioms.push(field_at_0(alloc, Operate::Extwl, 3)?)?;
    axioms.push(stored_in_0(alloc)?)?;
    Ok(axioms)
}
