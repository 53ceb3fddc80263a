// Axioms over variables of one letter each.
ghost use Rattle.std.specs.Prelude.{◌≡◌, IfOk};
ghost use Rattle.goal_meaning.specs.Views.{axiom_view};
ghost use Rattle.word_terms.specs.View.{tree_of};
ghost use Rattle.axiom_library.specs.Shapes as shapes;

use goal_meaning::Axiom;
use items::{Items, NoMemory};
use std::alloc::Global;
use text_core::Name;
use word_ops::Op;
use word_terms::Term;

/// The axiom over variable 0.
pub(crate) fn over_x(alloc: Global, left: Term<Op>, right: Term<Op>) -> Result<Axiom, NoMemory>
    ensures { IfOk result (λ a. axiom_view a ≡ shapes.over_x (λ x. (tree_of left, tree_of right))) }
{
    let x = Name::new(alloc, b"x")?;
    Ok(Axiom {
        variables: Items::from(vec![in alloc; x]?),
        left,
        right,
    })
}

/// The axiom over variables 0 and 1.
pub(crate) fn over_xy(alloc: Global, left: Term<Op>, right: Term<Op>) -> Result<Axiom, NoMemory>
    ensures { IfOk result (λ a. axiom_view a ≡ shapes.over_xy (λ x y. (tree_of left, tree_of right))) }
{
    let x = Name::new(alloc, b"x")?;
    let y = Name::new(alloc, b"y")?;
    Ok(Axiom {
        variables: Items::from(vec![in alloc; x, y]?),
        left,
        right,
    })
}

/// The axiom over variables 0 to 2.
pub(crate) fn over_xym(alloc: Global, left: Term<Op>, right: Term<Op>) -> Result<Axiom, NoMemory>
    ensures { IfOk result (λ a. axiom_view a ≡ shapes.over_xym (λ x y m. (tree_of left, tree_of right))) }
{
    let x = Name::new(alloc, b"x")?;
    let y = Name::new(alloc, b"y")?;
    let m = Name::new(alloc, b"m")?;
    Ok(Axiom {
        variables: Items::from(vec![in alloc; x, y, m]?),
        left,
        right,
    })
}

/// The axiom over variables 0 to 3.
pub(crate) fn over_abcd(alloc: Global, left: Term<Op>, right: Term<Op>) -> Result<Axiom, NoMemory>
    ensures { IfOk result (λ a. axiom_view a ≡ shapes.over_abcd (λ a b c d. (tree_of left, tree_of right))) }
{
    let a = Name::new(alloc, b"a")?;
    let b = Name::new(alloc, b"b")?;
    let c = Name::new(alloc, b"c")?;
    let d = Name::new(alloc, b"d")?;
    Ok(Axiom {
        variables: Items::from(vec![in alloc; a, b, c, d]?),
        left,
        right,
    })
}
