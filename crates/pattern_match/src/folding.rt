// Matches of folding.
ghost use Rattle.std.specs.Prelude.{◌≡◌, ◌↔◌, ℕ, [], length, map, Contains, IsTrue, IfOk, MatchOption};
ghost use Rattle.word_ops.specs.declared.sorts.Op.TheVariants.{Constant};
ghost use Rattle.word_ops.specs.Operators.{operators};
ghost use Rattle.word_terms.specs.Keys.{op_signature};
ghost use Rattle.axiom_base.specs.Schemes.{folding};
ghost use Rattle.egraph.specs.Graph.{IsGraph, HasRow};
ghost use Rattle.pattern_match.specs.Listing.{Chosen};
ghost use Rattle.pattern_match.specs.Matches.{IsUnmetFold, IsFoldOf, AreNeeds};

use crate::constants::constants_at;
use crate::found::Fold;
use axiom_base::constants_are_numbered;
use egraph::{Egraph, Row, rows_name_present_classes};
use items::{Items, NoMemory};
use std::alloc::Global;
use word_ops::{Op, apply};

/// A fold for each row of an operator on words whose operand classes all have constants, and whose class doesn't have
/// the constant that the operator gives for these; in the order of the rows. The number of folds is what folding needs.
pub fn folds(alloc: Global, graph: &Egraph<Op>) -> Result<Items<Fold>, NoMemory>
    ensures exact { IfOk result (Chosen (IsFoldOf graph.now) graph.now.rows) }
    ensures need { IfOk result (λ found. AreNeeds graph.now (map folding operators) (length found)) }
{
    let mut found = Vec::new(alloc);
    for at in 0..graph.rows() {
        let row = graph.row(at);
        if let Some(value) = folded(alloc, graph, row)? {
            found.push(Fold {
                class: row.class,
                value,
            })?;
        }
    }
    Ok(Items::from(found))
}

// What the row's operator gives for the constants of its operands, where they have some and its class lacks it.
fn folded(alloc: Global, graph: &Egraph<Op>, row: &Row<Op>) -> Result<Option<u64>, NoMemory>
    requires graph { IsGraph op_signature graph.now }
    requires row { Contains graph.now.rows row.now }
    ensures { IfOk result (λ found. MatchOption found
        ((value : ℕ) → ¬ IsUnmetFold graph.now row.now value)
        (IsUnmetFold graph.now row.now)) }
{
    rows_name_present_classes::<Op>();
    constants_are_numbered();
    let Op::Word(op) = row.op else {
        return Ok(None);
    };
    let Some(words) = constants_at(alloc, graph, row.operands.as_slice())? else {
        return Ok(None);
    };
    let value = apply(op, &words);
    match graph.class_of(Op::Constant(value), &[]) {
        Some(class) if class == row.class => Ok(None),
        _ => Ok(Some(value)),
    }
}
