// Rows and merges of a graph, each after a test of what the call wants.
ghost use Rattle.std.specs.Prelude.{◌≡◌, ◌<◌, IsTrue, length, slice_index, Contains};
ghost use Rattle.egraph.specs.Graph.{AreMade};
ghost use Rattle.egraph.specs.Sorts.{FitOperator, AreOfOneSort};
ghost use Rattle.egraph.specs.declared.rows.Row.{Row as RowOf};

use case_files::Trouble;
use egraph::{Egraph, MergeFault};
use word_ops::Sort;
use word_terms::Operator;

/// Whether each row of the class is of this sort.
fn is_of_sort<O: Operator>(graph: &Egraph<O>, class: u32, sort: Sort) -> bool
    requires made { class < length graph.now.current }
    ensures { IsTrue result → ((t : RowOf O) → Contains graph.now.rows t →
        t.class ≡ slice_index graph.now.current class → sort ≡ O.signature.sort t.op) }
{
    let present = graph.now(class);
    for at in 0..graph.rows() {
        let row = graph.row(at);
        if row.class == present && row.op.sort() != sort {
            return false;
        }
    }
    true
}

/// Whether the classes were made and are of the operator's sorts.
fn fit<O: Operator>(graph: &Egraph<O>, op: O, operands: &[u32]) -> bool
    requires arity { length operands.now ≡ O.signature.arity op }
    ensures made { IsTrue result → AreMade graph.now.current operands.now }
    ensures sorts { IsTrue result → FitOperator O.signature graph.now op operands.now }
{
    for (at, operand) in operands.iter().enumerate() {
        if *operand >= graph.made() {
            return false;
        }
        if !is_of_sort(graph, *operand, op.operand_sort(at)) {
            return false;
        }
    }
    true
}

/// Whether the classes are of one sort.
fn are_alike<O: Operator>(graph: &Egraph<O>, a: u32, b: u32) -> bool
    requires a_made { a < length graph.now.current }
    requires b_made { b < length graph.now.current }
    ensures { IsTrue result → AreOfOneSort O.signature graph.now a b }
{
    if is_of_sort(graph, a, Sort::Word) {
        return is_of_sort(graph, b, Sort::Word);
    }
    if is_of_sort(graph, a, Sort::Memory) {
        return is_of_sort(graph, b, Sort::Memory);
    }
    false
}

/// `insert` after a test of what it wants.
pub(crate) fn put_row<O: Operator>(
    graph: &mut Egraph<O>,
    op: O,
    operands: &[u32],
) -> Result<u32, Trouble> {
    if operands.len() != op.arity() || graph.made() >= 1 << 20 || !fit(graph, op, operands) {
        return Err(Trouble::Unread);
    }
    Ok(graph.insert(op, operands)?)
}

/// `merge` after a test of what it wants.
pub(crate) fn join<O: Operator>(
    graph: Egraph<O>,
    a: u32,
    b: u32,
) -> Result<Result<Egraph<O>, MergeFault>, Trouble> {
    if a >= graph.made() || b >= graph.made() || !are_alike(&graph, a, b) {
        return Err(Trouble::Unread);
    }
    Ok(graph.merge(a, b))
}
