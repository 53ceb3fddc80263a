// The walk over a pattern and those rows of a graph that can match.
ghost use Rattle.std.specs.Prelude.{◌≡◌, ℕ, ◌<◌, ◌⊎◌, List, length, map, get_or, slice_set, Option, Some, None, true, IfOk, MatchOption};
ghost use Rattle.word_terms.specs.View.{tree_of, trees_of};
ghost use Rattle.word_terms.specs.Tree.{variable, operands_of};
ghost use Rattle.word_ops.specs.declared.sorts.Op.{Op as TermOperator};
ghost use Rattle.word_terms.specs.Keys.{op_signature};
ghost use Rattle.egraph.specs.Graph.{Graph, IsGraph};
ghost use Rattle.pattern_match.specs.ByOperator.{AreLists};
ghost use Rattle.pattern_match.specs.Bindings.{known_class, Extended, ExtendedAll, CanExtend, CanExtendAll};

use crate::row_lists::RowLists;
use egraph::Egraph;
use items::{Items, NoMemory};
use std::alloc::Global;
use word_ops::Op;
use word_terms::Term;

// With the class for the variable, where no other class is known of it.
fn bind_one(
    alloc: Global,
    bound: &[Option<u32>],
    number: usize,
    class: u32,
) -> Result<Option<Items<Option<u32>>>, NoMemory>
    requires { number < length bound.now }
    ensures { IfOk result (λ made. MatchOption made
        ((x : ℕ) × (known_class bound.now number ≡ Some x) × (x ≡ class → ⊥))
        (λ b. (b ≡ slice_set bound.now number (Some class))
        × ((known_class bound.now number ≡ None) ⊎ (known_class bound.now number ≡ Some class)))) }
{
    if let Some(old) = bound[number] {
        if old != class {
            return Ok(None);
        }
    }
    let mut made = Vec::from_slice(alloc, bound)?;
    made[number] = Some(class);
    Ok(Some(Items::from(made)))
}

// With the class for the variable, each where no other class is known of it.
fn bind(
    alloc: Global,
    list: &[Items<Option<u32>>],
    number: usize,
    class: u32,
) -> Result<Vec<Items<Option<u32>>>, NoMemory>
    requires { CanExtend (variable number) list.now }
    ensures { IfOk result (λ out. (g : Graph TermOperator) → Extended g (variable number) class list.now out.items) }
{
    let mut out = Vec::new(alloc);
    for bound in list {
        if let Some(made) = bind_one(alloc, bound.as_slice(), number, class)? {
            out.push(made)?;
        }
    }
    Ok(out)
}

fn copies(alloc: Global, list: &[Items<Option<u32>>]) -> Result<Vec<Items<Option<u32>>>, NoMemory>
    ensures { IfOk result (λ out. out.items ≡ list.now) }
{
    let mut out = Vec::new(alloc);
    for bound in list {
        out.push(Items::from_slice(alloc, bound.as_slice())?)?;
    }
    Ok(out)
}

/// Each item of the list is what is known of the variables so far, and is extended by all that gives the pattern the
/// class. For each row of the pattern's operator and the class, the row's operands are walked over the items of the
/// list.
#[cycle(walk)]
pub(crate) fn extend(
    alloc: Global,
    graph: &Egraph<Op>,
    lists: &RowLists,
    pattern: &Term<Op>,
    class: u32,
    list: &[Items<Option<u32>>],
) -> Result<Vec<Items<Option<u32>>>, NoMemory>
    requires graph { IsGraph op_signature graph.now }
    requires lists { AreLists true graph.now 0 lists.now.firsts.entries lists.now.nexts.items }
    requires can { CanExtend (tree_of pattern.now) list.now }
    ensures { IfOk result (λ out. Extended graph.now (tree_of pattern.now) class list.now out.items) }
{
    match pattern {
        Term::Var(n) => bind(alloc, list, *n as usize, class),
        Term::App(op, operands) => {
            let mut out = Vec::new(alloc);
            let mut place = lists.first(*op, class);
            while let Some(at) = place {
                let row = graph.row(at);
                if row.operands.len() == operands.len() {
                    let classes = row.operands.as_slice();
                    let mut found = extend_all(alloc, graph, lists, operands, classes, list)?;
                    out.append(&mut found)?;
                }
                place = lists.next(at);
            }
            Ok(out)
        }
    }
}

// The same for operands and their classes, place by place.
#[cycle(walk)]
pub(crate) fn extend_all(
    alloc: Global,
    graph: &Egraph<Op>,
    lists: &RowLists,
    operands: &[Term<Op>],
    classes: &[u32],
    list: &[Items<Option<u32>>],
) -> Result<Vec<Items<Option<u32>>>, NoMemory>
    requires graph { IsGraph op_signature graph.now }
    requires lists { AreLists true graph.now 0 lists.now.firsts.entries lists.now.nexts.items }
    requires can { CanExtendAll (operands_of (trees_of operands.now)) list.now }
    requires count { length classes.now ≡ length operands.now }
    ensures { IfOk result (λ out.
        ExtendedAll graph.now (operands_of (trees_of operands.now)) classes.now list.now out.items) }
{
    let mut found = copies(alloc, list)?;
    for (at, operand) in operands.iter().enumerate() {
        found = extend(alloc, graph, lists, operand, classes[at], &found)?;
    }
    Ok(found)
}
