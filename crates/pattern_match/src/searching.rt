// Every list of classes under which a pattern has a class of the graph.
ghost use Rattle.std.specs.Prelude.{◌≡◌, ◌++◌, ◌∷◌, [], ℕ, ◌<◌, map, IfOk, OnOk};
ghost use Rattle.word_terms.specs.Keys.{op_signature};
ghost use Rattle.word_terms.specs.Tree.{AreBelow, EachBelow, application, operands_of};
ghost use Rattle.word_terms.specs.View.{tree_of, trees_of};
ghost use Rattle.word_terms.specs.Sorting.{Occurs, OccursInOne};
ghost use Rattle.egraph.specs.Graph.{IsGraph};
ghost use Rattle.pattern_match.specs.Bindings.{AreMatches, Binding, IsSubstitution, IsUnknown, substitution, substitution_match};
ghost use Rattle.pattern_match.specs.ByOperator.{AreTables};

use crate::found::Match;
use crate::row_lists::RowTables;
use crate::walk::{extend, extend_all};
use egraph::Egraph;
use items::{Items, NoMemory};
use std::alloc::Global;
use word_ops::Op;
use word_terms::Term;

/// The lists of `count` classes under which the pattern, which has exactly the variables below `count`, has a class of
/// the graph. An application is looked for among the rows of its operator, a variable among all classes.
pub(crate) fn substitutions(
    alloc: Global,
    graph: &Egraph<Op>,
    tables: &RowTables,
    pattern: &Term<Op>,
    count: usize,
) -> Result<Vec<Match>, NoMemory>
    requires graph { IsGraph op_signature graph.now }
    requires tables { AreTables graph.now tables.now }
    requires below { AreBelow count (tree_of pattern.now) }
    requires all { (n : ℕ) → n < count → Occurs n (tree_of pattern.now) }
    ensures exact { IfOk result (λ found. AreMatches graph.now (tree_of pattern.now)
        (IsSubstitution graph.now (tree_of pattern.now) count) found.items) }
{
    match pattern {
        Term::Var(_) => among_classes(alloc, graph, tables, pattern, count),
        Term::App(op, operands) => among_rows(alloc, graph, tables, *op, operands, count),
    }
}

fn among_classes(
    alloc: Global,
    graph: &Egraph<Op>,
    tables: &RowTables,
    pattern: &Term<Op>,
    count: usize,
) -> Result<Vec<Match>, NoMemory>
    requires graph { IsGraph op_signature graph.now }
    requires tables { AreTables graph.now tables.now }
    requires below { AreBelow count (tree_of pattern.now) }
    requires all { (n : ℕ) → n < count → Occurs n (tree_of pattern.now) }
    ensures exact { IfOk result (λ found. AreMatches graph.now (tree_of pattern.now)
        (IsSubstitution graph.now (tree_of pattern.now) count) found.items) }
{
    let start = start(alloc, count)?;
    let mut out = Vec::new(alloc);
    for class in 0..graph.made() {
        if graph.now(class) == class {
            let found = extend(alloc, graph, &tables.by_class, pattern, class, &start)?;
            add_matches(alloc, &found, class, &mut out)?;
        }
    }
    Ok(out)
}

fn among_rows(
    alloc: Global,
    graph: &Egraph<Op>,
    tables: &RowTables,
    op: Op,
    operands: &[Term<Op>],
    count: usize,
) -> Result<Vec<Match>, NoMemory>
    requires graph { IsGraph op_signature graph.now }
    requires tables { AreTables graph.now tables.now }
    requires below { EachBelow count (operands_of (trees_of operands.now)) }
    requires all { (n : ℕ) → n < count → OccursInOne n (operands_of (trees_of operands.now)) }
    ensures exact { IfOk result (λ found.
        AreMatches graph.now (application op (operands_of (trees_of operands.now)))
        (IsSubstitution graph.now (application op (operands_of (trees_of operands.now))) count) found.items) }
{
    let start = start(alloc, count)?;
    let mut out = Vec::new(alloc);
    let mut place = tables.by_operator.first(op, 0);
    while let Some(at) = place {
        let row = graph.row(at);
        if row.operands.len() == operands.len() {
            let classes = row.operands.as_slice();
            let found = extend_all(alloc, graph, &tables.by_class, operands, classes, &start)?;
            add_matches(alloc, &found, row.class, &mut out)?;
        }
        place = tables.by_operator.next(at);
    }
    Ok(out)
}

// What is known of the variables before a walk: a list of one item, which knows nothing.
fn start(alloc: Global, count: usize) -> Result<Vec<Items<Option<u32>>>, NoMemory>
    ensures { IfOk result (λ list. (b : Binding) × IsUnknown count b × (list.items ≡ b ∷ [])) }
{
    let unknown = Items::from(vec![in alloc; None; count]?);
    Ok(vec![in alloc; unknown]?)
}

// The matches of this class, one for each item, of which all variables are known.
fn add_matches(
    alloc: Global,
    bounds: &[Items<Option<u32>>],
    class: u32,
    out: &mut Vec<Match>,
) -> Result<(), NoMemory>
    ensures { OnOk result (out.new.items ≡ out.old.items ++ map (substitution_match class) bounds.now) }
{
    for bound in bounds {
        let known = bound.as_slice().iter();
        let classes: Vec<u32> = known.map(|class| class.unwrap_or(0)).collect(alloc)?;
        out.push(Match {
            classes: Items::from(classes),
            class,
            given: None,
        })?;
    }
    Ok(())
}
