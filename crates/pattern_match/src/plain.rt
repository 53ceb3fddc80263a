// Matches of equations and axioms.
ghost use Rattle.std.specs.Prelude.{◌≡◌, ℕ, ◌^◌, ◌-◌, min, map, All, IfOk};
ghost use Rattle.word_terms.specs.View.{tree_of};
ghost use Rattle.word_terms.specs.Keys.{op_signature};
ghost use Rattle.word_terms.specs.OperatorsIn.{operators_in};
ghost use Rattle.axiom_base.specs.Schemes.{plain};
ghost use Rattle.egraph.specs.Graph.{IsGraph};
ghost use Rattle.pattern_match.specs.ByOperator.{AreTables};
ghost use Rattle.pattern_match.specs.Listing.{Lists, ListsUpTo};
ghost use Rattle.pattern_match.specs.Matches.{IsMatchOf, IsUnmet, IsUnmetOf, IsNeed};
ghost use Rattle.pattern_match.specs.Found.{classes_in};
ghost use Rattle.pattern_match.specs.declared.found.Match.{Match as Found};

use crate::found::Match;
use crate::reading::has_class;
use crate::row_lists::RowTables;
use crate::searching::substitutions;
use axiom_base::Rule;
use egraph::Egraph;
use items::{Items, NoMemory};
use std::alloc::Global;
use word_ops::Op;
use word_terms::{Term, terms_are_trees};

/// The matches of the rule, each once, in no stated order. Each row of the graph costs a look-up; then only those rows
/// are walked that have the operator that the left side has there, and, below its root, the class.
pub fn matches(alloc: Global, graph: &Egraph<Op>, rule: &Rule) -> Result<Items<Match>, NoMemory>
    ensures exact { IfOk result (λ found. Lists (IsMatchOf graph.now (plain rule.now)) (map classes_in found)) }
{
    let tables = RowTables::new(alloc, graph)?;
    let variables = rule.variables();
    let found = substitutions(alloc, graph, &tables, rule.left(), variables.len())?;
    Ok(Items::from(found))
}

/// The matches under which the right side has no class, or another class than the left side.
pub fn unmet(alloc: Global, graph: &Egraph<Op>, rule: &Rule) -> Result<Items<Match>, NoMemory>
    ensures exact { IfOk result (λ found. Lists (IsUnmetOf graph.now (plain rule.now)) (map classes_in found)) }
{
    let tables = RowTables::new(alloc, graph)?;
    let found = find_unmet(alloc, graph, &tables, rule, usize::MAX)?;
    let _count = found.len();
    Ok(found)
}

/// The same, found with tables of the graph's rows that serve for all rules. The search ends with the first match that
/// makes them more than `most`.
pub fn find_unmet(
    alloc: Global,
    graph: &Egraph<Op>,
    tables: &RowTables,
    rule: &Rule,
    most: usize,
) -> Result<Items<Match>, NoMemory>
    requires graph { IsGraph op_signature graph.now }
    requires tables { AreTables graph.now tables.now }
    ensures found { IfOk result (λ found.
        ListsUpTo (IsUnmetOf graph.now (plain rule.now)) most (map classes_in found)) }
    ensures each { IfOk result (All (λ (m : Found). IsUnmet graph.now rule.now m.classes m.class)) }
{
    let variables = rule.variables();
    let right = rule.right();
    let matched = substitutions(alloc, graph, tables, rule.left(), variables.len())?;
    let mut found = Vec::new(alloc);
    for one in &matched {
        if !has_class(alloc, graph, right, one.classes.as_slice(), one.class)? {
            found.push(one.with(alloc, None)?)?;
            if found.len() > most {
                return Ok(Items::from(found));
            }
        }
    }
    Ok(Items::from(found))
}

/// The rows that the unmet matches may add: their number times the operators of the right side, where a constant counts
/// as one and a variable as none; 2 ^ 64 - 1 if that is less.
pub fn need(alloc: Global, graph: &Egraph<Op>, rule: &Rule) -> Result<u64, NoMemory>
    ensures exact { IfOk result (λ need.
        (n : ℕ) × IsNeed graph.now (plain rule.now) n × (need ≡ min n (2 ^ 64 - 1))) }
{
    let found = unmet(alloc, graph, rule)?;
    Ok((found.len() as u64).saturating_mul(operators(rule.right())))
}

/// How many operators the term has, or 2 ^ 64 - 1 where that is greater.
pub fn operators(term: &Term<Op>) -> u64
    ensures { result ≡ min (operators_in (tree_of term.now)) (2 ^ 64 - 1) }
{
    terms_are_trees::<Op>();
    match term {
        Term::Var(_) => 0,
        Term::App(_, operands) => {
            let mut count: u64 = 1;
            for operand in operands {
                count = count.saturating_add(operators(operand));
            }
            count
        }
    }
}
