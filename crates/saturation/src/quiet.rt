// Whether a match is unmet at all.
ghost use Rattle.std.specs.Prelude.{◌≡◌, ◌↔◌, map, IsTrue, IfOk};
ghost use Rattle.word_terms.specs.Keys.{op_signature};
ghost use Rattle.axiom_base.specs.Schemes.{plain, computed};
ghost use Rattle.egraph.specs.Graph.{IsGraph};
ghost use Rattle.pattern_match.specs.ByOperator.{AreTables};
ghost use Rattle.saturation.specs.Grown.{AreMet, IsQuiet};

use crate::rule_lists::Rules;
use axiom_base::{Calc, Rule};
use egraph::Egraph;
use items::NoMemory;
use pattern_match::{RowTables, find_calc_unmet, find_unmet, folds, matches_have_sorts};
use std::alloc::Global;
use word_ops::{Op, operators_are_listed};

/// Whether no match is unmet, of the rules of every text and of those that join them. The search ends with the first
/// unmet match.
pub(crate) fn is_quiet(alloc: Global, graph: &Egraph<Op>, rules: &Rules) -> Result<bool, NoMemory>
    requires graph { IsGraph op_signature graph.now }
    ensures { IfOk result (λ quiet. IsTrue quiet ↔ IsQuiet rules.now graph.now) }
{
    let tables = RowTables::new(alloc, graph)?;
    is_quiet_by(alloc, graph, &tables, rules)
}

fn is_quiet_by(
    alloc: Global,
    graph: &Egraph<Op>,
    tables: &RowTables,
    rules: &Rules,
) -> Result<bool, NoMemory>
    requires graph { IsGraph op_signature graph.now }
    requires tables { AreTables graph.now tables.now }
    ensures { IfOk result (λ quiet. IsTrue quiet ↔ IsQuiet rules.now graph.now) }
{
    operators_are_listed();
    matches_have_sorts();
    if !are_met(alloc, graph, tables, rules.equations())? {
        return Ok(false);
    }
    if !are_met(alloc, graph, tables, rules.axioms())? {
        return Ok(false);
    }
    if !are_kinds_met(alloc, graph, tables, rules.kinds())? {
        return Ok(false);
    }
    let found = folds(alloc, graph)?;
    Ok(found.len() == 0)
}

fn are_met(
    alloc: Global,
    graph: &Egraph<Op>,
    tables: &RowTables,
    rules: &[Rule],
) -> Result<bool, NoMemory>
    requires graph { IsGraph op_signature graph.now }
    requires tables { AreTables graph.now tables.now }
    ensures { IfOk result (λ met. IsTrue met ↔ AreMet graph.now (map plain rules.now)) }
{
    for rule in rules {
        let found = find_unmet(alloc, graph, tables, rule, 0)?;
        if found.len() > 0 {
            return Ok(false);
        }
    }
    Ok(true)
}

fn are_kinds_met(
    alloc: Global,
    graph: &Egraph<Op>,
    tables: &RowTables,
    kinds: &[Calc],
) -> Result<bool, NoMemory>
    requires graph { IsGraph op_signature graph.now }
    requires tables { AreTables graph.now tables.now }
    ensures { IfOk result (λ met. IsTrue met ↔ AreMet graph.now (map computed kinds.now)) }
{
    for kind in kinds {
        let found = find_calc_unmet(alloc, graph, tables, *kind)?;
        if found.len() > 0 {
            return Ok(false);
        }
    }
    Ok(true)
}
