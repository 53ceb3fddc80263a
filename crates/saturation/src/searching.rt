// The search for unmet matches before a round.
ghost use Rattle.std.specs.Prelude.{◌≡◌, ◌<◌, ◌*◌, ◌-◌, ◌^◌, ℕ, map, min, All, IfOk, MatchOption};
ghost use Rattle.std.specs.List.{AllZip};
ghost use Rattle.word_terms.specs.Keys.{op_signature};
ghost use Rattle.axiom_base.specs.Rewrites.{IsRule};
ghost use Rattle.axiom_base.specs.Schemes.{plain};
ghost use Rattle.egraph.specs.Graph.{IsGraph};
ghost use Rattle.pattern_match.specs.ByOperator.{AreTables};
ghost use Rattle.saturation.specs.Asking.{AreFound, AreUnmetOf, AreUnmetOfKind, NeedMoreThan, RuleNeedsMore, asked_of_all};
ghost use Rattle.saturation.specs.Steps.{IsOver};
ghost use Rattle.saturation.specs.Trace.{operators_asked};

use crate::needing::{with_kinds, with_matches, with_rules};
use crate::rule_lists::Rules;
use axiom_base::{Calc, Rule, schemes_are_true};
use egraph::Egraph;
use items::{Items, NoMemory};
use pattern_match::{
    Fold, Match, RowTables, find_calc_unmet, find_unmet, folds, matches_have_sorts, operators,
};
use std::alloc::Global;
use word_ops::{Op, operators_are_listed};

/// The unmet matches of each rule: of the equations, of the axioms, of the computed rules by their kinds, and of
/// folding.
#[derive(Drop)]
pub struct Unmet {
    pub equations: Vec<Items<Match>>,
    pub axioms: Vec<Items<Match>>,
    pub kinds: Vec<Items<Match>>,
    pub folds: Items<Fold>,
    /// The operators of the right sides of all of them, or 2 ^ 64 - 1 if that is less.
    pub need: u64,
}

/// The unmet matches of all rules, or `None` where the rows, with what the matches need, pass the limit. The graph's
/// rows are put into tables once, and the search ends with the first match that passes the limit.
pub(crate) fn search(
    alloc: Global,
    graph: &Egraph<Op>,
    rules: &Rules,
    nodes: u32,
) -> Result<Option<Unmet>, NoMemory>
    requires graph { IsGraph op_signature graph.now }
    ensures found { IfOk result (λ found. MatchOption found
        (IsOver rules.now graph.now nodes)
        (λ unmet. AreFound graph.now rules.now unmet × All IsRule rules.now.axioms
        × (unmet.need ≡ min (operators_asked (asked_of_all rules.now unmet)) (2 ^ 64 - 1)))) }
{
    schemes_are_true();
    operators_are_listed();
    matches_have_sorts();
    let tables = RowTables::new(alloc, graph)?;
    let folds = folds(alloc, graph)?;
    let kinds = rules.kinds();
    let by_kind = search_kinds(alloc, graph, &tables, kinds)?;
    let before = with_kinds(alloc, folds.len() as u64, kinds, &by_kind)?;
    let room = u64::from(nodes).saturating_sub(u64::from(graph.rows()));
    if before > room {
        return Ok(None);
    }
    let equations = rules.equations();
    let Some(by_equation) = search_rules(alloc, graph, &tables, equations, room - before)? else {
        return Ok(None);
    };
    let so_far = with_rules(before, equations, &by_equation);
    let left = room.saturating_sub(so_far);
    let axioms = rules.axioms();
    let Some(by_axiom) = search_rules(alloc, graph, &tables, axioms, left)? else {
        return Ok(None);
    };
    let need = with_rules(so_far, axioms, &by_axiom);
    Ok(Some(Unmet {
        equations: by_equation,
        axioms: by_axiom,
        kinds: by_kind,
        folds,
        need,
    }))
}

// The unmet matches of each rule, or `None` where they need more than there is room for.
fn search_rules(
    alloc: Global,
    graph: &Egraph<Op>,
    tables: &RowTables,
    rules: &[Rule],
    room: u64,
) -> Result<Option<Vec<Items<Match>>>, NoMemory>
    requires graph { IsGraph op_signature graph.now }
    requires tables { AreTables graph.now tables.now }
    ensures found { IfOk result (λ found. MatchOption found
        (NeedMoreThan graph.now (map plain rules.now) room)
        (λ found. AllZip (AreUnmetOf graph.now) rules.now found.items × All IsRule rules.now)) }
{
    let mut found = Vec::new(alloc);
    let mut need = 0;
    for rule in rules {
        let left = room.saturating_sub(need);
        let Some(unmet) = search_rule(alloc, graph, tables, rule, left)? else {
            return Ok(None);
        };
        need = with_matches(need, unmet.len(), operators(rule.right()));
        found.push(unmet)?;
    }
    Ok(Some(found))
}

// The unmet matches of the rule, or `None` where they need more than there is room for.
fn search_rule(
    alloc: Global,
    graph: &Egraph<Op>,
    tables: &RowTables,
    rule: &Rule,
    room: u64,
) -> Result<Option<Items<Match>>, NoMemory>
    requires graph { IsGraph op_signature graph.now }
    requires tables { AreTables graph.now tables.now }
    ensures found { IfOk result (λ found. MatchOption found
        (RuleNeedsMore graph.now rule.now room)
        (AreUnmetOf graph.now rule.now)) }
    ensures rule { IsRule rule.now }
{
    // A rule keeps its invariant, which is known here once one of its methods was called.
    let _variables = rule.variables();
    let most = most_within(room, operators(rule.right()));
    let found = find_unmet(alloc, graph, tables, rule, most)?;
    if found.len() > most {
        Ok(None)
    } else {
        Ok(Some(found))
    }
}

// The number of matches that there is room for, where each needs `weight` rows.
fn most_within(room: u64, weight: u64) -> usize
    ensures { (count : ℕ) → count < 2 ^ 64 → result < count → room < count * weight }
{
    if weight == 0 {
        usize::MAX
    } else {
        (room / weight) as usize
    }
}

fn search_kinds(
    alloc: Global,
    graph: &Egraph<Op>,
    tables: &RowTables,
    kinds: &[Calc],
) -> Result<Vec<Items<Match>>, NoMemory>
    requires graph { IsGraph op_signature graph.now }
    requires tables { AreTables graph.now tables.now }
    ensures found { IfOk result (λ found. AllZip (AreUnmetOfKind graph.now) kinds.now found.items) }
{
    let mut found = Vec::new(alloc);
    for kind in kinds {
        found.push(find_calc_unmet(alloc, graph, tables, *kind)?)?;
    }
    Ok(found)
}
