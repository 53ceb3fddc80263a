// Matches of computed rules.
ghost use Rattle.std.specs.Prelude.{◌≡◌, ℕ, ◌^◌, ◌-◌, min, map, All, IfOk, MatchOption};
ghost use Rattle.word_terms.specs.Keys.{op_signature};
ghost use Rattle.axiom_base.specs.Computed as sides;
ghost use Rattle.axiom_base.specs.Schemes.{computed};
ghost use Rattle.axiom_base.specs.declared.kinds.Given.{Given as Constants};
ghost use Rattle.egraph.specs.Graph.{IsGraph};
ghost use Rattle.pattern_match.specs.Bindings.{AreMatches, IsSubstitution, IsUnmetGiven};
ghost use Rattle.pattern_match.specs.ByOperator.{AreTables};
ghost use Rattle.pattern_match.specs.Listing.{Lists};
ghost use Rattle.pattern_match.specs.Matches.{IsMatchOf, IsUnmetOf, IsUnmetCalc, IsNeed, CanGive, AreGiven, variables_of};
ghost use Rattle.pattern_match.specs.Found.{classes_in};

use crate::constants::constants_at;
use crate::found::Match;
use crate::plain::operators;
use crate::reading::has_class;
use crate::row_lists::RowTables;
use crate::searching::substitutions;
use axiom_base::{
    Calc, Given, calc, calc_left, calc_right, computed_rules_are_true, constants,
    constants_are_numbered, first_constant,
};
use egraph::Egraph;
use items::{Items, NoMemory};
use std::alloc::Global;
use word_ops::Op;

/// The matches of the kind's rules, each once, in no stated order: those matches of the left side in which the classes
/// of c and d have constants that meet the condition.
pub fn calc_matches(alloc: Global, graph: &Egraph<Op>, kind: Calc) -> Result<Items<Match>, NoMemory>
    ensures exact { IfOk result (λ found. Lists (IsMatchOf graph.now (computed kind)) (map classes_in found)) }
{
    computed_rules_are_true();
    constants_are_numbered();
    let tables = RowTables::new(alloc, graph)?;
    let matched = calc_substitutions(alloc, graph, &tables, kind)?;
    let mut found = Vec::new(alloc);
    for one in &matched {
        let given = calc_given(alloc, graph, kind, one.classes.as_slice())?;
        if given.is_some() {
            found.push(one.with(alloc, given)?)?;
        }
    }
    Ok(Items::from(found))
}

/// The matches under which the right side has no class, or another class than the left side.
pub fn calc_unmet(alloc: Global, graph: &Egraph<Op>, kind: Calc) -> Result<Items<Match>, NoMemory>
    ensures exact { IfOk result (λ found. Lists (IsUnmetOf graph.now (computed kind)) (map classes_in found)) }
{
    let tables = RowTables::new(alloc, graph)?;
    find_calc_unmet(alloc, graph, &tables, kind)
}

/// The same, found with tables of the graph's rows that serve for all rules.
pub fn find_calc_unmet(
    alloc: Global,
    graph: &Egraph<Op>,
    tables: &RowTables,
    kind: Calc,
) -> Result<Items<Match>, NoMemory>
    requires graph { IsGraph op_signature graph.now }
    requires tables { AreTables graph.now tables.now }
    ensures exact { IfOk result (λ found. Lists (IsUnmetOf graph.now (computed kind)) (map classes_in found)) }
    ensures each { IfOk result (All (IsUnmetCalc graph.now kind)) }
{
    computed_rules_are_true();
    constants_are_numbered();
    let matched = calc_substitutions(alloc, graph, tables, kind)?;
    let mut found = Vec::new(alloc);
    for one in &matched {
        let given = unmet_given(alloc, graph, kind, one)?;
        if given.is_some() {
            found.push(one.with(alloc, given)?)?;
        }
    }
    Ok(Items::from(found))
}

// The lists of classes under which the left side of the kind's rules has a class of the graph.
fn calc_substitutions(
    alloc: Global,
    graph: &Egraph<Op>,
    tables: &RowTables,
    kind: Calc,
) -> Result<Vec<Match>, NoMemory>
    requires graph { IsGraph op_signature graph.now }
    requires tables { AreTables graph.now tables.now }
    ensures { IfOk result (λ found. AreMatches graph.now (sides.calc_left kind)
        (IsSubstitution graph.now (sides.calc_left kind) (variables_of kind)) found.items) }
{
    computed_rules_are_true();
    let left = calc_left(alloc, kind)?;
    let count = first_constant(kind) + constants(kind);
    substitutions(alloc, graph, tables, &left, count)
}

/// The rows that the unmet matches may add: their number times the operators of the right side, where a constant counts
/// as one and a variable as none; 2 ^ 64 - 1 if that is less.
pub fn calc_need(alloc: Global, graph: &Egraph<Op>, kind: Calc) -> Result<u64, NoMemory>
    ensures exact { IfOk result (λ need.
        (n : ℕ) × IsNeed graph.now (computed kind) n × (need ≡ min n (2 ^ 64 - 1))) }
{
    let found = calc_unmet(alloc, graph, kind)?;
    let right = calc_right(alloc, kind, Given { e: 0, f: 0 })?;
    Ok((found.len() as u64).saturating_mul(operators(&right)))
}

// The constants that those of the classes of c and d give, or `None` where one of these classes has no constant or they
// don't meet the condition.
fn calc_given(
    alloc: Global,
    graph: &Egraph<Op>,
    kind: Calc,
    classes: &[u32],
) -> Result<Option<Given>, NoMemory>
    requires { CanGive graph.now kind classes.now }
    ensures { IfOk result (λ found. MatchOption found
        ((given : Constants) → ¬ AreGiven graph.now kind classes.now given)
        (AreGiven graph.now kind classes.now)) }
{
    let Some(words) = constants_at(alloc, graph, &classes[first_constant(kind)..])? else {
        return Ok(None);
    };
    Ok(calc(kind, &words))
}

// The constants of a match, where the right side that they make isn't in the class of the left side.
fn unmet_given(
    alloc: Global,
    graph: &Egraph<Op>,
    kind: Calc,
    one: &Match,
) -> Result<Option<Given>, NoMemory>
    requires can { CanGive graph.now kind one.now.classes }
    ensures { IfOk result (λ found. MatchOption found
        ((given : Constants) → ¬ IsUnmetGiven graph.now kind one.now given)
        (IsUnmetGiven graph.now kind one.now)) }
{
    computed_rules_are_true();
    let classes = one.classes.as_slice();
    let Some(given) = calc_given(alloc, graph, kind, classes)? else {
        return Ok(None);
    };
    let right = calc_right(alloc, kind, given)?;
    if has_class(alloc, graph, &right, classes, one.class)? {
        Ok(None)
    } else {
        Ok(Some(given))
    }
}
