// Whether rounds end with a graph, and what the next one asks for where they go on.
ghost use Rattle.std.specs.Prelude.{◌≡◌, ◌≢◌, ◌≤◌, ◌+◌, MatchOption, IfOk};
ghost use Rattle.word_terms.specs.Keys.{op_signature};
ghost use Rattle.egraph.specs.Graph.{IsGraph};
ghost use Rattle.saturation.specs.Asking.{StopFits};
ghost use Rattle.saturation.specs.Steps.{StepFits};

use crate::asking::ask;
use crate::instance::Instance;
use crate::quiet::is_quiet;
use crate::rule_lists::Rules;
use crate::searching::search;
use axiom_base::schemes_are_true;
use egraph::Egraph;
use graph_meaning::Stop;
use items::NoMemory;
use pattern_match::matches_have_sorts;
use std::alloc::Global;
use word_ops::{Op, operators_are_listed};

/// What is done with a graph after some rounds.
#[derive(Drop)]
pub(crate) enum Step {
    /// The rounds end.
    End(Stop),
    /// Another round is made, which applies all of these.
    Round(Vec<Instance>),
}

/// Whether rounds end with the graph, or what the next round asks for. If `last` is true, no further round was asked
/// for.
pub(crate) fn decide(
    alloc: Global,
    graph: &Egraph<Op>,
    rules: &Rules,
    last: bool,
    nodes: u32,
) -> Result<Step, NoMemory>
    requires graph { IsGraph op_signature graph.now }
    requires nodes { nodes ≤ 4096 }
    ensures step { IfOk result (StepFits rules.now graph.now last nodes) }
{
    schemes_are_true();
    operators_are_listed();
    matches_have_sorts();
    if last {
        if is_quiet(alloc, graph, rules)? {
            return Ok(Step::End(Stop::Quiet));
        }
        return Ok(Step::End(Stop::Rounds));
    }
    let Some(unmet) = search(alloc, graph, rules, nodes)? else {
        return Ok(Step::End(Stop::Full));
    };
    let asked = ask(alloc, rules, &unmet)?;
    match stop_of(asked.len(), unmet.need, graph.rows(), nodes) {
        Some(stop) => Ok(Step::End(stop)),
        None => Ok(Step::Round(asked)),
    }
}

/// Why the rounds end before another that was asked for, if they do.
fn stop_of(asked: usize, need: u64, rows: u32, nodes: u32) -> Option<Stop>
    ensures { MatchOption result
        ((asked ≢ 0) × (rows + need ≤ nodes))
        (λ stop. StopFits asked need rows nodes stop) }
{
    if asked == 0 {
        Some(Stop::Quiet)
    } else if need > u64::from(nodes) || u64::from(rows) + need > u64::from(nodes) {
        Some(Stop::Full)
    } else {
        None
    }
}
