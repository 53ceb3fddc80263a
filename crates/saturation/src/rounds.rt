// Rounds of matching, and when they end.
ghost use Rattle.std.specs.Prelude.{◌≡◌, ◌≤◌, ◌<◌, ◌^◌, length, max, IfOk, IfErr};
ghost use Rattle.saturation.specs.Rounds.{IsSaturated, KeepsClasses, KeepsStanding, SaturateFaultIs, IsHopeless, RoundsNameLowClass};

use crate::applying::apply_all;
use crate::faults::SaturateFault;
use crate::rule_lists::Rules;
use crate::stepping::{Step, decide};
use axiom_base::{computed_rules_are_true, constants_are_numbered, schemes_are_true};
use egraph::{Egraph, MergeFault};
use graph_meaning::Stop;
use items::NoMemory;
use std::alloc::Global;
use word_ops::{Op, meanings_are_in_range};

/// A graph after rounds of matching.
#[derive(Drop)]
pub struct Saturated {
    pub graph: Egraph<Op>,
    pub rounds: u32,
    pub stop: Stop,
}

/// Rounds of matching, until no match is unmet, the rounds asked for are done, or another might pass the limit on rows.
/// Each round finds all unmet matches, and then makes the right side of each. A round costs some look-ups for each row
/// and each match.
pub fn saturate(
    alloc: Global,
    graph: Egraph<Op>,
    rules: &Rules,
    rounds: u32,
    nodes: u32,
) -> Result<Saturated, SaturateFault>
    requires rounds { rounds ≤ 16 }
    requires nodes { nodes ≤ 4096 }
    requires few { length graph.current < 2 ^ 30 }
    ensures saturated { IfOk result (λ s. IsSaturated rules.now graph rounds nodes s.graph s.rounds s.stop) }
    ensures rounds { IfOk result (λ s. s.rounds ≤ rounds) }
    ensures stands { IfOk result (λ s. KeepsStanding rules.now graph s.graph) }
    ensures classes { IfOk result (λ s. KeepsClasses graph s.graph) }
    ensures few { IfOk result (λ s. length s.graph.rows ≤ max (length graph.rows) nodes) }
    ensures fault { IfErr result (SaturateFaultIs rules.now graph rounds nodes) }
    ensures hopeless { IfErr result (IsHopeless rules.now graph) }
    ensures low { IfErr result RoundsNameLowClass }
{
    schemes_are_true();
    constants_are_numbered();
    computed_rules_are_true();
    meanings_are_in_range();
    let mut graph = graph;
    let mut done = 0;
    loop {
        // A graph keeps its invariant, which is known here once one of its methods was called.
        let _made = graph.made();
        match decide(alloc, &graph, rules, done == rounds, nodes)? {
            Step::End(stop) => {
                return Ok(Saturated {
                    graph,
                    rounds: done,
                    stop,
                });
            }
            Step::Round(asked) => {
                graph = apply_all(alloc, graph, &asked)?;
                done += 1;
            }
        }
    }
}
