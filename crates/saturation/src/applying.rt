// A round's changes of the graph.
ghost use Rattle.std.specs.Prelude.{map, IfOk, IfErr};
ghost use Rattle.word_terms.specs.View.{tree_of};
ghost use Rattle.egraph.specs.Faults.{NamesLowClass};
ghost use Rattle.saturation.specs.Trace.{IsBuilt, IsApplied, AreAllApplied, CanBuild, CanApply, CanApplyAll};
ghost use Rattle.saturation.specs.Instances.{asked_of, RefusalIs, RefusalOfAll};

use crate::instance::Instance;
use egraph::{Egraph, MergeFault};
use items::NoMemory;
use std::alloc::Global;
use word_ops::Op;
use word_terms::Term;

/// Inserts the term's applications, operands first, and gives its class.
pub(crate) fn build(
    alloc: Global,
    graph: &mut Egraph<Op>,
    term: &Term<Op>,
    places: &[u32],
) -> Result<u32, NoMemory>
    requires can { CanBuild graph.old places.now (tree_of term.now) }
    ensures built { IfOk result (λ class. IsBuilt places.now (tree_of term.now) graph.old class graph.new) }
{
    match term {
        Term::Var(n) => Ok(places[*n as usize]),
        Term::App(op, operands) => {
            let mut classes = Vec::new(alloc);
            for operand in operands {
                let class = build(alloc, graph, operand, places)?;
                classes.push(class)?;
            }
            graph.insert(*op, &classes)
        }
    }
}

/// Builds the right side and merges it with its class.
fn apply(alloc: Global, graph: Egraph<Op>, one: &Instance) -> Result<Egraph<Op>, MergeFault>
    requires can { CanApply graph (asked_of one.now) }
    ensures made { IfOk result (IsApplied (asked_of one.now) graph) }
    ensures fault { IfErr result (RefusalIs (asked_of one.now) graph) }
    ensures low { IfErr result NamesLowClass }
{
    let mut graph = graph;
    match build(alloc, &mut graph, &one.right, one.places.as_slice()) {
        Ok(class) => graph.merge(class, one.class),
        Err(_) => Err(MergeFault::Memory),
    }
}

/// Applies all that is asked, in order.
pub(crate) fn apply_all(
    alloc: Global,
    graph: Egraph<Op>,
    asked: &[Instance],
) -> Result<Egraph<Op>, MergeFault>
    requires can { CanApplyAll graph (map asked_of asked.now) }
    ensures made { IfOk result (AreAllApplied (map asked_of asked.now) graph) }
    ensures fault { IfErr result (RefusalOfAll (map asked_of asked.now) graph) }
    ensures low { IfErr result NamesLowClass }
{
    let mut graph = graph;
    for one in asked {
        graph = apply(alloc, graph, one)?;
    }
    Ok(graph)
}
