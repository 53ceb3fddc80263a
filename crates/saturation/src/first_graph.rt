// The first graph of a goal.
ghost use Rattle.std.specs.Prelude.{[], ◌∷◌, ◌<◌, ◌≤◌, ◌≡◌, ◌^◌, List, length, map, All, IfOk, IfErr, OnOk, option_map};
ghost use Rattle.word_terms.specs.Keys.{op_signature};
ghost use Rattle.word_terms.specs.View.{tree_of};
ghost use Rattle.egraph.specs.Graph.{IsGraph, read_through};
ghost use Rattle.goal_meaning.specs.Expanded.{let_values};
ghost use Rattle.goal_meaning.specs.Views.{assume_view, goal_view, let_view, target_view};
ghost use Rattle.goal_meaning.specs.WellFormed.{IsGoal};
ghost use Rattle.goal_meaning.specs.declared.goals.DeclaredOp.{DeclaredOp};
ghost use Rattle.saturation.specs.AtStart.{IsStarted, IsGrownAtStart, StandsAtStart, StartFaultIs, IsHopelessAtStart, StartNamesLowClass, most_rows_at_start};
ghost use Rattle.saturation.specs.OverLets.{CanInsertAll, CanInsertGoal, CanInsertLets, CanAssume, CanAssumeAll, AreInsertedOver, AreLetsInserted, AreTermsInserted, AreAssumedOver, IsAssumeMadeOver, AssumeFaultIs, AssumeFaultOfAll, terms_over_lets};
ghost use Rattle.saturation.specs.GoalTerms.{input_terms, assume_terms, guard_terms, set_terms, assumed_pair};

use crate::applying::build;
use crate::faults::StartFault;
use egraph::Egraph;
use goal_meaning::{Assume, Goal, InputReg, Let, Set, expanded_terms_are_sorted};
use items::NoMemory;
use std::alloc::Global;
use word_ops::{Op, meanings_are_in_range};
use word_terms::{Term, application};

/// The graph of a goal before any round. It has the memory at entry, the inputs, the lets, both sides of each
/// assumption, the guard and the new values, inserted in this order, operands before their application; then the sides
/// of each assumption are made equal. A let is inserted once, and its name stands for its class.
pub fn start(alloc: Global, goal: &Goal) -> Result<Egraph<Op>, StartFault>
    requires goal { (declared : List DeclaredOp) × IsGoal declared (goal_view goal.now) }
    ensures started { IfOk result (IsStarted (goal_view goal.now)) }
    ensures grown { IfOk result (IsGrownAtStart (goal_view goal.now)) }
    ensures stands { IfOk result (StandsAtStart (goal_view goal.now)) }
    ensures graph { IfOk result (IsGraph op_signature) }
    ensures few { IfOk result (λ g. length g.current < 2 ^ 30) }
    ensures few_classes { IfOk result (λ g. length g.current ≤ most_rows_at_start (goal_view goal.now)) }
    ensures few_rows { IfOk result (λ g. length g.rows ≤ most_rows_at_start (goal_view goal.now)) }
    ensures fault { IfErr result (StartFaultIs (goal_view goal.now)) }
    ensures hopeless { IfErr result (IsHopelessAtStart (goal_view goal.now)) }
    ensures low { IfErr result StartNamesLowClass }
{
    meanings_are_in_range();
    expanded_terms_are_sorted();
    let mut graph = Egraph::new(alloc);
    let lets = insert_all(alloc, &mut graph, goal)?;
    assume_all(alloc, graph, goal.assumes.as_slice(), &lets)
}

// Inserts all terms, and gives the class of each let.
fn insert_all(alloc: Global, graph: &mut Egraph<Op>, goal: &Goal) -> Result<Vec<u32>, NoMemory>
    requires can { CanInsertGoal graph.old (goal_view goal.now) }
    ensures inserted { IfOk result (λ lets. AreTermsInserted (goal_view goal.now) graph.old lets.items graph.new) }
{
    insert_term(alloc, graph, &application(Op::Entry, Vec::new(alloc)), &[])?;
    insert_inputs(alloc, graph, goal.inputs.as_slice())?;
    let lets = insert_lets(alloc, graph, goal.lets.as_slice())?;
    insert_terms(alloc, graph, goal, &lets)?;
    Ok(lets)
}

fn insert_inputs(alloc: Global, graph: &mut Egraph<Op>, inputs: &[InputReg]) -> Result<(), NoMemory>
    requires can { CanInsertAll graph.old [] (input_terms inputs.now) }
    ensures inserted { OnOk result (AreInsertedOver [] (input_terms inputs.now) graph.old graph.new) }
{
    for input in inputs {
        insert_term(
            alloc,
            graph,
            &application(Op::Input(input.reg), Vec::new(alloc)),
            &[],
        )?;
    }
    Ok(())
}

// Inserts the lets in order, and gives their classes.
fn insert_lets(alloc: Global, graph: &mut Egraph<Op>, lets: &[Let]) -> Result<Vec<u32>, NoMemory>
    requires can { CanInsertLets graph.old (let_values (map let_view lets.now)) }
    ensures inserted { IfOk result (λ classes.
        AreLetsInserted [] (let_values (map let_view lets.now)) graph.old classes.items graph.new) }
{
    let mut classes = Vec::new(alloc);
    for one in lets {
        let class = build(alloc, graph, &one.value, &classes)?;
        classes.push(class)?;
    }
    Ok(classes)
}

// Inserts the terms in which lets may stand, where the lets have these classes.
fn insert_terms(
    alloc: Global,
    graph: &mut Egraph<Op>,
    goal: &Goal,
    lets: &[u32],
) -> Result<(), NoMemory>
    requires can { CanInsertAll graph.old lets.now (terms_over_lets (goal_view goal.now)) }
    ensures inserted { OnOk result
        (AreInsertedOver lets.now (terms_over_lets (goal_view goal.now)) graph.old graph.new) }
{
    insert_assumes(alloc, graph, goal.assumes.as_slice(), lets)?;
    insert_guard(alloc, graph, &goal.guard, lets)?;
    insert_sets(alloc, graph, goal.sets.as_slice(), lets)
}

fn insert_assumes(
    alloc: Global,
    graph: &mut Egraph<Op>,
    assumes: &[Assume],
    lets: &[u32],
) -> Result<(), NoMemory>
    requires can { CanInsertAll graph.old lets.now (assume_terms (map assume_view assumes.now)) }
    ensures inserted { OnOk result
        (AreInsertedOver lets.now (assume_terms (map assume_view assumes.now)) graph.old graph.new) }
{
    for assume in assumes {
        insert_term(alloc, graph, &assume.left, lets)?;
        insert_term(alloc, graph, &assume.right, lets)?;
    }
    Ok(())
}

fn insert_guard(
    alloc: Global,
    graph: &mut Egraph<Op>,
    guard: &Option<Term<Op>>,
    lets: &[u32],
) -> Result<(), NoMemory>
    requires can { CanInsertAll graph.old lets.now (guard_terms (option_map tree_of guard.now)) }
    ensures inserted { OnOk result
        (AreInsertedOver lets.now (guard_terms (option_map tree_of guard.now)) graph.old graph.new) }
{
    match guard {
        Some(guard) => insert_term(alloc, graph, guard, lets),
        None => Ok(()),
    }
}

fn insert_sets(
    alloc: Global,
    graph: &mut Egraph<Op>,
    sets: &[Set],
    lets: &[u32],
) -> Result<(), NoMemory>
    requires can { CanInsertAll graph.old lets.now (set_terms (map target_view sets.now)) }
    ensures inserted { OnOk result
        (AreInsertedOver lets.now (set_terms (map target_view sets.now)) graph.old graph.new) }
{
    for set in sets {
        insert_term(alloc, graph, &set.value, lets)?;
    }
    Ok(())
}

fn insert_term(
    alloc: Global,
    graph: &mut Egraph<Op>,
    term: &Term<Op>,
    lets: &[u32],
) -> Result<(), NoMemory>
    requires can { CanInsertAll graph.old lets.now (tree_of term.now ∷ []) }
    ensures inserted { OnOk result (AreInsertedOver lets.now (tree_of term.now ∷ []) graph.old graph.new) }
{
    build(alloc, graph, term, lets)?;
    Ok(())
}

fn assume_all(
    alloc: Global,
    graph: Egraph<Op>,
    assumes: &[Assume],
    lets: &[u32],
) -> Result<Egraph<Op>, StartFault>
    requires can { CanAssumeAll graph lets.now (map assume_view assumes.now) }
    ensures assumed { IfOk result (AreAssumedOver lets.now (map assumed_pair (map assume_view assumes.now)) graph) }
    ensures fault { IfErr result
        (AssumeFaultOfAll lets.now (map assumed_pair (map assume_view assumes.now)) graph) }
    ensures low { IfErr result StartNamesLowClass }
{
    let mut graph = graph;
    for assume in assumes {
        graph = assume_equal(alloc, graph, assume, lets)?;
    }
    Ok(graph)
}

// Earlier assumptions may have merged the classes of lets, so these are read anew.
fn assume_equal(
    alloc: Global,
    graph: Egraph<Op>,
    assume: &Assume,
    lets: &[u32],
) -> Result<Egraph<Op>, StartFault>
    requires can { CanAssume graph lets.now (assume_view assume.now) }
    ensures assumed { IfOk result (IsAssumeMadeOver lets.now (assumed_pair (assume_view assume.now)) graph) }
    ensures fault { IfErr result (AssumeFaultIs lets.now (assumed_pair (assume_view assume.now)) graph) }
    ensures low { IfErr result StartNamesLowClass }
{
    let mut graph = graph;
    let places = present_classes(alloc, &graph, lets)?;
    let left = build(alloc, &mut graph, &assume.left, &places)?;
    let right = build(alloc, &mut graph, &assume.right, &places)?;
    Ok(graph.merge(right, left)?)
}

// The classes that these are in at present.
fn present_classes(alloc: Global, graph: &Egraph<Op>, classes: &[u32]) -> Result<Vec<u32>, NoMemory>
    requires made { All (λ c. c < length graph.now.current) classes.now }
    ensures { IfOk result (λ found. found.items ≡ read_through graph.now classes.now) }
{
    let mut found = Vec::new(alloc);
    for class in classes {
        found.push(graph.now(*class))?;
    }
    Ok(found)
}
