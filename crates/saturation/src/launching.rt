// The launch graph of a goal.
ghost use Rattle.std.specs.Prelude.{◌≡◌, ℕ, ◌<◌, ◌≤◌, [], map, length, Contains, IfOk, IfSome, All};
ghost use Rattle.std.specs.List.{AllZip};
ghost use Rattle.word_terms.specs.View.{tree_of};
ghost use Rattle.word_terms.specs.Keys.{op_signature};
ghost use Rattle.word_terms.specs.Tree.{Tree, application, none};
ghost use Rattle.egraph.specs.Graph.{HasClass, IsGraph};
ghost use Rattle.pattern_match.specs.Classes.{CanFindClass, IsClass};
ghost use Rattle.goal_meaning.specs.Expanded.{let_terms};
ghost use Rattle.goal_meaning.specs.Views.{goal_view, input_view};
ghost use Rattle.goal_meaning.specs.WellFormed.{IsInput};
ghost use Rattle.goal_meaning.specs.declared.goals.InputReg.{InputReg as InputOf};
ghost use Rattle.goal_meaning.specs.declared.goals.Set.{Set as SetOf};
ghost use Rattle.saturation.specs.GoalTerms.{input_term};
ghost use Rattle.saturation.specs.Launched.{CanMakeLaunchGraph, IsKnown, IsLaunched, KeepsGrown, KeepsStop};
ghost use Rattle.saturation.specs.Numbered.{AreClassNumbers, IsGuardNumber, IsInputNumber, IsClassNumber, IsSetNumber, launched_name, launched_row};
ghost use Rattle.saturation.specs.StandsFor.{graph_view};

use crate::lets::{let_classes, lets_read_memory, reads_memory};
use crate::numbering::{class_numbers, op_of_place, used_operators};
use crate::rounds::Saturated;
use axiom_base::schemes_are_true;
use egraph::{Egraph, Row};
use goal_meaning::{DeclaredOp, Goal, Input, InputReg, Set, expanded_terms_are_sorted};
use graph_meaning::{
    Guard, InputClass, LaunchGraph, LaunchRow, SetClass, graphs_are_consistent, known_multiples,
};
use items::{Items, NoMemory};
use pattern_match::class_of_pattern;
use std::alloc::Global;
use text_core::Name;
use word_ops::Op;
use word_terms::Term;

/// The launch graph made from the graph of a goal after its rounds. All rows are kept in their order; classes and
/// declared operators are numbered from 0 in the order of their first rows. Each operator of a term of the goal costs a
/// look-up, and a let's operators count once.
pub fn to_launch(
    alloc: Global,
    saturated: &Saturated,
    goal: &Goal,
    input: &Input,
) -> Result<LaunchGraph, NoMemory>
    requires input { IsInput (input_view input.now) }
    requires goal { Contains (input_view input.now).goals (goal_view goal.now) }
    requires can { CanMakeLaunchGraph input.now.ops (goal_view goal.now) saturated.now.graph }
    ensures launched { IfOk result (IsLaunched input.now.ops (goal_view goal.now) saturated.now.graph) }
    ensures grown { IfOk result (λ g. KeepsGrown saturated.now.graph (graph_view input.now.ops g)) }
    ensures stops { IfOk result (λ g. KeepsStop saturated.now.graph (graph_view input.now.ops g)) }
{
    schemes_are_true();
    expanded_terms_are_sorted();
    graphs_are_consistent();
    let graph = &saturated.graph;
    let numbers = class_numbers(alloc, graph)?;
    let used = used_operators(alloc, graph)?;
    let rows = launch_rows(alloc, graph, &numbers, &used, input.ops.as_slice())?;
    let lets = let_classes(alloc, graph, goal.lets.as_slice())?;
    let multiples = known_multiples(alloc, rows.as_slice())?;
    Ok(LaunchGraph {
        rows: Items::from(rows),
        multiples,
        entry: leaf_number(graph, &numbers, Op::Entry),
        inputs: Items::from(launch_inputs(alloc, graph, &numbers, goal.inputs.as_slice())?),
        pool: Items::from_slice(alloc, goal.pool.as_slice())?,
        guard: launch_guard(alloc, graph, &numbers, goal, &lets)?,
        sets: Items::from(launch_sets(alloc, graph, &numbers, goal.sets.as_slice(), &lets)?),
    })
}

// The rows of the graph, in their order.
fn launch_rows(
    alloc: Global,
    graph: &Egraph<Op>,
    numbers: &[u32],
    used: &[u8],
    declared: &[DeclaredOp],
) -> Result<Vec<LaunchRow>, NoMemory>
    requires graph { IsGraph op_signature graph.now }
    requires numbers { AreClassNumbers graph.now numbers.now }
    requires used { length used.now ≤ 16 }
    requires operators { All (λ r. IsKnown declared.now r.op) graph.now.rows }
    ensures rows { IfOk result (λ rows.
        rows.items ≡ map (launched_row numbers.now used.now declared.now) graph.now.rows) }
{
    let mut rows = Vec::new(alloc);
    for at in 0..graph.rows() {
        rows.push(launch_row(alloc, graph.row(at), numbers, used, declared)?)?;
    }
    Ok(rows)
}

fn launch_row(
    alloc: Global,
    row: &Row<Op>,
    numbers: &[u32],
    used: &[u8],
    declared: &[DeclaredOp],
) -> Result<LaunchRow, NoMemory>
    requires class { row.now.class < length numbers.now }
    requires operands { All (λ c. c < length numbers.now) row.now.operands }
    requires used { length used.now ≤ 16 }
    requires operator { IsKnown declared.now row.now.op }
    ensures { IfOk result (λ launched. launched ≡ launched_row numbers.now used.now declared.now row.now) }
{
    let mut operands = Vec::new(alloc);
    for class in row.operands.as_slice() {
        operands.push(numbers[*class as usize])?;
    }
    Ok(LaunchRow {
        class: numbers[row.class as usize],
        op: op_of_place(used, row.op),
        name: name_of(alloc, row.op, declared)?,
        operands: Items::from(operands),
    })
}

fn name_of(alloc: Global, op: Op, declared: &[DeclaredOp]) -> Result<Name, NoMemory>
    requires { IsKnown declared.now op }
    ensures { IfOk result (λ name. name ≡ launched_name declared.now op) }
{
    match op {
        Op::Declared { index, .. } => declared[index as usize].name.copy(),
        _ => Name::new(alloc, &[]),
    }
}

// The number of the class of an operator that takes nothing.
fn leaf_number(graph: &Egraph<Op>, numbers: &[u32], op: Op) -> u32
    requires graph { IsGraph op_signature graph.now }
    requires numbers { AreClassNumbers graph.now numbers.now }
    requires there { (c : ℕ) × IsClass graph.now [] (application op none) c }
    ensures { IsClassNumber graph.now [] numbers.now (application op none) result }
{
    numbers[graph.class_of(op, &[]).unwrap() as usize]
}

// The number of the class of a term, where the lets have these classes.
fn term_number(
    alloc: Global,
    graph: &Egraph<Op>,
    numbers: &[u32],
    term: &Term<Op>,
    lets: &[u32],
) -> Result<u32, NoMemory>
    requires can { CanFindClass graph.now lets.now (tree_of term.now) }
    requires numbers { AreClassNumbers graph.now numbers.now }
    requires there { (c : ℕ) × IsClass graph.now lets.now (tree_of term.now) c }
    ensures { IfOk result (IsClassNumber graph.now lets.now numbers.now (tree_of term.now)) }
{
    let class = class_of_pattern(alloc, graph, term, lets)?.unwrap();
    Ok(numbers[class as usize])
}

fn launch_inputs(
    alloc: Global,
    graph: &Egraph<Op>,
    numbers: &[u32],
    inputs: &[InputReg],
) -> Result<Vec<InputClass>, NoMemory>
    requires graph { IsGraph op_signature graph.now }
    requires numbers { AreClassNumbers graph.now numbers.now }
    requires there { All (λ (i : InputOf). (c : ℕ) × IsClass graph.now [] (input_term i.reg) c) inputs.now }
    ensures { IfOk result (λ classes. AllZip (IsInputNumber graph.now numbers.now) classes.items inputs.now) }
{
    let mut classes = Vec::new(alloc);
    for input in inputs {
        classes.push(InputClass {
            name: input.name.copy()?,
            reg: input.reg,
            class: leaf_number(graph, numbers, Op::Input(input.reg)),
        })?;
    }
    Ok(classes)
}

fn launch_sets(
    alloc: Global,
    graph: &Egraph<Op>,
    numbers: &[u32],
    sets: &[Set],
    lets: &[u32],
) -> Result<Vec<SetClass>, NoMemory>
    requires numbers { AreClassNumbers graph.now numbers.now }
    requires can { All (λ (s : SetOf). CanFindClass graph.now lets.now (tree_of s.value)) sets.now }
    requires there { All (λ (s : SetOf). (c : ℕ) × IsClass graph.now lets.now (tree_of s.value) c) sets.now }
    ensures { IfOk result (λ classes. AllZip (IsSetNumber graph.now lets.now numbers.now) classes.items sets.now) }
{
    let mut classes = Vec::new(alloc);
    for set in sets {
        classes.push(SetClass {
            name: set.name.copy()?,
            class: term_number(alloc, graph, numbers, &set.value, lets)?,
            pin: set.pin,
        })?;
    }
    Ok(classes)
}

fn launch_guard(
    alloc: Global,
    graph: &Egraph<Op>,
    numbers: &[u32],
    goal: &Goal,
    lets: &[u32],
) -> Result<Option<Guard>, NoMemory>
    requires numbers { AreClassNumbers graph.now numbers.now }
    requires can { IfSome goal.now.guard (λ t. CanFindClass graph.now lets.now (tree_of t)) }
    requires there { IfSome goal.now.guard (λ t. (c : ℕ) × IsClass graph.now lets.now (tree_of t) c) }
    ensures { IfOk result (λ launched.
        IsGuardNumber graph.now lets.now (let_terms (goal_view goal.now)) numbers.now launched goal.now.guard) }
{
    match &goal.guard {
        Some(term) => Ok(Some(Guard {
            class: term_number(alloc, graph, numbers, term, lets)?,
            held: !reads_memory(term, &lets_read_memory(alloc, goal.lets.as_slice())?),
        })),
        None => Ok(None),
    }
}
