// The graph of a lift's words.
ghost use Rattle.std.specs.Prelude.{◌≡◌, ◌<◌, ◌&&◌, not, All, filter, length, map, IfOk, IfSome};
ghost use Rattle.code_lift.specs.Lifted as lifts;
ghost use Rattle.code_lift.specs.LiftingView.{lifting_view};
ghost use Rattle.code_lift.specs.Views.{lift_view};
ghost use Rattle.code_lift.specs.WellFormed.{IsLift};
ghost use Rattle.goal_meaning.specs.Rules.{has_register};
ghost use Rattle.goal_meaning.specs.Views.{target_view};
ghost use Rattle.graph_meaning.specs.WellFormed.{IsLaunchGraph};
ghost use Rattle.own_graph.specs.Meaning.{IsTrueOf};
ghost use Rattle.own_graph.specs.Own as own_graphs;
ghost use Rattle.own_graph.specs.Own.{IsOwnGraph};
ghost use Rattle.own_graph.specs.OwnView.{AreGiven, own_view};
ghost use Rattle.own_graph.specs.Rows.{HasItsRow, class_of_part};
ghost use Rattle.own_graph.specs.declared.operands.Part.TheVariants.{Leaf};
ghost use Rattle.word_ops.specs.declared.sorts.Op.TheVariants.{Input};

use crate::multiples::place_multiples;
use crate::operands::Part;
use crate::rows::class_in;
use crate::stepping::{Own, memory_part};
use alpha_encode::{decode, words_and_instructions};
use alpha_machine::displacements_are_low_bits;
use code_lift::{Lift, Lifting, goal, goals_of_lifts_are_well_formed, lifted_goals_are_their_code};
use goal_meaning::{InputReg, Set};
use graph_meaning::{
    InputClass, LaunchGraph, LaunchRow, SetClass, graphs_are_consistent, known_multiples,
};
use items::{Items, NoMemory};
use std::alloc::Global;
use word_ops::{Op, meanings_are_in_range};

fn input_registers(alloc: Global, inputs: &[InputReg]) -> Result<Vec<u8>, NoMemory>
    ensures { IfOk result (λ registers. registers.items ≡ map (λ i. i.reg) inputs.now) }
{
    let mut registers = Vec::new(alloc);
    for input in inputs {
        registers.push(input.reg)?;
    }
    Ok(registers)
}

/// The class of a part of which each leaf has a row.
fn class_of(rows: &[LaunchRow], part: Part) -> u32
    requires { HasItsRow rows.now part }
    ensures { result ≡ class_of_part rows.now part }
{
    match part {
        Part::Class(class) => class,
        Part::Leaf(op) => class_in(rows, op, &[]).unwrap(),
    }
}

fn input_classes(
    alloc: Global,
    inputs: &[InputReg],
    rows: &[LaunchRow],
) -> Result<Items<InputClass>, NoMemory>
    requires { All (λ i. HasItsRow rows.now (Leaf (Input i.reg))) inputs.now }
    ensures { IfOk result (λ classes. classes ≡ map (own_graphs.own_input rows.now) inputs.now) }
{
    let mut classes = Items::new(alloc);
    for input in inputs {
        classes.push(InputClass {
            name: input.name.copy()?,
            reg: input.reg,
            class: class_of(rows, Part::Leaf(Op::Input(input.reg))),
        })?;
    }
    Ok(classes)
}

/// The part of a target: what its register has behind the words, or the memory.
fn target_part(lifting: &Lifting, own: &Own, pin: Option<u8>) -> Part
    requires low { IfSome pin (λ r. r < 32) }
    requires given { AreGiven (length own.now.values.items) (lifting_view lifting.now) }
    ensures { result ≡ own_graphs.target_part (lifting_view lifting.now) own.now.values.items pin }
{
    match pin {
        Some(register) => own.register_part(lifting, register),
        None => memory_part(&own.values, lifting.memory),
    }
}

fn set_classes(
    alloc: Global,
    sets: &[Set],
    lifting: &Lifting,
    own: &Own,
) -> Result<Items<SetClass>, NoMemory>
    requires low { All (λ s. IfSome s.pin (λ r. r < 32)) sets.now }
    requires given { AreGiven (length own.now.values.items) (lifting_view lifting.now) }
    requires rows { All (λ s. HasItsRow own.now.rows.items
        (own_graphs.target_part (lifting_view lifting.now) own.now.values.items s.pin)) sets.now }
    ensures { IfOk result (λ classes. classes
        ≡ map (λ s. own_graphs.own_set (lifting_view lifting.now) (own_view own.now) (target_view s)) sets.now) }
{
    let mut classes = Items::new(alloc);
    for set in sets {
        classes.push(SetClass {
            name: set.name.copy()?,
            class: class_of(&own.rows, target_part(lifting, own, set.pin)),
            pin: set.pin,
        })?;
    }
    Ok(classes)
}

fn is_pin(sets: &[Set], register: u8) -> bool
    ensures { result ≡ own_graphs.is_pin (map target_view sets.now) register }
{
    for set in sets {
        if set.pin == Some(register) {
            return true;
        }
    }
    false
}

/// Whether the register is neither an input's nor a pin.
fn is_free(inputs: &[u8], sets: &[Set], register: u8) -> bool
    ensures { result ≡ (not (has_register inputs.now register)
        && not (own_graphs.is_pin (map target_view sets.now) register)) }
{
    !inputs.contains(&register) && !is_pin(sets, register)
}

/// All registers below 31 but those of inputs and pins.
fn pool(alloc: Global, inputs: &[u8], sets: &[Set]) -> Result<Items<u8>, NoMemory>
    ensures { IfOk result (λ pool. pool ≡ filter
        (λ r. not (has_register inputs.now r) && not (own_graphs.is_pin (map target_view sets.now) r))
        (lifts.first_numbers 31)) }
{
    let mut pool = Items::new(alloc);
    for register in 0..31u8 {
        if is_free(inputs, sets, register) {
            pool.push(register)?;
        }
    }
    Ok(pool)
}

/// What is known behind the words of a lift, and their rows behind those of its inputs.
fn run(alloc: Global, lift: &Lift, inputs: &[u8]) -> Result<(Lifting, Own), NoMemory>
    requires lift { IsLift (lift_view lift.now) }
    requires inputs { inputs.now ≡ lifts.inputs_read (lifts.lifted lift.now.words) }
    ensures lifting { IfOk result (λ both. lifting_view both.0 ≡ lifts.lifted lift.now.words) }
    ensures own { IfOk result (λ both. own_view both.1 ≡ own_graphs.own_behind (lift_view lift.now)) }
{
    let words = lift.words.as_slice();
    let mut lifting = Lifting::new(alloc);
    let mut own = Own::new(alloc, inputs)?;
    for at in 0..words.len() {
        let Some(instr) = decode(words[at]) else {
            unreachable!();
        };
        own.step(alloc, &lifting, instr)?;
        lifting.step(alloc, at, instr)?;
    }
    Ok((lifting, own))
}

/// The launch graph of the words of a lift: a row for what each of them writes, equal ones once, over the classes of
/// what it reads, and behind these the rows by which the graph knows of which numbers the addresses are multiples on
/// which words may trap. Each row is looked for among those before it, so a call costs some steps for each pair of
/// words.
pub fn own_graph(alloc: Global, lift: &Lift) -> Result<LaunchGraph, NoMemory>
    requires { IsLift (lift_view lift.now) }
    ensures own { IfOk result (IsOwnGraph (lift_view lift.now)) }
    ensures well_formed { IfOk result IsLaunchGraph }
    ensures is_true { IfOk result (IsTrueOf lift.now.words) }
{
    words_and_instructions();
    graphs_are_consistent();
    goals_of_lifts_are_well_formed();
    lifted_goals_are_their_code();
    displacements_are_low_bits();
    meanings_are_in_range();
    let goal = goal(alloc, lift)?;
    let registers = input_registers(alloc, goal.inputs.as_slice())?;
    let (lifting, mut own) = run(alloc, lift, &registers)?;
    let inputs = input_classes(alloc, goal.inputs.as_slice(), &own.rows)?;
    let sets = set_classes(alloc, goal.sets.as_slice(), &lifting, &own)?;
    place_multiples(alloc, &own.values, &mut own.rows, &lifting.addresses)?;
    let pool = pool(alloc, &registers, goal.sets.as_slice())?;
    let multiples = known_multiples(alloc, own.rows.as_slice())?;
    Ok(LaunchGraph {
        rows: Items::from(own.rows),
        multiples,
        entry: 0,
        inputs,
        pool,
        guard: None,
        sets,
    })
}
