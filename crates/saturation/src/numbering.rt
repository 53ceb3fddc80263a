// Classes and declared operators, numbered in the order of their first rows.
ghost use Rattle.std.specs.Prelude.{◌≡◌, ◌<◌, ◌≤◌, ◌^◌, ◌↔◌, length, slice_index, IsTrue, IfOk};
ghost use Rattle.word_terms.specs.Keys.{op_signature};
ghost use Rattle.egraph.specs.Graph.{IsGraph};
ghost use Rattle.saturation.specs.Numbered.{AreClassNumbers, firsts, indexes_of, launched_op, place_in};

use egraph::Egraph;
use items::NoMemory;
use std::alloc::Global;
use word_ops::Op;

/// For each class ever made, a number: the classes that rows have are numbered from 0 in the order of their first rows.
pub(crate) fn class_numbers(alloc: Global, graph: &Egraph<Op>) -> Result<Vec<u32>, NoMemory>
    requires graph { IsGraph op_signature graph.now }
    ensures numbers { IfOk result (λ numbers. AreClassNumbers graph.now numbers.items) }
{
    let mut numbers = vec![in alloc; 0u32; graph.made() as usize]?;
    let mut seen = Vec::new(alloc);
    for at in 0..graph.rows() {
        let class = graph.row(at).class;
        if !is_numbered(&seen, numbers[class as usize], class) {
            numbers[class as usize] = seen.len() as u32;
            seen.push(class)?;
        }
    }
    Ok(numbers)
}

/// Whether the class is the one of this number.
fn is_numbered(seen: &[u32], number: u32, class: u32) -> bool
    ensures { IsTrue result ↔ ((number < length seen.now) × (slice_index seen.now number ≡ class)) }
{
    (number as usize) < seen.len() && seen[number as usize] == class
}

/// The numbers of the declared operators that rows have, in the order of their first rows.
pub(crate) fn used_operators(alloc: Global, graph: &Egraph<Op>) -> Result<Vec<u8>, NoMemory>
    ensures { IfOk result (λ used. used.items ≡ firsts (indexes_of graph.now.rows)) }
{
    let mut used = Vec::new(alloc);
    for at in 0..graph.rows() {
        if let Op::Declared { index, .. } = graph.row(at).op {
            if place_of(&used, index) == used.len() {
                used.push(index)?;
            }
        }
    }
    Ok(used)
}

/// The first place of the number, or how many numbers there are where it is not among them.
fn place_of(numbers: &[u8], number: u8) -> usize
    ensures { result ≡ place_in numbers.now number }
{
    for (at, one) in numbers.iter().enumerate() {
        if *one == number {
            return at;
        }
    }
    numbers.len()
}

/// The operator; a declared one has as its number its place among those that are used.
pub(crate) fn op_of_place(used: &[u8], op: Op) -> Op
    requires { length used.now ≤ 16 }
    ensures { result ≡ launched_op used.now op }
{
    match op {
        Op::Declared { index, arity } => Op::Declared {
            index: place_of(used, index) as u8,
            arity,
        },
        op => op,
    }
}
