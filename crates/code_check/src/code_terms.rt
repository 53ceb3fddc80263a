// The terms of a code, inserted into the graph of its goal.
ghost use Rattle.std.specs.Prelude.{◌≡◌, ◌+◌, ◌*◌, ◌≤◌, ◌^◌, List, length, map, IfOk, OnOk, Some};
ghost use Rattle.word_terms.specs.Keys.{op_signature};
ghost use Rattle.egraph.specs.Graph.{IsGraph};
ghost use Rattle.alpha_encode.specs.Decoded.{decoded};
ghost use Rattle.alpha_encode.specs.declared.instructions.Instr.{Instr};
ghost use Rattle.goal_meaning.specs.Views.{GoalTree};
ghost use Rattle.saturation.specs.AtStart.{StandsAtStart};
ghost use Rattle.code_check.specs.Inserted.{IsCodeInserted};

use crate::comparing::find_leaf;
use crate::inserting::insert_words;
use egraph::{Egraph, classes_have_one_sort};
use items::{Items, NoMemory};
use saturation::more_terms_may_be_inserted;
use std::alloc::Global;
use word_ops::Op;

/// The classes of the terms of registers and memory at the branch of a code, and at its end, and those of the addresses
/// of its words.
#[derive(Drop)]
pub(crate) struct Inserted {
    pub at_branch: [Option<u32>; 32],
    pub memory_at_branch: u32,
    pub at_end: [Option<u32>; 32],
    pub memory_at_end: u32,
    pub addresses: Items<Option<u32>>,
}

/// Inserts the terms of a code into the graph of its goal, where `before` words stand before the branch.
pub(crate) fn insert_code(
    alloc: Global,
    graph: &mut Egraph<Op>,
    words: &[u32],
    before: usize,
) -> Result<Inserted, NoMemory>
    requires graph { IsGraph op_signature graph.old }
    requires goal { (goal : GoalTree) × StandsAtStart goal graph.old }
    requires code { (instrs : List Instr) × (map decoded words.now ≡ map Some instrs) }
    requires within { before ≤ length words.now }
    requires few { length graph.old.current + 5 * length words.now ≤ 2 ^ 31 }
    ensures inserted { IfOk result (λ i. (instrs : List Instr) → map decoded words.now ≡ map Some instrs →
        IsCodeInserted graph.old instrs before i graph.new) }
    ensures few { OnOk result (length graph.new.current ≤ length graph.old.current + 5 * length words.now) }
{
    classes_have_one_sort::<Op>();
    more_terms_may_be_inserted();
    let Some(entry) = find_leaf(graph, Op::Entry) else {
        unreachable!();
    };
    let mut classes: [Option<u32>; 32] = [None; 32];
    let mut memory = entry;
    let mut addresses = insert_words(alloc, graph, &mut classes, &mut memory, &words[..before])?;
    let at_branch = classes;
    let memory_at_branch = memory;
    let behind = insert_words(alloc, graph, &mut classes, &mut memory, &words[before..])?;
    addresses.extend_from_slice(&behind)?;
    Ok(Inserted {
        at_branch,
        memory_at_branch,
        at_end: classes,
        memory_at_end: memory,
        addresses: Items::from(addresses),
    })
}
