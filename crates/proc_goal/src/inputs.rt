// The goals of a proc.
ghost use Rattle.std.specs.Prelude.{◌≡◌, ◌∷◌, [], IfOk, map};
ghost use Rattle.goal_meaning.specs.Views.{goal_view, input_view, target_view};
ghost use Rattle.goal_meaning.specs.WellFormed.{IsInput};
ghost use Rattle.proc_goal.specs.Goals.{goal_of_block, input_of_proc, memory_kept, sets_or_memory};
ghost use Rattle.proc_goal.specs.Views.{block_view, proc_view};
ghost use Rattle.proc_goal.specs.WellFormed.{IsProc};

use crate::copies::{guard, sets, table, variables};
use crate::laws::goals_of_procs_are_well_formed;
use crate::procs::{Block, Proc};
use goal_meaning::{Goal, Input, Set};
use items::{Items, NoMemory};
use std::alloc::Global;
use text_core::Name;
use word_ops::Op;
use word_terms::Term;

/// The set that keeps the memory as it is.
fn keep_memory(alloc: Global) -> Result<Set, NoMemory>
    ensures { IfOk result (λ s. target_view s ≡ memory_kept) }
{
    let name = Name::new(alloc, b"M")?;
    let value = Term::App(Op::Entry, Vec::new(alloc));
    let pin = None;
    Ok(Set { name, value, pin })
}

/// The targets of a block, and the memory where it has none.
fn targets(alloc: Global, block: &Block) -> Result<Items<Set>, NoMemory>
    ensures { IfOk result (λ targets. map target_view targets ≡ sets_or_memory (map target_view block.now.sets)) }
{
    let mut targets = sets(alloc, block.sets.as_slice())?;
    if targets.is_empty() {
        targets.push(keep_memory(alloc)?)?;
    }
    Ok(targets)
}

/// The goal of a block.
fn goal(alloc: Global, proc: &Proc, block: &Block) -> Result<Goal, NoMemory>
    ensures { IfOk result (λ g. goal_view g ≡ goal_of_block (proc_view proc.now) (block_view block.now)) }
{
    let name = block.name.copy()?;
    let inputs = variables(alloc, proc.vars.as_slice())?;
    let pool = Items::from_slice(alloc, proc.pool.as_slice())?;
    let lets = Items::new(alloc);
    let assumes = Items::new(alloc);
    let guard = guard(alloc, &block.when)?;
    let sets = targets(alloc, block)?;
    Ok(Goal {
        name,
        inputs,
        pool,
        lets,
        assumes,
        guard,
        sets,
    })
}

fn goals(alloc: Global, proc: &Proc) -> Result<Items<Goal>, NoMemory>
    ensures { IfOk result (λ goals. map goal_view goals ≡ (input_of_proc (proc_view proc.now)).goals) }
{
    let mut goals = Items::new(alloc);
    for block in proc.blocks.as_slice() {
        goals.push(goal(alloc, proc, block)?)?;
    }
    Ok(goals)
}

/// The goals of a proc, one for each block and named as the block. All variables are inputs of each, and each set of a
/// variable is pinned to the variable's register. A block without sets keeps the memory.
pub fn input_of(alloc: Global, proc: &Proc) -> Result<Input, NoMemory>
    requires { IsProc (proc_view proc.now) }
    ensures input { IfOk result (λ input. input_view input ≡ input_of_proc (proc_view proc.now)) }
    ensures well_formed { IfOk result (λ input. IsInput (input_view input)) }
{
    goals_of_procs_are_well_formed();
    let table = table(alloc, &proc.table)?;
    let goals = goals(alloc, proc)?;
    let builtin = proc.builtin;
    let ops = Items::new(alloc);
    let axioms = Items::new(alloc);
    Ok(Input {
        table,
        builtin,
        ops,
        axioms,
        goals,
    })
}
