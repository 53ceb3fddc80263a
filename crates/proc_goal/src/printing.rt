// The canonical text of a proc.
ghost use Rattle.std.specs.Prelude.{◌≡◌, ◌++◌, [], OnOk, IfOk, map, option_map, slice_index_or};
ghost use Rattle.forms.specs.Printing.{lines_of, others_of, plain_text, plains_from};
ghost use Rattle.goal_meaning.specs.Views.{target_view};
ghost use Rattle.proc_goal.specs.ProcForms.{block_plain, go_plain, proc_plain, proc_target_name, proc_text, set_plain, table_plains, var_plain, when_plains};
ghost use Rattle.proc_goal.specs.Views.{block_view, names_of_blocks, proc_view, when_view};
ghost use Rattle.proc_goal.specs.WellFormed.{IsProc};

use crate::procs::{Block, Proc, Target, When};
use goal_meaning::{InputReg, Set};
use goal_reader::{put_pool, put_register, put_term};
use items::NoMemory;
use std::alloc::Global;

/// The name of the block with this number; nothing where there is none.
fn put_block_name(text: &mut Vec<u8>, blocks: &[Block], at: u32) -> Result<(), NoMemory>
    ensures { OnOk result (text.new.items ≡ text.old.items
        ++ slice_index_or (names_of_blocks (map block_view blocks.now)) at []) }
{
    if let Some(block) = blocks.get(at as usize) {
        text.extend_from_slice(block.name.bytes())?;
    }
    Ok(())
}

fn put_target(text: &mut Vec<u8>, blocks: &[Block], target: Target) -> Result<(), NoMemory>
    ensures { OnOk result (text.new.items ≡ text.old.items
        ++ proc_target_name (names_of_blocks (map block_view blocks.now)) target) }
{
    match target {
        Target::Block(at) => put_block_name(text, blocks, at)?,
        Target::Done => text.extend_from_slice(b"done")?,
    }
    Ok(())
}

fn put_variable(text: &mut Vec<u8>, var: &InputReg) -> Result<(), NoMemory>
    ensures { OnOk result (text.new.items ≡ text.old.items ++ plain_text (var_plain var.now)) }
{
    text.extend_from_slice(b"(var ")?;
    text.extend_from_slice(var.name.bytes())?;
    text.extend_from_slice(b" ")?;
    put_register(text, var.reg)?;
    text.extend_from_slice(b")")?;
    Ok(())
}

/// Each variable with a space before it.
#[tactic(auto, using(goal_reader::proofs::Printed::each_more, goal_reader::proofs::Printed::others_each))]
fn put_variables(text: &mut Vec<u8>, vars: &[InputReg]) -> Result<(), NoMemory>
    ensures { OnOk result (text.new.items ≡ text.old.items ++ others_of (plains_from (map var_plain vars.now))) }
{
    for var in vars {
        text.extend_from_slice(b" ")?;
        put_variable(text, var)?;
    }
    Ok(())
}

/// The guard with a space before it, if there is one.
fn put_when(
    text: &mut Vec<u8>,
    when: &Option<When>,
    vars: &[InputReg],
    blocks: &[Block],
) -> Result<(), NoMemory>
    ensures { OnOk result (text.new.items ≡ text.old.items ++ others_of (plains_from (when_plains vars.now
        (names_of_blocks (map block_view blocks.now)) (option_map when_view when.now)))) }
{
    if let Some(when) = when {
        text.extend_from_slice(b" (when ")?;
        put_term(text, &when.guard, &[], vars, &[])?;
        text.extend_from_slice(b" ")?;
        put_target(text, blocks, when.other)?;
        text.extend_from_slice(b")")?;
    }
    Ok(())
}

fn put_set(text: &mut Vec<u8>, set: &Set, vars: &[InputReg]) -> Result<(), NoMemory>
    ensures { OnOk result (text.new.items ≡ text.old.items ++ plain_text (set_plain vars.now (target_view set.now))) }
{
    text.extend_from_slice(b"(set ")?;
    text.extend_from_slice(set.name.bytes())?;
    text.extend_from_slice(b" ")?;
    put_term(text, &set.value, &[], vars, &[])?;
    text.extend_from_slice(b")")?;
    Ok(())
}

/// Each set with a space before it.
#[tactic(auto, using(goal_reader::proofs::Printed::each_more, goal_reader::proofs::Printed::others_each))]
fn put_sets(text: &mut Vec<u8>, sets: &[Set], vars: &[InputReg]) -> Result<(), NoMemory>
    ensures { OnOk result (text.new.items ≡ text.old.items ++ others_of (plains_from
        (map (λ s. set_plain vars.now (target_view s)) sets.now))) }
{
    for set in sets {
        text.extend_from_slice(b" ")?;
        put_set(text, set, vars)?;
    }
    Ok(())
}

fn put_go(text: &mut Vec<u8>, go: Target, blocks: &[Block]) -> Result<(), NoMemory>
    ensures { OnOk result (text.new.items ≡ text.old.items
        ++ plain_text (go_plain (names_of_blocks (map block_view blocks.now)) go)) }
{
    text.extend_from_slice(b"(go ")?;
    put_target(text, blocks, go)?;
    text.extend_from_slice(b")")?;
    Ok(())
}

/// A block, whose targets have the names of these blocks.
fn put_block(
    text: &mut Vec<u8>,
    block: &Block,
    vars: &[InputReg],
    blocks: &[Block],
) -> Result<(), NoMemory>
    ensures { OnOk result (text.new.items ≡ text.old.items ++ plain_text (block_plain vars.now
        (names_of_blocks (map block_view blocks.now)) (block_view block.now))) }
{
    text.extend_from_slice(b"(block ")?;
    text.extend_from_slice(block.name.bytes())?;
    put_when(text, &block.when, vars, blocks)?;
    put_sets(text, block.sets.as_slice(), vars)?;
    text.extend_from_slice(b" ")?;
    put_go(text, block.go, blocks)?;
    text.extend_from_slice(b")")?;
    Ok(())
}

/// Each of these blocks with a space before it, among all blocks of the proc.
#[tactic(auto, using(goal_reader::proofs::Printed::each_more, goal_reader::proofs::Printed::others_each))]
fn put_blocks(
    text: &mut Vec<u8>,
    some: &[Block],
    vars: &[InputReg],
    blocks: &[Block],
) -> Result<(), NoMemory>
    ensures { OnOk result (text.new.items ≡ text.old.items ++ others_of (plains_from (map (λ b. block_plain vars.now
        (names_of_blocks (map block_view blocks.now)) (block_view b)) some.now))) }
{
    for block in some {
        text.extend_from_slice(b" ")?;
        put_block(text, block, vars, blocks)?;
    }
    Ok(())
}

fn put_proc(text: &mut Vec<u8>, proc: &Proc) -> Result<(), NoMemory>
    ensures { OnOk result (text.new.items ≡ text.old.items ++ plain_text (proc_plain (proc_view proc.now))) }
{
    let vars = proc.vars.as_slice();
    let blocks = proc.blocks.as_slice();
    text.extend_from_slice(b"(proc ")?;
    text.extend_from_slice(proc.name.bytes())?;
    put_variables(text, vars)?;
    text.extend_from_slice(b" ")?;
    put_pool(text, proc.pool.as_slice())?;
    put_blocks(text, blocks, vars, blocks)?;
    text.extend_from_slice(b")")?;
    Ok(())
}

/// The line of the machine form, if the text had one.
fn machine_line(alloc: Global, proc: &Proc) -> Result<Vec<u8>, NoMemory>
    ensures { IfOk result (λ text. text.items ≡ lines_of (plains_from (table_plains (proc_view proc.now)))) }
{
    if proc.builtin {
        return Ok(Vec::new(alloc));
    }
    machine_table::print(alloc, &proc.table)
}

/// The canonical text of a proc: a line for each form.
pub fn print(alloc: Global, proc: &Proc) -> Result<Vec<u8>, NoMemory>
    requires { IsProc (proc_view proc.now) }
    ensures { IfOk result (λ text. text.items ≡ proc_text (proc_view proc.now)) }
{
    let mut text = machine_line(alloc, proc)?;
    put_proc(&mut text, proc)?;
    text.extend_from_slice(b"\n")?;
    Ok(text)
}
