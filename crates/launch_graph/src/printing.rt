// Printing the lines of a graph, a line a function.
ghost use Rattle.std.specs.Prelude.{◌≡◌, ◌++◌, IfOk, OnOk, map, codes, decimal};
ghost use Rattle.text_core.specs.LineTexts.{line_text, lines_text};
ghost use Rattle.launch_graph.specs.GraphLines as format;
ghost use Rattle.launch_graph.specs.LineParts.{words_behind};
ghost use Rattle.launch_graph.specs.RowLines.{line_op_words, row_words};

use crate::row_lines::op_word;
use graph_meaning::{Guard, InputClass, LaunchGraph, LaunchRow, SetClass};
use items::NoMemory;
use itoa::Buffer;
use std::alloc::Global;
use text_core::{put, put_number, put_numbered, put_word};
use word_ops::Op;

/// The words of an operator, each with a space before it.
fn put_op(text: &mut Vec<u8>, op: Op, name: &[u8]) -> Result<(), NoMemory>
    ensures { OnOk result
        (text.new.items ≡ text.old.items ++ words_behind (line_op_words (format.said_op op name.now))) }
{
    put_word(text, op_word(op))?;
    match op {
        Op::Input(register) => put_number(text, u64::from(register)),
        Op::Constant(word) => put_number(text, word),
        Op::Declared { .. } => put_word(text, name),
        _ => Ok(()),
    }
}

#[tactic(auto, using(crate::proofs::Printed::each_more, crate::proofs::Printed::row_text))]
fn put_row(text: &mut Vec<u8>, row: &LaunchRow) -> Result<(), NoMemory>
    ensures { OnOk result (text.new.items ≡ text.old.items ++ line_text (row_words (format.said_row row.now))) }
{
    let mut buffer = Buffer::new();
    put(text, buffer.format(row.class).as_bytes())?;
    put_op(text, row.op, row.name.bytes())?;
    for class in row.operands.as_slice() {
        put_number(text, u64::from(*class))?;
    }
    put(text, b"\n")?;
    Ok(())
}

#[tactic(auto, using(crate::proofs::Printed::line_more))]
fn put_rows(text: &mut Vec<u8>, rows: &[LaunchRow]) -> Result<(), NoMemory>
    ensures { OnOk result
        (text.new.items ≡ text.old.items ++ lines_text (map (λ r. row_words (format.said_row r)) rows.now)) }
{
    for row in rows {
        put_row(text, row)?;
    }
    Ok(())
}

fn put_input(text: &mut Vec<u8>, input: &InputClass) -> Result<(), NoMemory>
    ensures { OnOk result (text.new.items ≡ text.old.items ++ line_text (format.in_words input.now)) }
{
    put(text, b"in")?;
    put_word(text, input.name.bytes())?;
    put_number(text, u64::from(input.reg))?;
    put_number(text, u64::from(input.class))?;
    put(text, b"\n")
}

#[tactic(auto, using(crate::proofs::Printed::line_more))]
fn put_inputs(text: &mut Vec<u8>, inputs: &[InputClass]) -> Result<(), NoMemory>
    ensures { OnOk result (text.new.items ≡ text.old.items ++ lines_text (map format.in_words inputs.now)) }
{
    for input in inputs {
        put_input(text, input)?;
    }
    Ok(())
}

#[tactic(auto, using(crate::proofs::Printed::each_more, crate::proofs::Printed::pool_text))]
fn put_pool(text: &mut Vec<u8>, pool: &[u8]) -> Result<(), NoMemory>
    ensures { OnOk result (text.new.items ≡ text.old.items ++ line_text (format.pool_words pool.now)) }
{
    put(text, b"pool")?;
    for register in pool {
        put_number(text, u64::from(*register))?;
    }
    put(text, b"\n")?;
    Ok(())
}

fn put_guard(text: &mut Vec<u8>, guard: Option<Guard>) -> Result<(), NoMemory>
    ensures { OnOk result (text.new.items ≡ text.old.items ++ lines_text (format.guard_lines guard)) }
{
    let Some(guard) = guard else {
        return Ok(());
    };
    put(text, b"guard")?;
    put_number(text, u64::from(guard.class))?;
    let held: &[u8] = if guard.held { b"held" } else { b"free" };
    put_word(text, held)?;
    put(text, b"\n")
}

#[tactic(auto, using(crate::proofs::Printed::set_text))]
fn put_set(text: &mut Vec<u8>, set: &SetClass) -> Result<(), NoMemory>
    ensures { OnOk result (text.new.items ≡ text.old.items ++ line_text (format.set_words set.now)) }
{
    put(text, b"set")?;
    put_word(text, set.name.bytes())?;
    put_number(text, u64::from(set.class))?;
    if let Some(register) = set.pin {
        put_number(text, u64::from(register))?;
    }
    put(text, b"\n")
}

#[tactic(auto, using(crate::proofs::Printed::line_more))]
fn put_sets(text: &mut Vec<u8>, sets: &[SetClass]) -> Result<(), NoMemory>
    ensures { OnOk result (text.new.items ≡ text.old.items ++ lines_text (map format.set_words sets.now)) }
{
    for set in sets {
        put_set(text, set)?;
    }
    Ok(())
}

/// Appends the lines of a graph to a text. The cost is linear in them. After an error the text may have some of them.
#[tactic(auto, using(crate::proofs::Printed::graph_text))]
pub fn put_graph(text: &mut Vec<u8>, graph: &LaunchGraph) -> Result<(), NoMemory>
    ensures { OnOk result (text.new.items ≡ text.old.items ++ lines_text (format.graph_lines (format.said graph.now))) }
{
    put_numbered(text, b"rows", graph.rows.len() as u64)?;
    put_rows(text, graph.rows.as_slice())?;
    put_numbered(text, b"entry", u64::from(graph.entry))?;
    put_inputs(text, graph.inputs.as_slice())?;
    put_pool(text, graph.pool.as_slice())?;
    put_guard(text, graph.guard)?;
    put_sets(text, graph.sets.as_slice())
}

/// The lines of a graph: its rows, the class of the memory at entry, its inputs, pool, guard and targets, in this
/// order.
pub fn print(alloc: Global, graph: &LaunchGraph) -> Result<Vec<u8>, NoMemory>
    ensures { IfOk result (λ text. text.items ≡ lines_text (format.graph_lines (format.said graph.now))) }
{
    let mut text = Vec::new(alloc);
    put_graph(&mut text, graph)?;
    Ok(text)
}
