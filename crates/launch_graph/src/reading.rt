// A launch graph read from the lines of a text.
ghost use Rattle.std.specs.Prelude.{◌≡◌, ◌≤◌, ◌⊎◌, ℕ, length, IfOk, IfErr, Ok, Err};
ghost use Rattle.text_core.specs.Faults.{IsFaultBy};
ghost use Rattle.text_core.specs.declared.faults.Kind.{Kind as KindOf};
ghost use Rattle.text_core.specs.declared.faults.TextFault.TheVariants as faults;
ghost use Rattle.launch_graph.specs.GraphTexts.{IsGraphAt, IsGraphOf};
ghost use Rattle.launch_graph.specs.LineFaults.{IsFirstFaultOf, IsFirstGraphFault};
ghost use Rattle.launch_graph.specs.Readings.{IsHeaderAt};
ghost use Rattle.graph_meaning.specs.declared.graphs.LaunchGraph.{LaunchGraph as Graph};

use crate::behind_rows::read_behind;
use crate::class_marks::class_marks;
use crate::laws::{one_graph, one_graph_of_each_version};
use crate::line_faults::line_fault;
use crate::line_reading::header_line;
use crate::rows_reading::read_rows;
use graph_meaning::{LaunchGraph, graphs_are_consistent, known_multiples};
use std::alloc::Global;
use text_core::{Kind, TextFault, TextLines};
use word_ops::operators_are_listed;

/// The number of rows that the first line of a graph tells.
fn read_header(text: &TextLines<'_>, from: u32) -> Result<u32, TextFault>
    requires { from ≤ length text.now }
    ensures header { IfOk result (IsHeaderAt text.now from) }
    ensures fault { IfErr result (λ fault. (version : ℕ) → IsFaultBy (IsFirstFaultOf version text.now from) fault) }
{
    if from == text.count() {
        return Err(line_fault(text, from, Kind::BadLine));
    }
    match header_line(text, from) {
        Some(count) => Ok(count),
        None => Err(line_fault(text, from, Kind::BadLine)),
    }
}

/// The graph from a line on, and the line behind it.
fn graph_at(
    alloc: Global,
    version: u8,
    text: &TextLines<'_>,
    from: u32,
) -> Result<(LaunchGraph, u32), TextFault>
    requires { from ≤ length text.now }
    ensures graph { IfOk result (λ p. IsGraphOf version text.now from p.1 p.0) }
    ensures fault { IfErr result (IsFaultBy (IsFirstFaultOf version text.now from)) }
{
    operators_are_listed();
    graphs_are_consistent();
    let count = read_header(text, from)?;
    let first = from + 1;
    let end = first + count.min(text.count() - first);
    let marks = class_marks(alloc, text, first, end, count)?;
    let so_far = read_rows(alloc, text, first, &marks)?;
    let (behind, next) = read_behind(alloc, version, text, &marks, first + count)?;
    let multiples = known_multiples(alloc, so_far.rows.as_slice())?;
    Ok((
        LaunchGraph {
            rows: so_far.rows,
            multiples,
            entry: behind.entry,
            inputs: behind.inputs,
            pool: behind.pool,
            guard: behind.guard,
            sets: behind.sets,
        },
        next,
    ))
}

/// Reads the launch graph whose lines begin at the line `from`, and gives the number of the line behind it. From version
/// 2 on a set may tell its pin; in version 1, and in 0, none does. Only a well-formed graph is read, and one
/// that was printed is read as itself. A fault is the first of the lines: BadLine, BadRow or BadClass. The cost is
/// linear in the text and in the number of rows that the first line tells, beside look-ups among at most sixteen names
/// of declared operators, and for each pin among those before it; whether an earlier row applies the same is looked up
/// in an index.
pub fn read_as(
    alloc: Global,
    version: u8,
    text: &TextLines<'_>,
    from: u32,
) -> Result<(LaunchGraph, u32), TextFault>
    requires { from ≤ length text.now }
    ensures graph { IfOk result (λ p. IsGraphOf version text.now from p.1 p.0) }
    ensures fault { IfErr result (IsFaultBy (IsFirstFaultOf version text.now from)) }
    ensures read { (next : ℕ) (g : Graph) → IsGraphOf version text.now from next g
        → (result ≡ Ok (g, next)) ⊎ (result ≡ Err faults.Memory) }
    ensures refused { (place : ℕ) (kind : KindOf) → IsFirstFaultOf version text.now from place kind
        → (result ≡ Err (faults.Fault (record { place = place; kind = kind }))) ⊎ (result ≡ Err faults.Memory) }
{
    one_graph_of_each_version();
    graph_at(alloc, version, text, from)
}

/// Reads the launch graph in version 1, in which no set has a pin.
pub fn read(alloc: Global, text: &TextLines<'_>, from: u32) -> Result<(LaunchGraph, u32), TextFault>
    requires { from ≤ length text.now }
    ensures graph { IfOk result (λ p. IsGraphAt text.now from p.1 p.0) }
    ensures fault { IfErr result (IsFaultBy (IsFirstGraphFault text.now from)) }
    ensures read { (next : ℕ) (g : Graph) → IsGraphAt text.now from next g
        → (result ≡ Ok (g, next)) ⊎ (result ≡ Err faults.Memory) }
    ensures refused { (place : ℕ) (kind : KindOf) → IsFirstGraphFault text.now from place kind
        → (result ≡ Err (faults.Fault (record { place = place; kind = kind }))) ⊎ (result ≡ Err faults.Memory) }
{
    one_graph();
    graph_at(alloc, 1, text, from)
}
