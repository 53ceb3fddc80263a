// The formulas that ask for schedules.
ghost use Rattle.std.specs.Prelude.{◌≤◌, ◌^◌, length};
ghost use Rattle.schedule_meaning.specs.Limits.{most_cycles};
ghost use Rattle.graph_meaning.specs.WellFormed.{IsLaunchGraph};
ghost use Rattle.machine_table.specs.Tables.{IsTable};

use case_files::Trouble;
use case_inputs::{put_formula, question_in};
use cycle_encoding::{EncodeFault, Encoded, Encoding, encode, encode_as};
use graph_meaning::LaunchGraph;
use machine_table::Table;
use order_encoding::{add_capacity, add_guard, add_memory, add_pins, add_pool, full, full_as};
use std::alloc::Global;

/// The whole formula, part by part.
fn by_parts(
    alloc: Global,
    encoding: Encoding,
    graph: &LaunchGraph,
    table: &Table,
    k: u32,
) -> Result<Encoded, EncodeFault>
    requires cycles { k ≤ most_cycles }
    requires graph { IsLaunchGraph graph.now }
    requires table { IsTable table.now }
{
    let cycles = encode_as(alloc, encoding, graph, table, k)?;
    let memory = add_memory(alloc, cycles, graph, table)?;
    let guard = add_guard(alloc, memory, graph, table)?;
    let pool = add_pool(alloc, guard, graph, table)?;
    let pins = add_pins(alloc, pool, graph, table)?;
    add_capacity(alloc, pins, graph, table)
}

/// Input: a machine form, which may be left out, a graph's lines, and a line `cycles K`. Answers with the first
/// families alone, all of them at once, and all of them part by part.
pub(crate) fn formulas(alloc: Global, input: &[u8]) -> Result<Vec<u8>, Trouble>
    requires { length input.now ≤ 2 ^ 24 }
{
    let asked = question_in(alloc, input)?.0;
    let (graph, table, cycles) = (&asked.graph, &asked.table, asked.cycles);
    let mut report = Vec::new(alloc);
    put_formula(&mut report, encode(alloc, graph, table, cycles))?;
    put_formula(&mut report, full(alloc, graph, table, cycles))?;
    let parts = by_parts(alloc, Encoding::Wide, graph, table, cycles);
    put_formula(&mut report, parts)?;
    Ok(report)
}

/// Input as for `formulas`. Answers with the first families of an encoding and with all of them at once, and for the
/// encodings with pins also with all of them part by part.
pub(crate) fn formulas_as(
    alloc: Global,
    encoding: Encoding,
    input: &[u8],
) -> Result<Vec<u8>, Trouble>
    requires { length input.now ≤ 2 ^ 24 }
{
    let asked = question_in(alloc, input)?.0;
    let (graph, table, cycles) = (&asked.graph, &asked.table, asked.cycles);
    let mut report = Vec::new(alloc);
    put_formula(
        &mut report,
        encode_as(alloc, encoding, graph, table, cycles),
    )?;
    put_formula(&mut report, full_as(alloc, encoding, graph, table, cycles))?;
    if matches!(encoding, Encoding::Pinned | Encoding::Live) {
        put_formula(&mut report, by_parts(alloc, encoding, graph, table, cycles))?;
    }
    Ok(report)
}
