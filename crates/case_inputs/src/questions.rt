// What is asked of schedules: a table, a graph, a number of cycles, and perhaps launches.
ghost use Rattle.std.specs.Prelude.{◌≤◌, ◌^◌, length, IfOk};
ghost use Rattle.schedule_meaning.specs.Limits.{most_cycles};
ghost use Rattle.graph_meaning.specs.WellFormed.{IsLaunchGraph};
ghost use Rattle.machine_table.specs.Tables.{IsTable};

use case_files::{Trouble, Words, split_before, split_line};
use forms::trees;
use graph_meaning::LaunchGraph;
use machine_table::{Table, ev6, tables_keep_limits};
use schedule_meaning::MOST_CYCLES;
use std::alloc::Global;

/// A table, a graph and a number of cycles, which schedules or formulas are asked for.
#[derive(Drop)]
pub struct Question {
    pub table: Table,
    pub graph: LaunchGraph,
    pub cycles: u32,
}

/// The table of a machine form in the first line, or else `ev6`, and the lines behind it.
fn table_in(alloc: Global, input: &[u8]) -> Result<(Table, &[u8]), Trouble>
    requires { length input.now ≤ 2 ^ 24 }
    ensures table { IfOk result (λ pair. IsTable pair.0) }
    ensures rest { IfOk result (λ pair. length pair.1.now ≤ length input.now) }
{
    tables_keep_limits();
    if !input.starts_with(b"(") {
        return Ok((ev6(alloc)?, input));
    }
    let (form, rest) = split_line(input);
    let forms = trees(alloc, form).ok().ok_or(Trouble::Unread)?;
    let first = forms.first().ok_or(Trouble::Unread)?;
    match machine_table::read(alloc, first, form) {
        Ok(table) => Ok((table, rest)),
        Err(_) => Err(Trouble::Unread),
    }
}

/// The table, the graph and the number of cycles of a machine form, which may be left out, a graph's lines, whose sets
/// may have pins, and a line `cycles K` with at most 24 cycles; and the lines behind it.
pub fn question_in(alloc: Global, input: &[u8]) -> Result<(Question, &[u8]), Trouble>
    requires { length input.now ≤ 2 ^ 24 }
    ensures graph { IfOk result (λ pair. IsLaunchGraph pair.0.graph) }
    ensures table { IfOk result (λ pair. IsTable pair.0.table) }
    ensures cycles { IfOk result (λ pair. pair.0.cycles ≤ most_cycles) }
{
    let (table, rest) = table_in(alloc, input)?;
    let (lines, rest) = split_before(rest, b"cycles ");
    let lines = text_core::lines(alloc, lines).ok().ok_or(Trouble::Unread)?;
    let Ok((graph, _)) = launch_graph::read_as(alloc, 2, &lines, 0) else {
        return Err(Trouble::Unread);
    };
    let (last, rest) = split_line(rest);
    let number = last.strip_prefix(b"cycles ").ok_or(Trouble::Unread)?;
    let cycles = Words { rest: number }.small()?;
    if cycles > MOST_CYCLES {
        return Err(Trouble::Unread);
    }
    Ok((
        Question {
            table,
            graph,
            cycles,
        },
        rest,
    ))
}
