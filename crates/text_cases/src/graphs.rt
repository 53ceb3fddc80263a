// The texts of launch graphs: what is read is printed again, and what it says of multiples.
ghost use Rattle.std.specs.Prelude.{◌≤◌, ◌^◌, length};

use case_files::{Trouble, Words, faulty, put, put_number, put_numbers, split_line};
use graph_meaning::graphs_are_consistent;
use launch_graph::{print, read, read_as};
use std::alloc::Global;

/// Input: a line `from N`, or `from N version 2`, and a text. Answers with the lines of the graph that begins at line N
/// of the text, whose sets may have pins in version 2, and the number of the line behind it, or with the fault.
pub(crate) fn graphs(alloc: Global, input: &[u8]) -> Result<Vec<u8>, Trouble>
    requires { length input.now ≤ 2 ^ 24 }
{
    let (head, text) = split_line(input);
    let numbers = head.strip_prefix(b"from ").ok_or(Trouble::Unread)?;
    let mut words = Words { rest: numbers };
    let from = words.small()?;
    let is_pinned = match words.rest {
        b"" => false,
        b"version 2" => true,
        _ => return Err(Trouble::Unread),
    };
    let lines = match text_core::lines(alloc, text) {
        Ok(lines) => lines,
        Err(fault) => return faulty(alloc, fault),
    };
    if from > lines.count() {
        return Err(Trouble::Unread);
    }
    let found = if is_pinned {
        read_as(alloc, 2, &lines, from)
    } else {
        read(alloc, &lines, from)
    };
    match found {
        Ok((graph, next)) => {
            let mut report = print(alloc, &graph)?;
            put_numbers(&mut report, b"next", &[u64::from(next)])?;
            Ok(report)
        }
        Err(fault) => faulty(alloc, fault),
    }
}

/// Input: the lines of a graph. Answers with the power of 2 for each of its classes of which the rows show it a multiple.
pub(crate) fn multiples(alloc: Global, input: &[u8]) -> Result<Vec<u8>, Trouble>
    requires { length input.now ≤ 2 ^ 24 }
{
    graphs_are_consistent();
    let lines = text_core::lines(alloc, input).ok().ok_or(Trouble::Unread)?;
    let Ok((graph, _)) = read(alloc, &lines, 0) else {
        return Err(Trouble::Unread);
    };
    let rows = graph.rows.as_slice();
    let powers = graph_meaning::multiples(alloc, rows, rows.len())?;
    let classes = rows
        .iter()
        .map(|row| row.class as usize + 1)
        .max()
        .unwrap_or(0);
    let mut report = Vec::new(alloc);
    put(&mut report, b"multiples")?;
    for power in powers.as_slice().iter().take(classes) {
        put_number(&mut report, u64::from(*power))?;
    }
    put(&mut report, b"\n")?;
    Ok(report)
}
