// The clauses of schedules with few launches.
ghost use Rattle.std.specs.Prelude.{◌≤◌, ◌^◌, length};

use case_files::{Trouble, Words, split_line};
use case_inputs::{put_formula, question_in};
use denali_run::Allocation;
use std::alloc::Global;

/// Input: a machine form, which may be left out, a graph's lines, a line `cycles K`, and a line `launches N`. Answers
/// with the counts of the clauses of schedules with at most N launches, where N is at most 192.
pub(crate) fn fewer(alloc: Global, input: &[u8]) -> Result<Vec<u8>, Trouble>
    requires { length input.now ≤ 2 ^ 24 }
{
    let (asked, rest) = question_in(alloc, input)?;
    let (line, _) = split_line(rest);
    let number = line.strip_prefix(b"launches ").ok_or(Trouble::Unread)?;
    let launches = Words { rest: number }.small()?;
    if launches > 192 {
        return Err(Trouble::Unread);
    }
    let fewer = least_launch::fewer(
        alloc,
        &asked.graph,
        &asked.table,
        Allocation::Block,
        asked.cycles,
        launches,
    );
    let mut report = Vec::new(alloc);
    put_formula(&mut report, fewer)?;
    Ok(report)
}
