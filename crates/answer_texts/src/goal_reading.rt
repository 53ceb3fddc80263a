// The goals of an answer.
ghost use Rattle.std.specs.Prelude.{◌≡◌, ◌≤◌, ◌+◌, ◌<◌, ◌^◌, length, IfOk, IfErr, OnOk};
ghost use Rattle.text_core.specs.Faults.{IsFaultBy};
ghost use Rattle.answer_texts.specs.AnswerParts.{BodyFault, BodyPart, BodyRest, BodyRestFault, GoalFault, GoalPart, GoalsFault, GoalsPart, IsBodyLine, IsEnd, IsGoalName};
ghost use Rattle.answer_texts.specs.LineParts.{IsOneLine, IsNoLine};

use crate::answers::{Claim, Claimed};
use crate::claim_reading::read_claim;
use crate::line_reading::{bad_line, body_line, goal_line};
use crate::parts::{Body, BodyLine};
use graph_meaning::Stop;
use items::Items;
use machine_table::Table;
use std::alloc::Global;
use text_core::{MOST_GOALS, Name, TextFault, TextLines, has_form};

/// The most goals of an answer.

/// The name of the goal that begins at a line.
fn read_name(alloc: Global, text: &TextLines<'_>, from: u32) -> Result<Name, TextFault>
    requires { from ≤ length text.now }
    ensures ok { IfOk result (IsOneLine IsGoalName text.now from (from + 1)) }
    ensures fault { IfErr result (IsFaultBy (IsNoLine IsGoalName text.now from)) }
    ensures few { OnOk result (length text.now < 2 ^ 29) }
{
    if from == text.count() {
        return Err(bad_line(text, from));
    }
    match goal_line(alloc, text, from)? {
        Some(name) => Ok(name),
        None => Err(bad_line(text, from)),
    }
}

/// The line behind a goal's name.
fn read_body_line(text: &TextLines<'_>, from: u32) -> Result<BodyLine, TextFault>
    requires { from ≤ length text.now }
    ensures ok { IfOk result (IsOneLine IsBodyLine text.now from (from + 1)) }
    ensures fault { IfErr result (IsFaultBy (IsNoLine IsBodyLine text.now from)) }
    ensures few { OnOk result (length text.now < 2 ^ 29) }
{
    if from == text.count() {
        return Err(bad_line(text, from));
    }
    match body_line(text, from) {
        Some(first) => Ok(first),
        None => Err(bad_line(text, from)),
    }
}

/// What stands behind that line.
fn read_body_rest(
    alloc: Global,
    text: &TextLines<'_>,
    version: u8,
    table: &Table,
    from: u32,
    first: BodyLine,
) -> Result<(Body, u32), TextFault>
    requires { from ≤ length text.now }
    ensures ok { IfOk result (λ p. BodyRest text.now version table.now first from p.1 p.0) }
    ensures fault { IfErr result (IsFaultBy (BodyRestFault text.now version table.now first from)) }
{
    match first {
        BodyLine::NoWorld { class, a, b } => Ok((
            Body {
                graph: None,
                rounds: 0,
                stop: Stop::Quiet,
                claim: Claim::NoWorld { class, a, b },
                refute: None,
            },
            from,
        )),
        BodyLine::Rounds { rounds, stop } => {
            let (graph, middle) = launch_graph::read_as(alloc, version, text, from)?;
            let (claim, refute, next) = read_claim(alloc, text, table, &graph, middle)?;
            Ok((
                Body {
                    graph: Some(graph),
                    rounds,
                    stop,
                    claim,
                    refute,
                },
                next,
            ))
        }
    }
}

/// What is said of a goal in a text of the version, from the line behind its name on, and the line behind it.
fn read_body(
    alloc: Global,
    text: &TextLines<'_>,
    version: u8,
    table: &Table,
    from: u32,
) -> Result<(Body, u32), TextFault>
    requires { from ≤ length text.now }
    ensures ok { IfOk result (λ p. BodyPart text.now version table.now from p.1 p.0) }
    ensures fault { IfErr result (IsFaultBy (BodyFault text.now version table.now from)) }
{
    let first = read_body_line(text, from)?;
    read_body_rest(alloc, text, version, table, from + 1, first)
}

/// The end of a goal.
fn read_end(text: &TextLines<'_>, from: u32) -> Result<(), TextFault>
    requires { from ≤ length text.now }
    ensures ok { OnOk result (IsOneLine IsEnd text.now from (from + 1) tt) }
    ensures fault { IfErr result (IsFaultBy (IsNoLine IsEnd text.now from)) }
    ensures few { OnOk result (length text.now < 2 ^ 29) }
{
    if from == text.count() || !has_form(text, from, b"end", 1) {
        return Err(bad_line(text, from));
    }
    Ok(())
}

/// The goal that begins at a line in a text of the version, and the line behind it.
fn read_goal(
    alloc: Global,
    text: &TextLines<'_>,
    version: u8,
    table: &Table,
    from: u32,
) -> Result<(Claimed, u32), TextFault>
    requires { from ≤ length text.now }
    ensures ok { IfOk result (λ p. GoalPart text.now version table.now from p.1 p.0) }
    ensures fault { IfErr result (IsFaultBy (GoalFault text.now version table.now from)) }
{
    let name = read_name(alloc, text, from)?;
    let (body, middle) = read_body(alloc, text, version, table, from + 1)?;
    read_end(text, middle)?;
    Ok((
        Claimed {
            name,
            graph: body.graph,
            rounds: body.rounds,
            stop: body.stop,
            claim: body.claim,
            refute: body.refute,
        },
        middle + 1,
    ))
}

/// The goals from a line on up to the end of a text of the version. There is at least one.
pub(crate) fn read_goals(
    alloc: Global,
    text: &TextLines<'_>,
    version: u8,
    table: &Table,
    from: u32,
) -> Result<Items<Claimed>, TextFault>
    requires { from ≤ length text.now }
    ensures ok { IfOk result (GoalsPart text.now version table.now from (length text.now)) }
    ensures fault { IfErr result (IsFaultBy (GoalsFault text.now version table.now from)) }
{
    let mut goals = Items::new(alloc);
    let mut line = from;
    for done in 0..MOST_GOALS {
        let (goal, next) = read_goal(alloc, text, version, table, line)?;
        goals.push(goal)?;
        line = next;
        if line == text.count() {
            return Ok(goals);
        }
    }
    Err(bad_line(text, line))
}
