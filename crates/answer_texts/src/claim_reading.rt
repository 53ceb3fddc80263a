// What is claimed of a goal, and the lines that are to show it.
ghost use Rattle.std.specs.Prelude.{◌≡◌, ◌≤◌, ◌+◌, ◌<◌, ◌^◌, length, codes, IfOk, IfErr, OnOk};
ghost use Rattle.text_core.specs.Faults.{IsFaultBy};
ghost use Rattle.answer_texts.specs.AnswerParts.{AreCounted, BelowFault, BelowPart, ClaimFault, ClaimPart, ClaimRest, ClaimRestFault, CountedFault, CountedPart, IsClaimLine, IsCount, IsCountedFault, ScheduleFault, SchedulePart};
ghost use Rattle.answer_texts.specs.LineParts.{IsOneLine, IsNoLine};

use crate::answers::Claim;
use crate::line_reading::{bad_line, claim_line, count_line};
use crate::parts::ClaimLine;
use crate::schedule_reading::{read_codes, read_launches, read_places};
use cnf_core::Lines;
use graph_meaning::LaunchGraph;
use machine_table::Table;
use schedule_meaning::Schedule;
use std::alloc::Global;
use text_core::{TextFault, TextLines};

/// The number of lines that a line tells which begins with this word and names this number of cycles.
fn read_count(text: &TextLines<'_>, from: u32, first: &[u8], k: u32) -> Result<u32, TextFault>
    requires { from ≤ length text.now }
    ensures ok { IfOk result (IsOneLine (IsCount first.now k) text.now from (from + 1)) }
    ensures fault { IfErr result (IsFaultBy (IsNoLine (IsCount first.now k) text.now from)) }
    ensures few { OnOk result (length text.now < 2 ^ 29) }
{
    if from == text.count() {
        return Err(bad_line(text, from));
    }
    match count_line(text, from, first, k) {
        Some(count) => Ok(count),
        None => Err(bad_line(text, from)),
    }
}

/// `count` lines of a refutation.
fn read_lines(
    alloc: Global,
    text: &TextLines<'_>,
    from: u32,
    count: u32,
) -> Result<(Lines, u32), TextFault>
    requires from { from ≤ length text.now }
    requires small { count < 2 ^ 31 }
    requires few { length text.now < 2 ^ 29 }
    ensures ok { IfOk result (λ p. AreCounted text.now count from p.1 p.0) }
    ensures fault { IfErr result (IsFaultBy (IsCountedFault text.now count from)) }
{
    let lines = refutation_check::read(alloc, text, from, count)?;
    Ok((lines, from + count))
}

/// The lines behind a line that begins with this word and names this number of cycles.
fn read_counted(
    alloc: Global,
    text: &TextLines<'_>,
    from: u32,
    first: &[u8],
    k: u32,
) -> Result<(Lines, u32), TextFault>
    requires { from ≤ length text.now }
    ensures ok { IfOk result (λ p. CountedPart text.now first.now k from p.1 p.0) }
    ensures fault { IfErr result (IsFaultBy (CountedFault text.now first.now k from)) }
{
    let count = read_count(text, from, first, k)?;
    read_lines(alloc, text, from + 1, count)
}

/// The lines that are to refute the clauses for one cycle less, where there is such a number.
fn read_below(
    alloc: Global,
    text: &TextLines<'_>,
    from: u32,
    k: u32,
) -> Result<(Option<Lines>, u32), TextFault>
    requires { from ≤ length text.now }
    ensures ok { IfOk result (λ p. BelowPart text.now k from p.1 p.0) }
    ensures fault { IfErr result (IsFaultBy (BelowFault text.now k from)) }
{
    if k == 0 {
        return Ok((None, from));
    }
    let (lines, next) = read_counted(alloc, text, from, b"refute", k - 1)?;
    Ok((Some(lines), next))
}

/// A schedule of the graph in `k` cycles, from its first launch on.
fn read_schedule(
    alloc: Global,
    text: &TextLines<'_>,
    table: &Table,
    graph: &LaunchGraph,
    from: u32,
    k: u32,
) -> Result<(Claim, Option<Lines>, u32), TextFault>
    requires { from ≤ length text.now }
    ensures ok { IfOk result (λ p. SchedulePart text.now table.now graph.now k from p.2 (p.0, p.1)) }
    ensures fault { IfErr result (IsFaultBy (ScheduleFault text.now table.now graph.now k from)) }
{
    let (launches, behind_launches) = read_launches(alloc, text, table, graph, from)?;
    let (words, behind_words) = read_codes(alloc, text, behind_launches)?;
    let (places, behind_places) = read_places(alloc, text, behind_words)?;
    let (refute, next) = read_below(alloc, text, behind_places, k)?;
    let claim = Claim::Scheduled {
        k,
        schedule: Schedule { launches },
        words,
        places,
    };
    Ok((claim, refute, next))
}

/// What stands behind the first line of a claim.
fn read_rest(
    alloc: Global,
    text: &TextLines<'_>,
    table: &Table,
    graph: &LaunchGraph,
    from: u32,
    first: ClaimLine,
) -> Result<(Claim, Option<Lines>, u32), TextFault>
    requires { from ≤ length text.now }
    ensures ok { IfOk result (λ p. ClaimRest text.now table.now graph.now first from p.2 (p.0, p.1)) }
    ensures fault { IfErr result (IsFaultBy (ClaimRestFault text.now table.now graph.now first from)) }
{
    match first {
        ClaimLine::Scheduled { k } => read_schedule(alloc, text, table, graph, from, k),
        ClaimLine::Missing { k } => {
            let (lines, next) = read_counted(alloc, text, from, b"refute", k)?;
            Ok((Claim::Missing { k }, Some(lines), next))
        }
        ClaimLine::Conflicts { k } => {
            let (refute, middle) = read_below(alloc, text, from, k)?;
            let (lemmas, next) = read_counted(alloc, text, middle, b"lemmas", k)?;
            Ok((Claim::SpentConflicts { k, lemmas }, refute, next))
        }
        ClaimLine::Size { k, vars, clauses } => {
            let (refute, next) = read_below(alloc, text, from, k)?;
            Ok((Claim::SpentSize { k, vars, clauses }, refute, next))
        }
    }
}

/// The first line of a claim.
fn read_claim_line(text: &TextLines<'_>, from: u32) -> Result<ClaimLine, TextFault>
    requires { from ≤ length text.now }
    ensures ok { IfOk result (IsOneLine IsClaimLine text.now from (from + 1)) }
    ensures fault { IfErr result (IsFaultBy (IsNoLine IsClaimLine text.now from)) }
    ensures few { OnOk result (length text.now < 2 ^ 29) }
{
    if from == text.count() {
        return Err(bad_line(text, from));
    }
    match claim_line(text, from) {
        Some(first) => Ok(first),
        None => Err(bad_line(text, from)),
    }
}

/// The claim on the graph from a line on with the lines that are to refute the clauses for fewer cycles, and the line
/// behind them.
pub(crate) fn read_claim(
    alloc: Global,
    text: &TextLines<'_>,
    table: &Table,
    graph: &LaunchGraph,
    from: u32,
) -> Result<(Claim, Option<Lines>, u32), TextFault>
    requires { from ≤ length text.now }
    ensures ok { IfOk result (λ p. ClaimPart text.now table.now graph.now from p.2 (p.0, p.1)) }
    ensures fault { IfErr result (IsFaultBy (ClaimFault text.now table.now graph.now from)) }
{
    let first = read_claim_line(text, from)?;
    read_rest(alloc, text, table, graph, from + 1, first)
}
