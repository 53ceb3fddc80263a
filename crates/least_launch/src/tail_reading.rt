// An answer and the lines behind it, read from a text.
ghost use Rattle.std.specs.Prelude.{◌≡◌, ◌≤◌, ◌+◌, ◌<◌, ◌^◌, length, All, IfOk, IfErr, IfSome, OnOk};
ghost use Rattle.answer_texts.specs.AnswerParts.{AreCounted, IsCountedFault};
ghost use Rattle.answer_texts.specs.LineParts.{IsNoLine, IsOneLine};
ghost use Rattle.answer_texts.specs.ReadAnswers.{ReadsAnswer};
ghost use Rattle.text_core.specs.Faults.{IsFaultBy};
ghost use Rattle.text_core.specs.Lines.{HasLines};
ghost use Rattle.least_launch.specs.TailParts.{AreTails, GoalTailFault, GoalTailPart, IsTailLine, OneTailFault, OneTailPart, TailRest, TailRestFault, TailsFault};
ghost use Rattle.least_launch.specs.TailVerdicts.{HasFewLines};
ghost use Rattle.least_launch.specs.TailedAnswers.{IsTailAt, IsTailedFault, ReadsTailed, bytes_in_front};

use crate::tail_lines::{bad_line, said_line, tail_line};
use crate::tails::{Tail, TailLine, Tailed};
use answer_texts::{Claim, Claimed, read_answer};
use cnf_core::Lines;
use items::Items;
use std::alloc::Global;
use text_core::{TextFault, TextLines, lines};

/// `count` lines of a refutation or lemmas.
fn read_lines(
    alloc: Global,
    text: &TextLines<'_>,
    from: u32,
    count: u32,
) -> Result<(Lines, u32), TextFault>
    requires from { from ≤ length text.now }
    requires few { length text.now < 2 ^ 29 }
    ensures ok { IfOk result (λ p. AreCounted text.now count from p.1 p.0) }
    ensures few { IfOk result (λ p. length p.0.lines < 2 ^ 29) }
    ensures fault { IfErr result (IsFaultBy (IsCountedFault text.now count from)) }
{
    let lines = refutation_check::read(alloc, text, from, count)?;
    Ok((lines, from + count))
}

/// The first line of what is said of a schedule.
fn read_said_line(text: &TextLines<'_>, from: u32) -> Result<TailLine, TextFault>
    requires { from ≤ length text.now }
    ensures ok { IfOk result (IsOneLine IsTailLine text.now from (from + 1)) }
    ensures fault { IfErr result (IsFaultBy (IsNoLine IsTailLine text.now from)) }
    ensures few { OnOk result (length text.now < 2 ^ 29) }
{
    if from == text.count() {
        return Err(bad_line(text, from));
    }
    match said_line(text, from) {
        Some(first) => Ok(first),
        None => Err(bad_line(text, from)),
    }
}

/// What stands behind that line.
fn read_rest(
    alloc: Global,
    text: &TextLines<'_>,
    from: u32,
    first: TailLine,
) -> Result<(Tail, u32), TextFault>
    requires from { from ≤ length text.now }
    requires few { length text.now < 2 ^ 29 }
    ensures ok { IfOk result (λ p. TailRest text.now first from p.1 p.0) }
    ensures few { IfOk result (λ p. HasFewLines p.0) }
    ensures fault { IfErr result (IsFaultBy (TailRestFault text.now first from)) }
{
    match first {
        TailLine::Least { launches, count } => {
            let (lines, next) = read_lines(alloc, text, from, count)?;
            Ok((Tail::Least { launches, lines }, next))
        }
        TailLine::Spent { launches, count } => {
            let (lines, next) = read_lines(alloc, text, from, count)?;
            Ok((Tail::Spent { launches, lines }, next))
        }
        TailLine::Size {
            launches,
            vars,
            clauses,
        } => Ok((
            Tail::Size {
                launches,
                vars,
                clauses,
            },
            from,
        )),
    }
}

/// What is said of a schedule from a line on, and the line behind it.
fn read_said(alloc: Global, text: &TextLines<'_>, from: u32) -> Result<(Tail, u32), TextFault>
    requires { from ≤ length text.now }
    ensures ok { IfOk result (λ p. OneTailPart text.now from p.1 p.0) }
    ensures few { IfOk result (λ p. HasFewLines p.0) }
    ensures fault { IfErr result (IsFaultBy (OneTailFault text.now from)) }
{
    let first = read_said_line(text, from)?;
    read_rest(alloc, text, from + 1, first)
}

/// What is said of a goal with this claim from a line on, and the line behind it.
fn read_goal_tail(
    alloc: Global,
    text: &TextLines<'_>,
    claim: &Claim,
    from: u32,
) -> Result<(Option<Tail>, u32), TextFault>
    requires { from ≤ length text.now }
    ensures ok { IfOk result (λ p. GoalTailPart text.now claim.now from p.1 p.0) }
    ensures few { IfOk result (λ p. IfSome p.0 HasFewLines) }
    ensures fault { IfErr result (IsFaultBy (GoalTailFault text.now claim.now from)) }
    ensures within { IfOk result (λ p. p.1 ≤ length text.now) }
{
    match claim {
        Claim::Scheduled { .. } => {
            let (tail, next) = read_said(alloc, text, from)?;
            Ok((Some(tail), next))
        }
        Claim::NoWorld { .. } => Ok((None, from)),
        Claim::Missing { .. } => Ok((None, from)),
        Claim::SpentConflicts { .. } => Ok((None, from)),
        Claim::SpentSize { .. } => Ok((None, from)),
    }
}

/// What is said of the goals from a line on, up to the end of the text.
fn read_tails(
    alloc: Global,
    text: &TextLines<'_>,
    goals: &[Claimed],
    from: u32,
) -> Result<Items<Option<Tail>>, TextFault>
    requires { from ≤ length text.now }
    ensures ok { IfOk result (AreTails text.now from (length text.now) goals.now) }
    ensures few { IfOk result (λ said. All (λ tail. IfSome tail HasFewLines) said) }
    ensures fault { IfErr result (IsFaultBy (TailsFault text.now goals.now from)) }
{
    let mut said = Items::new(alloc);
    let mut line = from;
    for goal in goals {
        let (tail, next) = read_goal_tail(alloc, text, &goal.claim, line)?;
        said.push(tail)?;
        line = next;
    }
    if line != text.count() {
        return Err(bad_line(text, line));
    }
    Ok(said)
}

/// The bytes in front of a line.
#[tactic(auto, using(crate::proofs::Behind::front_within))]
fn front<'t>(text: &'t [u8], split: &TextLines<'_>, at: u32) -> &'t [u8]
    requires split { HasLines text.now split.now }
    requires at { at < length split.now }
    ensures { result.now ≡ bytes_in_front text.now split.now at }
{
    &text[..split.place(at) as usize]
}

/// Reads the answer that stands in front of the first line `tail`, and what stands behind it.
fn read_around(
    alloc: Global,
    text: &[u8],
    split: &TextLines<'_>,
    at: u32,
) -> Result<Tailed, TextFault>
    requires few { length text.now < 2 ^ 29 }
    requires split { HasLines text.now split.now }
    requires at { IsTailAt split.now at }
    requires low { at < 2 ^ 29 }
    ensures ok { IfOk result (λ t. ReadsTailed text.now t.answer t.said) }
    ensures few { IfOk result (λ t. All (λ tail. IfSome tail HasFewLines) t.said) }
    ensures fault { IfErr result (IsFaultBy (IsTailedFault text.now)) }
{
    let answer = read_answer(alloc, front(text, split, at))?;
    let said = read_tails(alloc, split, answer.goals.as_slice(), at + 1)?;
    Ok(Tailed { answer, said })
}

/// Reads an answer in version 1, 2 or 3, and behind the line `tail` what is said of each goal that is scheduled. A
/// fault is the text's first. The answer is what stands in front of the first line `tail`. The cost is that of reading
/// an answer.
pub fn read_tailed(alloc: Global, text: &[u8]) -> Result<Tailed, TextFault>
    requires { length text.now < 2 ^ 29 }
    ensures ok { IfOk result (λ t. ReadsTailed text.now t.answer t.said) }
    ensures few { IfOk result (λ t. All (λ tail. IfSome tail HasFewLines) t.said) }
    ensures fault { IfErr result (IsFaultBy (IsTailedFault text.now)) }
{
    let split = lines(alloc, text)?;
    match tail_line(&split) {
        Some(at) => read_around(alloc, text, &split, at),
        None => {
            read_answer(alloc, text)?;
            Err(bad_line(&split, split.count()))
        }
    }
}
