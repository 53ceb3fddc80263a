// The line of each goal of an answer with lines behind it, and the report on the whole.
ghost use Rattle.std.specs.Prelude.{◌≡◌, ◌++◌, ◌∷◌, ◌<◌, ◌^◌, ℕ, [], All, IfOk, IfErr, OnOk, codes, decimal, length, map};
ghost use Rattle.answer_check.specs.Reports.{claim_words};
ghost use Rattle.answer_texts.specs.WellFormed.{IsAnswer, IsClaimed};
ghost use Rattle.launch_graph.specs.LineParts.{words_behind};
ghost use Rattle.machine_table.specs.Tables.{IsTable};
ghost use Rattle.text_core.specs.LineTexts.{line_text};
ghost use Rattle.least_launch.specs.LeastChecks.{ChecksLeast, IsTailReport, IsTailReportOn, known_words, tail_verdict_words};
ghost use Rattle.least_launch.specs.TailVerdicts.{HaveTheirTails};
ghost use Rattle.least_launch.specs.TailedAnswers.{IsTailedFault};
ghost use Rattle.reports.specs.Errors.{IsErrorBy};

use crate::checking::check_said;
use crate::tail_reading::read_tailed;
use crate::tails::{Tail, Tailed};
use crate::verdicts::TailVerdict;
use answer_check::{Checked, encoding_named, put_verdict};
use answer_texts::{Claim, Claimed, read_answers_are_well_formed};
use cycle_encoding::Encoding;
use items::NoMemory;
use machine_table::Table;
use reports::{Report, Status, TextError};
use std::alloc::Global;
use text_core::{put, put_number, put_word};

/// `no`, a goal's name, what is wrong, and numbers.
fn put_wrong(
    text: &mut Vec<u8>,
    goal: &Claimed,
    word: &[u8],
    numbers: &[u64],
) -> Result<(), NoMemory>
    ensures { OnOk result (text.new.items ≡ text.old.items
        ++ line_text (codes "no" ∷ goal.now.name ∷ word.now ∷ map decimal numbers.now)) }
{
    put(text, b"no")?;
    put_word(text, goal.name.bytes())?;
    put_word(text, word)?;
    for number in numbers {
        put_number(text, *number)?;
    }
    put(text, b"\n")
}

/// A word and a number behind other words of a line.
fn put_counted(text: &mut Vec<u8>, word: &[u8], number: u32) -> Result<(), NoMemory>
    ensures { OnOk result (text.new.items ≡ text.old.items ++ words_behind (word.now ∷ decimal number ∷ [])) }
{
    put_word(text, word)?;
    put_number(text, u64::from(number))
}

/// A claim in short, behind other words of a line.
fn put_claim(text: &mut Vec<u8>, claim: &Claim) -> Result<(), NoMemory>
    ensures { OnOk result (text.new.items ≡ text.old.items ++ words_behind (claim_words claim.now)) }
{
    match claim {
        Claim::NoWorld { .. } => put_word(text, b"noworld"),
        Claim::Scheduled { k, .. } => put_counted(text, b"scheduled", *k),
        Claim::Missing { k } => put_counted(text, b"none", *k),
        Claim::SpentConflicts { k, .. } => put_counted(text, b"spent", *k),
        Claim::SpentSize { k, .. } => put_counted(text, b"spent", *k),
    }
}

/// The line of a goal whose tests all hold.
fn put_known(text: &mut Vec<u8>, goal: &Claimed, word: &[u8], launches: u32) -> Result<(), NoMemory>
    ensures { OnOk result (text.new.items ≡ text.old.items
        ++ line_text (known_words goal.now word.now launches)) }
{
    put(text, b"ok")?;
    put_word(text, goal.name.bytes())?;
    put_claim(text, &goal.claim)?;
    put_counted(text, word, launches)?;
    put(text, b"\n")
}

/// Appends the line of a goal with this verdict.
fn put_tail_verdict(
    text: &mut Vec<u8>,
    goal: &Claimed,
    verdict: TailVerdict,
) -> Result<(), NoMemory>
    ensures { OnOk result (text.new.items ≡ text.old.items ++ line_text (tail_verdict_words goal.now verdict)) }
{
    match verdict {
        TailVerdict::Plain(verdict) => put_verdict(text, goal, verdict),
        TailVerdict::Count { launches } => {
            put_wrong(text, goal, b"count", &[u64::from(launches)])
        }
        TailVerdict::Size { vars, clauses } => put_wrong(text, goal, b"size", &[vars, clauses]),
        TailVerdict::Fewer { line, why } => {
            put_wrong(text, goal, b"fewer", &[u64::from(line), u64::from(why)])
        }
        TailVerdict::Least { launches } => put_known(text, goal, b"least", launches),
        TailVerdict::Most { launches } => put_known(text, goal, b"most", launches),
    }
}

/// Tests what is claimed of goals and what is said of them, one goal after another: a line for each, and whether some
/// claim is rejected.
fn check_goals(
    alloc: Global,
    encoding: Encoding,
    table: &Table,
    goals: &[Claimed],
    said: &[Option<Tail>],
) -> Result<Checked, NoMemory>
    requires table { IsTable table.now }
    requires goals { (version : ℕ) × All (IsClaimed version) goals.now }
    requires same { length goals.now ≡ length said.now }
    requires said { HaveTheirTails goals.now said.now }
    ensures { IfOk result (λ c. IsTailReportOn encoding table.now goals.now said.now c.bytes.items c.rejected) }
{
    let mut bytes = Vec::new(alloc);
    let mut rejected = false;
    for (at, goal) in goals.iter().enumerate() {
        let verdict = check_said(alloc, encoding, table, goal, &said[at])?;
        put_tail_verdict(&mut bytes, goal, verdict)?;
        rejected = rejected || verdict.is_rejection();
    }
    Ok(Checked { bytes, rejected })
}

/// Tests what an answer claims of its goals and what is said behind it.
fn check_tailed(alloc: Global, tailed: &Tailed) -> Result<Checked, NoMemory>
    requires answer { IsAnswer tailed.now.answer }
    requires said { HaveTheirTails tailed.now.answer.goals tailed.now.said }
    ensures { IfOk result (λ c. IsTailReport tailed.now.answer tailed.now.said c.bytes.items c.rejected) }
{
    let answer = &tailed.answer;
    let encoding = encoding_named(answer.encoding);
    let goals = answer.goals.as_slice();
    check_goals(
        alloc,
        encoding,
        &answer.table,
        goals,
        tailed.said.as_slice(),
    )
}

/// Tests what an answer claims of its goals and what is said behind it, whoever wrote it. Nothing that it says is
/// trusted: clauses are built from its graphs and its table alone. One formula at a time is held in memory, beside what
/// was read.
pub fn check_least_text(alloc: Global, text: &[u8]) -> Result<Report, TextError>
    requires few { length text.now < 2 ^ 29 }
    ensures checked { IfOk result (λ report. ChecksLeast text.now report.bytes.items report.status) }
    ensures error { IfErr result (IsErrorBy (IsTailedFault text.now)) }
{
    read_answers_are_well_formed();
    let tailed = read_tailed(alloc, text)?;
    let checked = check_tailed(alloc, &tailed)?;
    let status = if checked.rejected {
        Status::Missing
    } else {
        Status::Done
    };
    Ok(Report {
        bytes: checked.bytes,
        status,
    })
}
