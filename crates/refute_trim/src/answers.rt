// The refutations of an answer, trimmed.
ghost use Rattle.std.specs.Prelude.{ℕ, ◌<◌, ◌^◌, length, IfOk, IfErr, MatchOption};
ghost use Rattle.answer_texts.specs.ReadAnswers.{IsAnswerFault};
ghost use Rattle.answer_texts.specs.WellFormed.{IsAnswer, IsClaimed};
ghost use Rattle.reports.specs.Errors.{IsErrorBy};
ghost use Rattle.machine_table.specs.Tables.{IsTable};
ghost use Rattle.refute_trim.specs.Outcomes.{IsPutTrimmed};
ghost use Rattle.refute_trim.specs.TrimmedAnswers.{IsRejectedGoal, IsTrimReport, TrimsText};

use crate::goals::{Outcome, trim_goal};
use answer_check::{Verdict, encoding_named, put_verdict};
use answer_texts::{
    AnswerText, Claimed, ClaimedRef, put_goal, put_head, read_answer, read_answers_are_well_formed,
    read_answers_print_their_text,
};
use cycle_encoding::Encoding;
use items::NoMemory;
use machine_table::Table;
use reports::{Report, Status, TextError};
use std::alloc::Global;

/// Appends the lines of a goal with its refutation trimmed, or tells why it is rejected.
fn put_trimmed(
    alloc: Global,
    text: &mut Vec<u8>,
    encoding: Encoding,
    table: &Table,
    goal: &Claimed,
) -> Result<Option<Verdict>, NoMemory>
    requires table { IsTable table.now }
    requires goal { (version : ℕ) × IsClaimed version goal.now }
    ensures { IfOk result (λ found. MatchOption found
        (IsPutTrimmed encoding table.now goal.now text.old.items text.new.items)
        (λ verdict. IsRejectedGoal encoding table.now goal.now verdict)) }
{
    match trim_goal(alloc, encoding, table, goal)? {
        Outcome::Kept(refute) => {
            let lent = ClaimedRef {
                refute: refute.as_ref(),
                ..goal.as_ref()
            };
            put_goal(alloc, text, table, &lent)?;
            Ok(None)
        }
        Outcome::Rejected(verdict) => Ok(Some(verdict)),
    }
}

/// The answer with each goal's refutation trimmed, or the report on the first goal that is rejected.
fn trim_answer(alloc: Global, answer: &AnswerText) -> Result<Report, NoMemory>
    requires { IsAnswer answer.now }
    ensures { IfOk result (λ report. IsTrimReport answer.now report.bytes.items report.status) }
{
    let encoding = encoding_named(answer.encoding);
    let mut text = Vec::new(alloc);
    put_head(
        alloc,
        &mut text,
        answer.version,
        answer.encoding,
        &answer.table,
        answer.builtin,
        answer.library,
    )?;
    for goal in answer.goals.as_slice() {
        if let Some(verdict) = put_trimmed(alloc, &mut text, encoding, &answer.table, goal)? {
            let mut bytes = Vec::new(alloc);
            put_verdict(&mut bytes, goal, verdict)?;
            return Ok(Report {
                bytes,
                status: Status::Missing,
            });
        }
    }
    Ok(Report {
        bytes: text,
        status: Status::Done,
    })
}

/// Trims the refutations of the answer that a text is; all its other lines stay as they are, lemmas too, which aren't
/// tested. Where the lines of a goal are to refute clauses that are too large, or don't refute them, the line of the
/// first such goal is all that is written, and the status is `Missing`. The clauses are built from the printed graphs
/// and table, for one goal at a time; the cost beside that is linear in the text.
pub fn trim_text(alloc: Global, text: &[u8]) -> Result<Report, TextError>
    requires few { length text.now < 2 ^ 29 }
    ensures trimmed { IfOk result (λ report. TrimsText text.now report.bytes.items report.status) }
    ensures error { IfErr result (IsErrorBy (IsAnswerFault text.now)) }
{
    read_answers_are_well_formed();
    read_answers_print_their_text();
    let answer = read_answer(alloc, text)?;
    Ok(trim_answer(alloc, &answer)?)
}
