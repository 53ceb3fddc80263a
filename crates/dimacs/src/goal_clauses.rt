// The clauses of a goal, from the bytes of an answer.
ghost use Rattle.std.specs.Prelude.{◌≡◌, ℕ, ◌≤◌, ◌<◌, ◌^◌, length, IfOk, IfErr};
ghost use Rattle.schedule_meaning.specs.Limits.{most_cycles};
ghost use Rattle.answer_texts.specs.WellFormed.{IsAnswer, IsClaimed};
ghost use Rattle.machine_table.specs.Tables.{IsTable};
ghost use Rattle.answer_texts.specs.ReadAnswers.{IsAnswerFault};
ghost use Rattle.reports.specs.Errors.{IsErrorBy};
ghost use Rattle.dimacs.specs.GoalClauses.{AreClausesAt, AreClausesOf, GivesClauses};

use crate::printing::dimacs;
use answer_check::{Verdict, encoding_named, put_verdict};
use answer_texts::{AnswerText, Claimed, read_answer, read_answers_are_well_formed};
use cycle_encoding::{EncodeFault, Encoding};
use items::NoMemory;
use machine_table::Table;
use order_encoding::full_as;
use reports::{Report, Status, TextError};
use std::alloc::{AllocError, Global};
use text_core::{put, put_word};

/// What is written of a goal's clauses for k cycles.
fn clauses_of(
    alloc: Global,
    encoding: Encoding,
    table: &Table,
    goal: &Claimed,
    k: u32,
) -> Result<Report, NoMemory>
    requires cycles { k ≤ most_cycles }
    requires table { IsTable table.now }
    requires goal { (version : ℕ) × IsClaimed version goal.now }
    ensures { IfOk result (λ r. AreClausesOf encoding table.now goal.now k r.bytes.items r.status) }
{
    let Some(graph) = &goal.graph else {
        let mut line = Vec::from_slice(alloc, b"no")?;
        put_word(&mut line, goal.name.bytes())?;
        put(&mut line, b" noworld\n")?;
        return Ok(Report {
            bytes: line,
            status: Status::Missing,
        });
    };
    match full_as(alloc, encoding, graph, table, k) {
        Ok(encoded) => Ok(Report {
            bytes: dimacs(alloc, &encoded.cnf)?,
            status: Status::Done,
        }),
        Err(EncodeFault::Size { vars, clauses }) => {
            let mut line = Vec::new(alloc);
            put_verdict(&mut line, goal, Verdict::Size { vars, clauses })?;
            Ok(Report {
                bytes: line,
                status: Status::Missing,
            })
        }
        Err(EncodeFault::Memory) => Err(AllocError),
    }
}

/// What is written of the clauses of the goal at a place.
fn clauses_at(alloc: Global, answer: &AnswerText, at: u32, k: u32) -> Result<Report, NoMemory>
    requires cycles { k ≤ most_cycles }
    requires answer { IsAnswer answer.now }
    ensures { IfOk result (λ r. AreClausesAt answer.now at k r.bytes.items r.status) }
{
    let encoding = encoding_named(answer.encoding);
    match answer.goals.as_slice().get(at as usize) {
        Some(goal) => clauses_of(alloc, encoding, &answer.table, goal, k),
        None => Ok(Report {
            bytes: Vec::from_slice(alloc, b"no goal\n")?,
            status: Status::Missing,
        }),
    }
}

/// The clauses for k cycles of the goal at a place in an answer, counted from 0, as they are built where the answer's
/// claims are tested; or a line that says why there are none.
pub fn clauses_text(alloc: Global, text: &[u8], at: u32, k: u32) -> Result<Report, TextError>
    requires few { length text.now < 2 ^ 29 }
    requires cycles { k ≤ most_cycles }
    ensures clauses { IfOk result (λ r. GivesClauses at k text.now r.bytes.items r.status) }
    ensures error { IfErr result (IsErrorBy (IsAnswerFault text.now)) }
{
    read_answers_are_well_formed();
    let answer = read_answer(alloc, text)?;
    Ok(clauses_at(alloc, &answer, at, k)?)
}
