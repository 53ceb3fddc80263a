// The text of an answer.
ghost use Rattle.std.specs.Prelude.{◌≡◌, ◌++◌, IfOk, OnOk, option_copied};
ghost use Rattle.text_core.specs.LineTexts.{line_text, lines_text};
ghost use Rattle.answer_texts.specs.AnswerLines as format;
ghost use Rattle.answer_texts.specs.declared.answers.Claim.{Claim};
ghost use Rattle.answer_texts.specs.Lent.{lent_claim, lent_claimed};

use crate::answers::AnswerText;
use crate::lent::{ClaimRef, ClaimedRef};
use crate::library_lines::put_library;
use crate::line_printing::{put_lines, put_pair};
use crate::schedule_printing::{put_codes, put_launches, put_wheres};
use crate::table_printing::put_table;
use axiom_library::Library;
use cnf_core::Lines;
use graph_meaning::Stop;
use items::{Items, NoMemory};
use launch_graph::{LaunchGraph, put_graph};
use machine_table::Table;
use register_assign::Where;
use schedule_meaning::Schedule;
use std::alloc::Global;
use text_core::{put, put_number, put_numbered, put_word};

fn stop_name(stop: Stop) -> &'static [u8]
    ensures { result.now ≡ format.stop_name stop }
{
    match stop {
        Stop::Quiet => b"quiet",
        Stop::Rounds => b"rounds",
        Stop::Full => b"full",
    }
}

/// The rounds, why they ended, and the graph, where there is one.
#[tactic(auto, using(crate::proofs::PrintPieces::graph_text))]
fn put_matched(
    text: &mut Vec<u8>,
    rounds: u32,
    stop: Stop,
    graph: Option<&LaunchGraph>,
) -> Result<(), NoMemory>
    ensures { OnOk result (text.new.items
        ≡ text.old.items ++ lines_text (format.graph_part rounds stop (option_copied graph.entry))) }
{
    if let Some(graph) = graph {
        put(text, b"rounds")?;
        put_number(text, u64::from(rounds))?;
        put_word(text, b"stop")?;
        put_word(text, stop_name(stop))?;
        put(text, b"\n")?;
        put_graph(text, graph)?;
    }
    Ok(())
}

fn put_size(text: &mut Vec<u8>, k: u32, vars: u64, clauses: u64) -> Result<(), NoMemory>
    ensures { OnOk result (text.new.items ≡ text.old.items ++ line_text (format.size_words k vars clauses)) }
{
    put(text, b"spent")?;
    put_word(text, b"size")?;
    put_number(text, u64::from(k))?;
    put_number(text, vars)?;
    put_number(text, clauses)?;
    put(text, b"\n")
}

#[tactic(auto, using(crate::proofs::PrintPieces::schedule_text))]
fn put_claim(
    alloc: Global,
    text: &mut Vec<u8>,
    table: &Table,
    graph: Option<&LaunchGraph>,
    claim: &ClaimRef,
) -> Result<(), NoMemory>
    ensures { OnOk result (text.new.items ≡ text.old.items
        ++ lines_text (format.claim_part table.now (option_copied graph.entry) (lent_claim claim.now))) }
{
    match claim {
        ClaimRef::NoWorld { class, a, b } => {
            put(text, b"noworld")?;
            put_number(text, u64::from(*class))?;
            put_number(text, *a)?;
            put_number(text, *b)?;
            put(text, b"\n")
        }
        ClaimRef::Scheduled {
            k,
            schedule,
            words,
            places,
        } => {
            put_numbered(text, b"scheduled", u64::from(*k))?;
            put_launches(text, table, graph, schedule.launches.as_slice())?;
            put_codes(alloc, text, words.as_slice())?;
            put_wheres(text, places.as_slice())
        }
        ClaimRef::Missing { k } => put_numbered(text, b"none", u64::from(*k)),
        ClaimRef::SpentConflicts { k, lemmas: _ } => {
            put(text, b"spent")?;
            put_word(text, b"conflicts")?;
            put_number(text, u64::from(*k))?;
            put(text, b"\n")
        }
        ClaimRef::SpentSize { k, vars, clauses } => put_size(text, *k, *vars, *clauses),
    }
}

fn put_refutation(
    alloc: Global,
    text: &mut Vec<u8>,
    cycles: u32,
    refute: Option<&Lines>,
) -> Result<(), NoMemory>
    ensures { OnOk result (text.new.items
        ≡ text.old.items ++ lines_text (format.refute_part cycles (option_copied refute.entry))) }
{
    match refute {
        Some(lines) => put_lines(alloc, text, b"refute", cycles, lines),
        None => Ok(()),
    }
}

fn put_lemmas(alloc: Global, text: &mut Vec<u8>, claim: &ClaimRef) -> Result<(), NoMemory>
    ensures { OnOk result (text.new.items ≡ text.old.items ++ lines_text (format.lemmas_part (lent_claim claim.now))) }
{
    match claim {
        ClaimRef::SpentConflicts { k, lemmas } => put_lines(alloc, text, b"lemmas", *k, lemmas),
        _ => Ok(()),
    }
}

/// Appends the lines of one goal to a text.
#[tactic(auto, using(crate::proofs::PrintPieces::goal_text))]
pub fn put_goal(
    alloc: Global,
    text: &mut Vec<u8>,
    table: &Table,
    goal: &ClaimedRef,
) -> Result<(), NoMemory>
    ensures { OnOk result (text.new.items
        ≡ text.old.items ++ lines_text (format.goal_lines table.now (lent_claimed goal.now))) }
{
    put_pair(text, b"goal", goal.name.bytes())?;
    put_matched(text, goal.rounds, goal.stop, goal.graph)?;
    put_claim(alloc, text, table, goal.graph, &goal.claim)?;
    put_refutation(alloc, text, goal.claim.refuted_cycles(), goal.refute)?;
    put_lemmas(alloc, text, &goal.claim)?;
    put(text, b"end\n")
}

/// Appends the lines before the first goal to a text.
#[tactic(auto, using(crate::proofs::PrintPieces::head_text))]
pub fn put_head(
    alloc: Global,
    text: &mut Vec<u8>,
    version: u8,
    encoding: u8,
    table: &Table,
    builtin: bool,
    library: Library,
) -> Result<(), NoMemory>
    ensures { OnOk result (text.new.items
        ≡ text.old.items ++ lines_text (format.head_lines version encoding table.now builtin library)) }
{
    put_numbered(text, b"denali", u64::from(version))?;
    put_numbered(text, b"encoding", u64::from(encoding))?;
    put_table(text, table, builtin)?;
    put_library(alloc, text, library)
}

/// The text of an answer. An answer that was read prints as the bytes that it was read from. The cost is linear in the
/// text.
#[tactic(auto, using(crate::proofs::PrintPieces::goals_more, crate::proofs::PrintPieces::then_lines))]
pub fn print_answer(alloc: Global, answer: &AnswerText) -> Result<Vec<u8>, NoMemory>
    ensures { IfOk result (λ text. text.items ≡ format.answer_bytes answer.now) }
{
    let mut text = Vec::new(alloc);
    put_head(
        alloc,
        &mut text,
        answer.version,
        answer.encoding,
        &answer.table,
        answer.builtin,
        answer.library,
    )?;
    for goal in answer.goals.as_slice() {
        put_goal(alloc, &mut text, &answer.table, &goal.as_ref())?;
    }
    Ok(text)
}
