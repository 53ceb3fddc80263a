// The line of each goal, and the report on a whole answer.
ghost use Rattle.std.specs.Prelude.{◌≡◌, ◌++◌, ◌∷◌, [], IfOk, OnOk, codes, decimal, map};
ghost use Rattle.answer_check.specs.Reports.{IsCheckReport, claim_words, encoding_named, verdict_words};
ghost use Rattle.answer_texts.specs.WellFormed.{IsAnswer};
ghost use Rattle.text_core.specs.LineTexts.{line_text};

use crate::{Checked, Verdict, check_goal};
use answer_texts::{AnswerText, Claim, Claimed};
use cycle_encoding::Encoding;
use items::NoMemory;
use std::alloc::Global;
use text_core::{put, put_number, put_word};

/// A line of a word, a goal's name, and what is said of it.
fn put_line(
    text: &mut Vec<u8>,
    first: &[u8],
    goal: &Claimed,
    second: &[u8],
    numbers: &[u64],
) -> Result<(), NoMemory>
    ensures { OnOk result (text.new.items ≡ text.old.items
        ++ line_text (first.now ∷ goal.now.name ∷ second.now ∷ map decimal numbers.now)) }
{
    put(text, first)?;
    put_word(text, goal.name.bytes())?;
    put_word(text, second)?;
    for number in numbers {
        put_number(text, *number)?;
    }
    put(text, b"\n")
}

/// The line of a goal whose tests all hold.
fn put_holds(text: &mut Vec<u8>, goal: &Claimed) -> Result<(), NoMemory>
    ensures { OnOk result (text.new.items ≡ text.old.items
        ++ line_text (codes "ok" ∷ goal.now.name ∷ claim_words goal.now.claim)) }
{
    match &goal.claim {
        Claim::NoWorld { .. } => put_line(text, b"ok", goal, b"noworld", &[]),
        Claim::Scheduled { k, .. } => put_line(text, b"ok", goal, b"scheduled", &[u64::from(*k)]),
        Claim::Missing { k } => put_line(text, b"ok", goal, b"none", &[u64::from(*k)]),
        Claim::SpentConflicts { k, .. } => put_line(text, b"ok", goal, b"spent", &[u64::from(*k)]),
        Claim::SpentSize { k, .. } => put_line(text, b"ok", goal, b"spent", &[u64::from(*k)]),
    }
}

/// Appends the line of a goal with this verdict.
pub fn put_verdict(text: &mut Vec<u8>, goal: &Claimed, verdict: Verdict) -> Result<(), NoMemory>
    ensures { OnOk result (text.new.items ≡ text.old.items ++ line_text (verdict_words goal.now verdict)) }
{
    match verdict {
        Verdict::Holds => put_holds(text, goal),
        Verdict::Seen => put_line(text, b"seen", goal, b"noworld", &[]),
        Verdict::Broken { launch, rule } => {
            let numbers = [u64::from(launch), u64::from(rule)];
            put_line(text, b"no", goal, b"broken", &numbers)
        }
        Verdict::Listing => put_line(text, b"no", goal, b"listing", &[]),
        Verdict::Size { vars, clauses } => put_line(text, b"no", goal, b"size", &[vars, clauses]),
        Verdict::Refutation { k, line, why } => {
            let numbers = [u64::from(k), u64::from(line), u64::from(why)];
            put_line(text, b"no", goal, b"refutation", &numbers)
        }
        Verdict::Lemmas { k, line, why } => {
            let numbers = [u64::from(k), u64::from(line), u64::from(why)];
            put_line(text, b"no", goal, b"lemmas", &numbers)
        }
    }
}

/// The encoding that an answer names by its number.
pub fn encoding_named(number: u8) -> Encoding
    ensures { result ≡ encoding_named number }
{
    match number {
        4 => Encoding::Live,
        3 => Encoding::Pinned,
        2 => Encoding::Narrow,
        _ => Encoding::Wide,
    }
}

/// Tests what an answer claims of its goals, one after another: a line for each, and whether some claim is rejected.
pub fn check_answer(alloc: Global, answer: &AnswerText) -> Result<Checked, NoMemory>
    requires { IsAnswer answer.now }
    ensures { IfOk result (λ c. IsCheckReport answer.now c.bytes.items c.rejected) }
{
    let mut bytes = Vec::new(alloc);
    let mut rejected = false;
    for goal in answer.goals.as_slice() {
        let encoding = encoding_named(answer.encoding);
        let verdict = check_goal(alloc, encoding, &answer.table, goal)?;
        put_verdict(&mut bytes, goal, verdict)?;
        rejected = rejected || verdict.is_rejection();
    }
    Ok(Checked { bytes, rejected })
}
