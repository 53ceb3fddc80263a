// What the solver comes to.
ghost use Rattle.std.specs.Prelude.{◌≤◌};

use case_files::{Trouble, Words, put, put_numbers, split_before, split_line};
use case_inputs::{formula, put_check};
use cnf_core::{Cnf, satisfied};
use pick_rule::Pick;
use refutation_check::{Marks, check, check_lemmas};
use sat_core::{Verdict, solve, solve_from};
use std::alloc::Global;

/// The strategy of this name.
fn pick_named(name: &[u8]) -> Option<Pick> {
    Some(match name {
        b"first" => Pick::First,
        b"last" => Pick::Last,
        b"busy" => Pick::Busy,
        b"activity" => Pick::Activity,
        _ => return None,
    })
}

/// The verdict of a search from given scores or, where there are none, without.
fn found(
    alloc: Global,
    cnf: &Cnf,
    pick: Pick,
    conflicts: u32,
    given: Option<&[u64]>,
) -> Result<Verdict, Trouble>
    requires some { 1 ≤ conflicts }
    requires few { conflicts ≤ 1000000 }
{
    match given {
        None => Ok(solve(alloc, cnf, pick, conflicts)?),
        Some(scores) => {
            if scores.len() != cnf.vars() as usize {
                return Err(Trouble::Unread);
            }
            Ok(solve_from(alloc, cnf, pick, conflicts, scores)?)
        }
    }
}

/// Says a verdict, and whether what it has shows it: whether values satisfy the formula, or lines refute it or are lemmas
/// of it.
fn put_verdict(
    alloc: Global,
    report: &mut Vec<u8>,
    cnf: &Cnf,
    verdict: &Verdict,
) -> Result<(), Trouble> {
    let lines = match verdict {
        Verdict::Sat(values) => {
            let values = values.as_slice();
            if values.len() == cnf.vars() as usize && satisfied(cnf, values) {
                return put(report, b"satisfied\n");
            }
            return put(report, b"wrong values\n");
        }
        Verdict::Refuted(lines) | Verdict::Spent(lines) => lines,
    };
    if lines.lines.len() > 1 << 24 {
        return Err(Trouble::Unread);
    }
    let mut marks = Marks::new(alloc, cnf.vars())?;
    if let Verdict::Refuted(_) = verdict {
        return put_check(report, b"refuted", check(cnf, lines, &mut marks));
    }
    put_numbers(report, b"spent", &[lines.lines.len() as u64])?;
    put_check(report, b"lemmas", check_lemmas(cnf, lines, &mut marks))
}

/// Says a verdict with the number of its lines, which aren't checked.
fn put_counted(report: &mut Vec<u8>, verdict: &Verdict) -> Result<(), Trouble> {
    match verdict {
        Verdict::Sat(_) => put(report, b"satisfied\n"),
        Verdict::Refuted(lines) => put_numbers(report, b"refuted", &[lines.lines.len() as u64]),
        Verdict::Spent(lines) => put_numbers(report, b"spent", &[lines.lines.len() as u64]),
    }
}

/// The scores of a line `scores S..`, if there is one.
fn given_scores(alloc: Global, text: &[u8]) -> Result<Option<Vec<u64>>, Trouble> {
    if text.is_empty() {
        return Ok(None);
    }
    let (line, rest) = split_line(text);
    let mut words = Words { rest: line };
    if words.word()? != b"scores".as_slice() || !rest.is_empty() {
        return Err(Trouble::Unread);
    }
    Ok(Some(words.numbers(alloc)?))
}

/// Input: a line `budget N PICK..`, perhaps a line `scores S..` with a score for each variable, and a formula. Answers
/// with what the solver comes to with N conflicts, for each of the strategies `first`, `last`, `busy` and `activity` that
/// are named. Values are tested, and lines are checked; behind `count` in place of `budget` lines are counted alone, so
/// that little but the search is timed.
pub(crate) fn searches(alloc: Global, input: &[u8]) -> Result<Vec<u8>, Trouble> {
    let (head, rest) = split_line(input);
    let mut words = Words { rest: head };
    let is_counted = match words.word()? {
        b"budget" => false,
        b"count" => true,
        _ => return Err(Trouble::Unread),
    };
    let budget = words.small()?;
    let (front, rest) = split_before(rest, b"vars ");
    let scores = given_scores(alloc, front)?;
    let cnf = formula(alloc, rest)?;
    if budget < 1 || 1000000 < budget {
        return Err(Trouble::Unread);
    }
    let mut report = Vec::new(alloc);
    for _ in 0..words.rest.len() {
        let Some(name) = words.next() else {
            break;
        };
        let pick = pick_named(name).ok_or(Trouble::Unread)?;
        let verdict = found(alloc, &cnf, pick, budget, scores.as_deref())?;
        if is_counted {
            put_counted(&mut report, &verdict)?;
        } else {
            put_verdict(alloc, &mut report, &cnf, &verdict)?;
        }
    }
    Ok(report)
}
