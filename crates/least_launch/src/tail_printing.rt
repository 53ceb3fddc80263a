// The lines behind an answer, printed.
ghost use Rattle.std.specs.Prelude.{◌≡◌, ◌++◌, OnOk, option_copied};
ghost use Rattle.text_core.specs.LineTexts.{line_text, lines_text};
ghost use Rattle.least_launch.specs.TailLines as format;

use crate::tails::Tail;
use cnf_core::Lines;
use items::NoMemory;
use std::alloc::Global;
use text_core::{put, put_number, put_word};

/// `least LAUNCHES COUNT`, and the lines that show that no schedule has fewer launches.
#[tactic(auto, using(crate::proofs::Pieced::line_first))]
fn put_least(
    alloc: Global,
    text: &mut Vec<u8>,
    launches: u32,
    lines: &Lines,
) -> Result<(), NoMemory>
    ensures { OnOk result (text.new.items
        ≡ text.old.items ++ lines_text (format.one_tail_lines (Tail.Least launches lines.now))) }
{
    put(text, b"least")?;
    put_number(text, u64::from(launches))?;
    put_number(text, lines.lines.len() as u64)?;
    put(text, b"\n")?;
    put(text, &refutation_check::print(alloc, lines)?)
}

/// `most LAUNCHES spent COUNT`, and the lemmas that were found for fewer launches.
#[tactic(auto, using(crate::proofs::Pieced::line_first))]
fn put_spent(
    alloc: Global,
    text: &mut Vec<u8>,
    launches: u32,
    lines: &Lines,
) -> Result<(), NoMemory>
    ensures { OnOk result (text.new.items
        ≡ text.old.items ++ lines_text (format.one_tail_lines (Tail.Spent launches lines.now))) }
{
    put(text, b"most")?;
    put_number(text, u64::from(launches))?;
    put_word(text, b"spent")?;
    put_number(text, lines.lines.len() as u64)?;
    put(text, b"\n")?;
    put(text, &refutation_check::print(alloc, lines)?)
}

/// What is said of one schedule.
fn put_tail(alloc: Global, text: &mut Vec<u8>, tail: &Tail) -> Result<(), NoMemory>
    ensures { OnOk result (text.new.items ≡ text.old.items ++ lines_text (format.one_tail_lines tail.now)) }
{
    match tail {
        Tail::Least { launches, lines } => put_least(alloc, text, *launches, lines),
        Tail::Spent { launches, lines } => put_spent(alloc, text, *launches, lines),
        Tail::Size {
            launches,
            vars,
            clauses,
        } => {
            put(text, b"most")?;
            put_number(text, u64::from(*launches))?;
            put_word(text, b"size")?;
            put_number(text, *vars)?;
            put_number(text, *clauses)?;
            put(text, b"\n")
        }
    }
}

/// What is said of one goal, if something is.
fn put_said(alloc: Global, text: &mut Vec<u8>, tail: &Option<Tail>) -> Result<(), NoMemory>
    ensures { OnOk result (text.new.items ≡ text.old.items ++ lines_text (format.goal_tail_lines tail.now)) }
{
    match tail {
        Some(tail) => put_tail(alloc, text, tail),
        None => Ok(()),
    }
}

/// Appends the lines behind an answer: `tail`, and what is said of each schedule.
#[tactic(auto, using(crate::proofs::Pieced::tails_more, crate::proofs::Pieced::tail_whole))]
pub(crate) fn put_tails(
    alloc: Global,
    text: &mut Vec<u8>,
    said: &[Option<Tail>],
) -> Result<(), NoMemory>
    ensures { OnOk result (text.new.items ≡ text.old.items ++ lines_text (format.tail_lines said.now)) }
{
    put(text, b"tail\n")?;
    for tail in said {
        put_said(alloc, text, tail)?;
    }
    Ok(())
}
