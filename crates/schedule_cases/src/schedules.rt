// Schedules: when they fit, and their listings.
ghost use Rattle.std.specs.Prelude.{◌≤◌, ◌^◌, length};
ghost use Rattle.schedule_meaning.specs.Limits.{most_cycles};
ghost use Rattle.graph_meaning.specs.WellFormed.{IsLaunchGraph};
ghost use Rattle.machine_table.specs.Tables.{IsTable};
ghost use Rattle.schedule_meaning.specs.Fits.{Fits};

use crate::launches::schedule_in;
use case_files::{Trouble, put, put_line, put_number, put_numbers};
use case_inputs::{Question, question_in};
use register_assign::{assign, words_of};
use schedule_meaning::{Allocation, Broken, Schedule};
use std::alloc::Global;

fn put_broken(report: &mut Vec<u8>, broken: Broken) -> Result<(), Trouble> {
    put_numbers(
        report,
        b"broken",
        &[u64::from(broken.launch), u64::from(broken.rule)],
    )
}

/// Input: a machine form, which may be left out, a graph's lines, a line `cycles K`, and launches. Answers whether they
/// fit with this allocation, or what they break.
pub(crate) fn fits(alloc: Global, allocation: Allocation, input: &[u8]) -> Result<Vec<u8>, Trouble>
    requires { length input.now ≤ 2 ^ 24 }
{
    let (asked, rest) = question_in(alloc, input)?;
    let schedule = schedule_in(alloc, rest)?;
    let mut report = Vec::new(alloc);
    match schedule_meaning::fits(
        &asked.graph,
        &asked.table,
        allocation,
        asked.cycles,
        &schedule,
    ) {
        Ok(()) => put(&mut report, b"fits\n")?,
        Err(broken) => put_broken(&mut report, broken)?,
    }
    Ok(report)
}

/// The listing of launches that fit: a line for each item with its cycle, slot, word and text, and a line for each
/// target with its name and its register.
fn listing_of(
    alloc: Global,
    asked: &Question,
    allocation: Allocation,
    schedule: &Schedule,
) -> Result<Vec<u8>, Trouble>
    requires graph { IsLaunchGraph asked.now.graph }
    requires table { IsTable asked.now.table }
    requires cycles { asked.now.cycles ≤ most_cycles }
    requires fits { Fits asked.now.graph asked.now.table allocation asked.now.cycles schedule.now.launches }
{
    let listing = assign(
        alloc,
        &asked.graph,
        &asked.table,
        allocation,
        asked.cycles,
        schedule,
    )?;
    let words = words_of(alloc, listing.items.as_slice())?;
    let mut report = Vec::new(alloc);
    for (item, word) in listing.items.as_slice().iter().zip(&words) {
        put(&mut report, b"item")?;
        put_number(&mut report, u64::from(item.cycle))?;
        put_number(&mut report, u64::from(item.slot))?;
        let digits = format!(in alloc; " {word:08X} ")?;
        put(&mut report, digits.as_bytes())?;
        put_line(&mut report, &[&alpha_encode::text(alloc, item.instr)?])?;
    }
    for place in listing.wheres.as_slice() {
        put(&mut report, b"where ")?;
        put_numbers(&mut report, place.name.bytes(), &[u64::from(place.reg)])?;
    }
    Ok(report)
}

/// Input as for `fits`. Answers with the listing of the launches, or what they break.
pub(crate) fn listings(
    alloc: Global,
    allocation: Allocation,
    input: &[u8],
) -> Result<Vec<u8>, Trouble>
    requires { length input.now ≤ 2 ^ 24 }
{
    let (asked, rest) = question_in(alloc, input)?;
    let schedule = schedule_in(alloc, rest)?;
    match schedule_meaning::fits(
        &asked.graph,
        &asked.table,
        allocation,
        asked.cycles,
        &schedule,
    ) {
        Ok(()) => listing_of(alloc, &asked, allocation, &schedule),
        Err(broken) => {
            let mut report = Vec::new(alloc);
            put_broken(&mut report, broken)?;
            Ok(report)
        }
    }
}
