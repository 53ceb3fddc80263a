// The work of `cycles`.
ghost use Rattle.std.specs.Prelude.{◌≡◌, ◌++◌, ◌∷◌, [], ◌<◌, ◌≤◌, ◌^◌, IfErr, IfOk, OnOk, decimal, length};
ghost use Rattle.code_improve.specs.CycleCounts as format;
ghost use Rattle.code_improve.specs.CycleCounts.{CountsCycles};
ghost use Rattle.code_lift.specs.LiftGrammar.{IsFirstLiftFault};
ghost use Rattle.reports.specs.Errors.{IsErrorBy};
ghost use Rattle.schedule_meaning.specs.Limits.{most_cycles};
ghost use Rattle.text_core.specs.LineTexts.{line_text};

use crate::counting::{CycleCount, count_cycles};
use code_lift::read;
use items::NoMemory;
use reports::{Report, Status, TextError};
use std::alloc::Global;
use text_core::{Name, put, put_number, put_word};

fn put_line(text: &mut Vec<u8>, keyword: &[u8], name: &Name, cycles: u32) -> Result<(), NoMemory>
    ensures { OnOk result (text.new.items
        ≡ text.old.items ++ line_text (keyword.now ∷ name.now ∷ decimal cycles ∷ [])) }
{
    put(text, keyword)?;
    put_word(text, name.bytes())?;
    put_number(text, u64::from(cycles))?;
    put(text, b"\n")
}

/// `cycles NAME K`, `none NAME K` or `spent NAME K`
fn put_count(text: &mut Vec<u8>, name: &Name, count: CycleCount) -> Result<(), NoMemory>
    ensures { OnOk result (text.new.items ≡ text.old.items ++ line_text (format.count_words name.now count)) }
{
    match count {
        CycleCount::Fewest(cycles) => put_line(text, b"cycles", name, cycles),
        CycleCount::Over(cycles) => put_line(text, b"none", name, cycles),
        CycleCount::Spent(cycles) => put_line(text, b"spent", name, cycles),
    }
}

/// The status that a count asks for.
fn status_of(count: CycleCount) -> Status
    ensures { result ≡ format.count_status count }
{
    match count {
        CycleCount::Fewest(_) => Status::Done,
        CycleCount::Over(_) => Status::Missing,
        CycleCount::Spent(_) => Status::Spent,
    }
}

/// A line for each lift of a text: in how many cycles its words can be done, or what was found of that.
pub fn cycles_text(
    alloc: Global,
    text: &[u8],
    cycles: u32,
    conflicts: u32,
) -> Result<Report, TextError>
    requires few { length text.now < 2 ^ 29 }
    requires cycles { cycles ≤ most_cycles }
    requires conflicts { (1 ≤ conflicts) × (conflicts ≤ 1000000) }
    ensures answered { IfOk result (λ report.
        CountsCycles cycles conflicts text.now report.bytes.items report.status) }
    ensures error { IfErr result (IsErrorBy (IsFirstLiftFault text.now)) }
{
    let lifts = read(alloc, text)?;
    let table = &lifts.table;
    let mut bytes = Vec::new(alloc);
    let mut status = Status::Done;
    for lift in lifts.lifts.as_slice() {
        let count = count_cycles(alloc, table, lift, cycles, conflicts)?;
        put_count(&mut bytes, &lift.name, count)?;
        status = status.or_greater(status_of(count));
    }
    Ok(Report { bytes, status })
}
