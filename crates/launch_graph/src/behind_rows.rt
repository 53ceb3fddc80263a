// The lines of a graph behind its rows, read one after another.
ghost use Rattle.std.specs.Prelude.{◌≡◌, ◌≤◌, ◌<◌, ◌+◌, ◌^◌, List, [], length, IfOk, IfErr, MatchOption, false};
ghost use Rattle.std.specs.Option.{option_map_or};
ghost use Rattle.text_core.specs.Lines.{line_at};
ghost use Rattle.launch_graph.specs.BehindRows as behind;
ghost use Rattle.launch_graph.specs.BehindRows.{IsFaultBehind, IsFaultBehindOf, IsEntryAt, IsInputAt, IsPoolAt, IsGuardAt, IsSetAt, HasNoInput, HasNoGuard, TakesSets, AreInputsAt, AreSetsAt, IsReadBehind};
ghost use Rattle.launch_graph.specs.GraphStages.{Stage, rows, inputs, behind_pool, has_pin, pins_among};
ghost use Rattle.launch_graph.specs.GraphTexts.{EndsGraph, IsNoTarget};
ghost use Rattle.launch_graph.specs.LineFormats.{words_from};
ghost use Rattle.graph_meaning.specs.WellFormed.{set_sort};
ghost use Rattle.launch_graph.specs.declared.class_marks.Mark.{Mark as MarkOf};

use crate::class_marks::{Mark, is_wrong};
use crate::line_faults::line_fault;
use crate::line_reading::{entry_line, guard_line, input_line, pool_line, set_line};
use graph_meaning::{Guard, InputClass, SetClass};
use items::Items;
use std::alloc::Global;
use text_core::{Kind, TextFault, TextLines, begins_with};
use word_ops::{Sort, operators_are_listed};

/// What the lines behind the rows say.
#[derive(Drop)]
pub struct BehindRows {
    pub entry: u32,
    pub inputs: Items<InputClass>,
    pub pool: Items<u8>,
    pub guard: Option<Guard>,
    pub sets: Items<SetClass>,
}

/// The class of the memory at entry.
fn read_entry(text: &TextLines<'_>, marks: &[Mark], line: u32) -> Result<u32, TextFault>
    requires { line ≤ length text.now }
    ensures ok { IfOk result (IsEntryAt text.now marks.now line) }
    ensures few { length text.now < 2 ^ 29 }
    ensures fault { IfErr result (IsFaultBehind text.now marks.now line (rows 0)) }
{
    operators_are_listed();
    if line == text.count() {
        return Err(line_fault(text, line, Kind::BadLine));
    }
    let Some(class) = entry_line(text, line) else {
        return Err(line_fault(text, line, Kind::BadLine));
    };
    if is_wrong(marks, Sort::Memory, class) {
        return Err(line_fault(text, line, Kind::BadClass));
    }
    Ok(class)
}

/// The input of a line, if it is one.
fn read_input(
    alloc: Global,
    text: &TextLines<'_>,
    marks: &[Mark],
    line: u32,
) -> Result<Option<InputClass>, TextFault>
    requires { line < length text.now }
    ensures ok { IfOk result
        (λ found. MatchOption found (HasNoInput text.now line) (IsInputAt text.now marks.now line)) }
    ensures fault { IfErr result (IsFaultBehind text.now marks.now line inputs) }
{
    operators_are_listed();
    let Some(input) = input_line(alloc, text, line)? else {
        return Ok(None);
    };
    if is_wrong(marks, Sort::Word, input.class) {
        return Err(line_fault(text, line, Kind::BadClass));
    }
    Ok(Some(input))
}

/// The inputs from a line on, and the line behind them.
fn read_inputs(
    alloc: Global,
    text: &TextLines<'_>,
    marks: &[Mark],
    first: u32,
) -> Result<(Items<InputClass>, u32), TextFault>
    requires { first ≤ length text.now }
    ensures inputs { IfOk result (λ p. AreInputsAt text.now marks.now first p.1 p.0) }
    ensures end { IfOk result (λ p. HasNoInput text.now p.1) }
    ensures fault { IfErr result (IsFaultBehind text.now marks.now first inputs) }
{
    operators_are_listed();
    let mut inputs = Items::new(alloc);
    let end = text.count();
    for line in first..end {
        match read_input(alloc, text, marks, line)? {
            Some(input) => inputs.push(input)?,
            None => return Ok((inputs, line)),
        }
    }
    Ok((inputs, end))
}

/// The registers of the pool.
fn read_pool(alloc: Global, text: &TextLines<'_>, line: u32) -> Result<Items<u8>, TextFault>
    requires { line ≤ length text.now }
    ensures ok { IfOk result (IsPoolAt text.now line) }
    ensures fault { IfErr result (λ fault. (marks : List MarkOf) → HasNoInput text.now line
        → IsFaultBehind text.now marks line inputs fault) }
{
    operators_are_listed();
    if line == text.count() {
        return Err(line_fault(text, line, Kind::BadLine));
    }
    match pool_line(alloc, text, line)? {
        Some(pool) => Ok(pool),
        None => Err(line_fault(text, line, Kind::BadLine)),
    }
}

/// The guard of a line, if it is one's.
fn read_guard(text: &TextLines<'_>, marks: &[Mark], line: u32) -> Result<Option<Guard>, TextFault>
    requires { line ≤ length text.now }
    ensures ok { IfOk result
        (λ found. MatchOption found (HasNoGuard text.now line) (IsGuardAt text.now marks.now line)) }
    ensures fault { IfErr result (IsFaultBehind text.now marks.now line behind_pool) }
{
    operators_are_listed();
    if line == text.count() || !begins_with(text, line, b"guard") {
        return Ok(None);
    }
    let Some(guard) = guard_line(text, line) else {
        return Err(line_fault(text, line, Kind::BadLine));
    };
    if is_wrong(marks, Sort::Word, guard.class) {
        return Err(line_fault(text, line, Kind::BadClass));
    }
    Ok(Some(guard))
}

/// The line behind that of the guard, or the same line where there is no guard.
fn behind_guard(guard: &Option<Guard>, line: u32) -> u32
    requires { line < 2 ^ 30 }
    ensures { result ≡ behind.line_after_guard guard.now line }
{
    match guard {
        Some(_) => line + 1,
        None => line,
    }
}

/// Whether the target's pin is that of an earlier one.
fn repeats_pin(sets: &[SetClass], set: &SetClass) -> bool
    ensures { result ≡ option_map_or (has_pin (pins_among sets.now)) set.now.pin false }
{
    let Some(register) = set.pin else {
        return false;
    };
    for earlier in sets {
        if earlier.pin == Some(register) {
            return true;
        }
    }
    false
}

/// The target of a line behind these, if it is one's.
fn read_set(
    alloc: Global,
    version: u8,
    text: &TextLines<'_>,
    marks: &[Mark],
    line: u32,
    sets: &[SetClass],
) -> Result<Option<SetClass>, TextFault>
    requires { line < length text.now }
    ensures ok { IfOk result (λ found. MatchOption found (IsNoTarget (line_at text.now line).words)
        (IsSetAt version text.now marks.now line (pins_among sets.now))) }
    ensures fault { IfErr result (λ fault. (stage : Stage) → TakesSets text.now line (pins_among sets.now) stage
        → IsFaultBehindOf version text.now marks.now line stage fault) }
{
    operators_are_listed();
    if begins_with(text, line, b"guard") {
        return Err(line_fault(text, line, Kind::BadLine));
    }
    if !begins_with(text, line, b"set") {
        return Ok(None);
    }
    let Some(set) = set_line(alloc, version, text, line)? else {
        return Err(line_fault(text, line, Kind::BadLine));
    };
    if repeats_pin(sets, &set) {
        return Err(line_fault(text, line, Kind::BadLine));
    }
    let wanted = if set.is_memory() {
        Sort::Memory
    } else {
        Sort::Word
    };
    if is_wrong(marks, wanted, set.class) {
        return Err(line_fault(text, line, Kind::BadClass));
    }
    Ok(Some(set))
}

/// The targets from a line on, and the line behind them.
fn read_sets(
    alloc: Global,
    version: u8,
    text: &TextLines<'_>,
    marks: &[Mark],
    first: u32,
) -> Result<(Items<SetClass>, u32), TextFault>
    requires { first ≤ length text.now }
    ensures sets { IfOk result (λ p. AreSetsAt version text.now marks.now first p.1 p.0) }
    ensures end { IfOk result (λ p. EndsGraph (words_from text.now p.1)) }
    ensures fault { IfErr result (λ fault. (stage : Stage) → TakesSets text.now first [] stage
        → IsFaultBehindOf version text.now marks.now first stage fault) }
{
    operators_are_listed();
    let mut sets = Items::new(alloc);
    let end = text.count();
    for line in first..end {
        match read_set(alloc, version, text, marks, line, sets.as_slice())? {
            Some(set) => sets.push(set)?,
            None => return Ok((sets, line)),
        }
    }
    Ok((sets, end))
}

/// The lines behind the rows of a graph, which begin at `first`, and the line behind the graph.
pub(crate) fn read_behind(
    alloc: Global,
    version: u8,
    text: &TextLines<'_>,
    marks: &[Mark],
    first: u32,
) -> Result<(BehindRows, u32), TextFault>
    requires { first ≤ length text.now }
    ensures ok { IfOk result (λ p. IsReadBehind version text.now marks.now first p.1 p.0) }
    ensures fault { IfErr result (IsFaultBehindOf version text.now marks.now first (rows 0)) }
{
    operators_are_listed();
    let entry = read_entry(text, marks, first)?;
    let (inputs, line) = read_inputs(alloc, text, marks, first + 1)?;
    let pool = read_pool(alloc, text, line)?;
    let guard = read_guard(text, marks, line + 1)?;
    let targets = behind_guard(&guard, line + 1);
    let (sets, next) = read_sets(alloc, version, text, marks, targets)?;
    Ok((
        BehindRows {
            entry,
            inputs,
            pool,
            guard,
            sets,
        },
        next,
    ))
}
