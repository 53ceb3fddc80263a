// From which cycle a due class can be launched, and by which it has to be.
ghost use Rattle.std.specs.Prelude.{◌≡◌, ◌<◌, ◌++◌, ◌∷◌, [], if◌then◌else◌, min, map, fold, All, Some, slice_index_or, IfOk, OnOk};
ghost use Rattle.std.specs.Option.{option_map_or};
ghost use Rattle.slot_capacity.specs.MakersOf.{AreMakersOf, by_makers};
ghost use Rattle.graph_meaning.specs.WellFormed as classes;
ghost use Rattle.cycle_encoding.specs.Variables.{classes_of};
ghost use Rattle.slot_capacity.specs.Deadlines as specs;
ghost use Rattle.slot_capacity.specs.DeadlinesSteps as steps;
ghost use Rattle.slot_capacity.specs.Makers.{is_made};

use crate::due::{due_classes, is_guard};
use crate::makers::{Makers, always_at, rows_of};
use crate::spans::Span;
use cycle_encoding::{Facts, delay, empty_lists, next_class, put_into};
use items::{Items, NoMemory};
use machine_table::{InstrKind, Table};
use std::alloc::Global;

/// A due class, the first cycle in which a launch can make it, and the last in which one has to.
#[derive(Clone, Copy, PartialEq, Eq)]
pub struct Deadline {
    pub class: u32,
    pub first: u32,
    pub last: u32,
}

/// The first cycle of a row's launches.
fn first_of_row(spans: &[Option<Span>], row: u32) -> u32
    ensures { result ≡ specs.first_of_row spans.now row }
{
    match spans.get(row as usize) {
        Some(Some(span)) => span.first,
        _ => 0,
    }
}

/// The last one.
fn last_of_row(spans: &[Option<Span>], row: u32) -> u32
    ensures { result ≡ specs.last_of_row spans.now row }
{
    match spans.get(row as usize) {
        Some(Some(span)) => span.last,
        _ => 0,
    }
}

/// The fewest cycles after which a class has come that these rows make.
fn least_delay(facts: &Facts, table: &Table, rows: &[u32]) -> u32
    ensures { result ≡ specs.delay_of_rows facts.now table.now rows.now }
{
    let mut least = None;
    for row in rows {
        least = lesser(least, delay(facts, table, *row).unwrap_or(0));
    }
    least.unwrap_or(0)
}

/// The lesser of two numbers, of which the first may be absent.
fn lesser(one: Option<u32>, other: u32) -> Option<u32>
    ensures { result ≡ Some (option_map_or (λ n. min n other) one other) }
{
    match one {
        Some(one) => Some(one.min(other)),
        None => Some(other),
    }
}

/// The first cycle in which one of the rows can be launched.
fn first_made(spans: &[Option<Span>], rows: &[u32]) -> u32
    ensures { result ≡ specs.first_of_rows spans.now rows.now }
{
    let mut least = None;
    for row in rows {
        least = lesser(least, first_of_row(spans, *row));
    }
    least.unwrap_or(0)
}

/// The last one.
fn last_made(spans: &[Option<Span>], rows: &[u32]) -> u32
    ensures { result ≡ specs.last_of_rows spans.now rows.now }
{
    let mut greatest = 0;
    for row in rows {
        greatest = greatest.max(last_of_row(spans, *row));
    }
    greatest
}

/// By which cycle the class has to be launched, but for its readers: the guard's so that the branch can end by k.
fn own_last(makers: &Makers, class: u32, first: u32, last: u32) -> u32
    requires makers { AreMakersOf makers.now }
    requires first { first ≡ by_makers makers.now specs.first_made class }
    requires last { last ≡ by_makers makers.now specs.last_made class }
    ensures { result ≡ by_makers makers.now specs.own_last class }
{
    if !is_guard(makers.frame.facts, class) {
        return last;
    }
    let branch = makers.frame.table.latency(InstrKind::Beq).unwrap_or(0);
    let delay = least_delay(
        makers.frame.facts,
        makers.frame.table,
        rows_of(makers, class),
    );
    let before = makers.frame.k.saturating_sub(branch).saturating_sub(delay);
    first.max(last.min(before))
}

/// The deadline of a class, but for its readers.
fn own_deadline(makers: &Makers, class: u32) -> Deadline
    requires { AreMakersOf makers.now }
    ensures { result ≡ by_makers makers.now specs.own_deadline class }
{
    let rows = rows_of(makers, class);
    let first = first_made(makers.spans.as_slice(), rows);
    let last = last_made(makers.spans.as_slice(), rows);
    Deadline {
        class,
        first,
        last: own_last(makers, class, first, last),
    }
}

/// Adds the deadline of a class, but for its readers, if some row makes the class.
fn push_own(deadlines: &mut Vec<Deadline>, makers: &Makers, class: u32) -> Result<(), NoMemory>
    requires { AreMakersOf makers.now }
    ensures { OnOk result (deadlines.new.items ≡ deadlines.old.items
        ++ (if is_made makers.now.frame.facts.now makers.now.spans.items class
        then by_makers makers.now specs.own_deadline class ∷ [] else [])) }
{
    if rows_of(makers, class).is_empty() {
        return Ok(());
    }
    deadlines.push(own_deadline(makers, class))?;
    Ok(())
}

/// The deadlines of the due classes that some row makes, but for their readers.
fn own_deadlines(alloc: Global, makers: &Makers) -> Result<Vec<Deadline>, NoMemory>
    requires { AreMakersOf makers.now }
    ensures { IfOk result (λ xs. xs.items ≡ by_makers makers.now specs.deadlines_within 0) }
{
    let due = due_classes(alloc, makers)?;
    let mut deadlines = Vec::new(alloc);
    for class in due.as_slice() {
        push_own(&mut deadlines, makers, *class)?;
    }
    Ok(deadlines)
}

/// The deadline of a class, made sooner by that of a reader.
fn before_reader(own: Deadline, delay: u32, last: u32, reader: u32) -> u32
    ensures { result ≡ steps.before_reader own delay last reader }
{
    own.first.max(last.min(reader.saturating_sub(delay)))
}

/// The deadline of a class, made sooner by those of its readers.
fn lowered(makers: &Makers, readers: &[u32], own: Deadline) -> Deadline
    requires { AreMakersOf makers.now }
    ensures { result ≡ by_makers makers.now steps.lowered_by readers.now own }
{
    let delay = least_delay(
        makers.frame.facts,
        makers.frame.table,
        rows_of(makers, own.class),
    );
    let mut last = own.last;
    for reader in readers {
        last = before_reader(own, delay, last, *reader);
    }
    Deadline {
        class: own.class,
        first: own.first,
        last,
    }
}

/// Puts a deadline into the list of each of these classes.
fn put_last(lists: &mut Vec<Items<u32>>, classes: &[u32], last: u32) -> Result<(), NoMemory>
    ensures { OnOk result (lists.new.items ≡ fold (steps.with_last last) lists.old.items classes.now) }
{
    for class in classes {
        put_into(lists, *class, last)?;
    }
    Ok(())
}

/// For each class the deadlines of those that always read it, in their order.
fn reader_lasts(
    alloc: Global,
    makers: &Makers,
    deadlines: &[Deadline],
) -> Result<Vec<Items<u32>>, NoMemory>
    requires { AreMakersOf makers.now }
    ensures { IfOk result (λ lists. lists.items ≡ map (steps.lasts_for makers.now.frame.facts.now makers.now.spans.items
        deadlines.now) (classes_of makers.now.frame.facts.now)) }
{
    let mut lists = empty_lists(alloc, next_class(makers.frame.facts.graph()))?;
    for reader in deadlines {
        put_last(&mut lists, always_at(makers, reader.class), reader.last)?;
    }
    Ok(lists)
}

/// The list of a class.
fn list_at<'a>(lists: &'a [Items<u32>], class: u32) -> &'a [u32]
    ensures { result.now ≡ slice_index_or lists.now class [] }
{
    match lists.get(class as usize) {
        Some(list) => list.as_slice(),
        None => &[],
    }
}

/// All deadlines as they make each other. It goes over them and what they read once.
fn all_lowered(
    alloc: Global,
    makers: &Makers,
    deadlines: &[Deadline],
) -> Result<Vec<Deadline>, NoMemory>
    requires makers { AreMakersOf makers.now }
    requires low { All (λ x. x.class < classes.next_class makers.now.frame.facts.now.rows) deadlines.now }
    ensures { IfOk result (λ xs. xs.items ≡ by_makers makers.now specs.all_lowered deadlines.now) }
{
    let lists = reader_lasts(alloc, makers, deadlines)?;
    let mut lower = Vec::new(alloc);
    for own in deadlines {
        lower.push(lowered(makers, list_at(&lists, own.class), *own))?;
    }
    Ok(lower)
}

/// The deadlines of the due classes that some row makes, rising by class. It goes on until a step makes none sooner.
pub fn deadlines(alloc: Global, makers: &Makers) -> Result<Vec<Deadline>, NoMemory>
    requires { AreMakersOf makers.now }
    ensures { IfOk result (λ xs. xs.items ≡ by_makers makers.now specs.deadlines) }
{
    let mut deadlines = own_deadlines(alloc, makers)?;
    for _step in 0..makers.frame.k {
        let lower = all_lowered(alloc, makers, &deadlines)?;
        if lower.as_slice() == deadlines.as_slice() {
            return Ok(deadlines);
        }
        deadlines = lower;
    }
    Ok(deadlines)
}
