// By which cycle each class has come: the word of some row or copy of it is ready in its own cluster, or the memory of
// some store of it is left.
ghost use Rattle.std.specs.Prelude.{◌≡◌, ◌+◌, ◌≤◌, ℕ, None, length, map, IfOk};
ghost use Rattle.schedule_meaning.specs.Limits.{most_cycles};
ghost use Rattle.graph_meaning.specs.WellFormed.{IsLaunchGraph, next_class};
ghost use Rattle.machine_table.specs.Tables.{IsTable};
ghost use Rattle.cycle_encoding.specs.Coming as coming;
ghost use Rattle.cycle_encoding.specs.Coming.{are_come, come_by, is_come, start_needs, ComesAreFound, AreSound};
ghost use Rattle.cycle_encoding.specs.Coming.{IsExactUpTo, IsPassed, StillCome};
ghost use Rattle.cycle_encoding.specs.Variables.{row_numbers};

use crate::Facts;
use crate::facts::next_class;
use crate::marks::filled;
use items::{Items, NoMemory};
use machine_table::{InstrKind, Table};
use schedule_meaning::{Allocation, MOST_CYCLES, class_at};
use std::alloc::Global;

/// After how many cycles the row's class has come, if it gives one and the table names its instruction: a word after its
/// latency, a store's memory in the next cycle.
pub fn delay(facts: &Facts, table: &Table, row: u32) -> Option<u32>
    ensures { result ≡ coming.delay_at facts.now table.now row }
{
    match facts.instr_at(row) {
        Some(InstrKind::Beq) | None => None,
        Some(InstrKind::Store(access)) => match table.latency(InstrKind::Store(access)) {
            Some(_) => Some(1),
            None => None,
        },
        Some(instr) => table.latency(instr),
    }
}

/// Whether the class has come by a cycle, as far as was found.
fn has_come(come: &[Option<u32>], cycle: u32, class: u32) -> bool
    ensures { result ≡ is_come come.now cycle class }
{
    match come.get(class as usize) {
        Some(Some(first)) => *first <= cycle,
        _ => false,
    }
}

/// Whether each of the classes has.
fn have_come(come: &[Option<u32>], cycle: u32, classes: &[u32]) -> bool
    ensures { result ≡ are_come come.now cycle classes.now }
{
    for class in classes {
        if !has_come(come, cycle, *class) {
            return false;
        }
    }
    true
}

/// The class has come by a cycle too, if the table has it.
fn put_come(come: &mut Vec<Option<u32>>, class: u32, cycle: u32)
    ensures { come.new.items ≡ come_by come.old.items class cycle }
{
    if let Some(first) = come.get_mut(class as usize) {
        match *first {
            Some(first) if first < cycle => {}
            _ => *first = Some(cycle),
        }
    }
}

/// The rows of a graph, under a table and an allocation.
#[derive(Clone, Copy)]
pub struct Rows<'a> {
    pub facts: &'a Facts<'a>,
    pub table: &'a Table,
    pub allocation: Allocation,
}

/// Finds when the row's class comes, if the row can start at the cycle.
fn pass_row(come: &mut Vec<Option<u32>>, rows: &Rows, needs: &[u32], row: u32, cycle: u32)
    requires graph { IsLaunchGraph rows.now.facts.now }
    requires needs { needs.now ≡ start_needs rows.now.facts.now rows.now.allocation row }
    requires cycle { cycle ≤ most_cycles }
    requires table { IsTable rows.now.table.now }
    requires long { length come.old.items ≡ next_class rows.now.facts.now.rows }
    requires sound { AreSound rows.now.facts.now rows.now.table.now rows.now.allocation come.old.items }
    requires found { ComesAreFound rows.now.facts.now rows.now.table.now rows.now.allocation come.old.items cycle }
    ensures long { length come.new.items ≡ length come.old.items }
    ensures sound { AreSound rows.now.facts.now rows.now.table.now rows.now.allocation come.new.items }
    ensures still { StillCome come.old.items come.new.items }
    ensures passed { IsPassed rows.now.facts.now rows.now.table.now rows.now.allocation come.new.items cycle row }
{
    let Some(delay) = delay(rows.facts, rows.table, row) else {
        return;
    };
    if have_come(come, cycle, needs) {
        let class = class_at(rows.facts.graph(), row);
        put_come(come, class, cycle + delay);
    }
}

/// Finds what comes of all rows and copies that can start at the cycle.
fn pass_rows(come: &mut Vec<Option<u32>>, rows: &Rows, needs: &[Items<u32>], cycle: u32)
    requires needs { needs.now ≡ map (start_needs rows.now.facts.now rows.now.allocation)
        (row_numbers rows.now.facts.now) }
    requires cycle { cycle ≤ most_cycles }
    requires table { IsTable rows.now.table.now }
    requires graph { IsLaunchGraph rows.now.facts.now }
    requires long { length come.old.items ≡ next_class rows.now.facts.now.rows }
    requires sound { AreSound rows.now.facts.now rows.now.table.now rows.now.allocation come.old.items }
    requires found { ComesAreFound rows.now.facts.now rows.now.table.now rows.now.allocation come.old.items cycle }
    ensures long { length come.new.items ≡ length come.old.items }
    ensures sound { AreSound rows.now.facts.now rows.now.table.now rows.now.allocation come.new.items }
    ensures still { StillCome come.old.items come.new.items }
    ensures passed { (row : ℕ) → IsPassed rows.now.facts.now rows.now.table.now rows.now.allocation come.new.items cycle
        row }
{
    for row in 0..rows.facts.row_numbers() {
        pass_row(come, rows, needs[row as usize].as_slice(), row, cycle);
    }
}

/// For each class the first cycle by which it has come, where that is one up to 24 or soon behind it.
pub fn earliest_cycles(
    alloc: Global,
    rows: &Rows,
    needs: &[Items<u32>],
) -> Result<Vec<Option<u32>>, NoMemory>
    requires needs { needs.now ≡ map (start_needs rows.now.facts.now rows.now.allocation)
        (row_numbers rows.now.facts.now) }
    requires table { IsTable rows.now.table.now }
    requires graph { IsLaunchGraph rows.now.facts.now }
    ensures { IfOk result (λ come. IsExactUpTo rows.now.facts.now rows.now.table.now rows.now.allocation come.items
        most_cycles) }
{
    let mut come = filled(alloc, None, next_class(rows.facts.graph()))?;
    for cycle in 0..MOST_CYCLES + 1 {
        pass_rows(&mut come, rows, needs, cycle);
    }
    Ok(come)
}
