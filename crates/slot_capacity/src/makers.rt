// What rows read, and which of them make each class.
ghost use Rattle.std.specs.Prelude.{◌≡◌, ◌≤◌, ◌<◌, ◌^◌, ◌++◌, ◌==◌, ◌&&◌, map, not, false, length, slice_get, IfOk, OnOk};
ghost use Rattle.std.specs.List.{list_all};
ghost use Rattle.graph_meaning.specs.WellFormed.{IsLaunchGraph};
ghost use Rattle.schedule_meaning.specs.Launches as launches;
ghost use Rattle.cycle_encoding.specs.Framed.{IsFrame, over};
ghost use Rattle.cycle_encoding.specs.Counts.{row_is};
ghost use Rattle.cycle_encoding.specs.Facts.{classes_among, one_or_none};
ghost use Rattle.cycle_encoding.specs.Families as families;
ghost use Rattle.cycle_encoding.specs.Narrow as narrow;
ghost use Rattle.cycle_encoding.specs.Variables.{classes_of, row_numbers};
ghost use Rattle.slot_capacity.specs.Makers as specs;
ghost use Rattle.slot_capacity.specs.MakersSteps as steps;
ghost use Rattle.slot_capacity.specs.MakersOf.{AreMakersOf, AreReads};
ghost use Rattle.slot_capacity.specs.Spans.{spans_of};
ghost use Rattle.cycle_encoding.specs.CycleFormula.{listed_in};

use crate::spans::{Span, spans};
use cycle_encoding::{Facts, Frame, empty_lists, next_class, put_into};
use items::{Items, NoMemory};
use machine_table::InstrKind;
use schedule_meaning::{class_at, memory_class_at, operand_at, operand_count};
use std::alloc::Global;

/// For each row's number the span of its launches; and for each class the rows that make it, and the classes that all
/// of these read.
#[derive(Drop)]
pub struct Makers<'a> {
    pub frame: Frame<'a>,
    pub spans: Vec<Option<Span>>,
    pub rows: Vec<Items<u32>>,
    pub always: Vec<Items<u32>>,
}

/// What the rows of a graph read, by their numbers.
#[derive(Drop)]
struct Reads<'a> {
    facts: &'a Facts<'a>,
    of_rows: Vec<Items<u32>>,
}

/// Which rows make the classes, of those whose launches have variables in the formula of a scope.
pub fn find_makers<'a>(alloc: Global, frame: &Frame<'a>) -> Result<Makers<'a>, NoMemory>
    requires frame { IsFrame frame.now }
    ensures spans { IfOk result (λ m. m.spans.items
        ≡ spans_of frame.now.facts.now (over frame.now listed_in).launches) }
    ensures frame { IfOk result (λ m. m.frame ≡ frame.now) }
    ensures makers { IfOk result AreMakersOf }
{
    let spans = spans(alloc, frame)?;
    let of_rows = all_reads(alloc, frame.facts)?;
    let reads = Reads {
        facts: frame.facts,
        of_rows,
    };
    let rows = all_makers(alloc, &reads, &spans)?;
    let always = all_always(alloc, &reads, &rows, &spans)?;
    Ok(Makers {
        frame: *frame,
        spans,
        rows,
        always,
    })
}

/// The rows that make the class.
pub fn rows_of<'a>(makers: &'a Makers, class: u32) -> &'a [u32]
    requires { AreMakersOf makers.now }
    ensures { result.now ≡ specs.makers_of makers.now.frame.facts.now makers.now.spans.items class }
{
    match makers.rows.get(class as usize) {
        Some(rows) => rows.as_slice(),
        None => &[],
    }
}

/// The classes that each row reads which makes the class.
pub fn always_at<'a>(makers: &'a Makers, class: u32) -> &'a [u32]
    requires { AreMakersOf makers.now }
    ensures { result.now ≡ steps.always_of makers.now.frame.facts.now makers.now.spans.items class }
{
    match makers.always.get(class as usize) {
        Some(always) => always.as_slice(),
        None => &[],
    }
}

/// Whether the number stands in the list.
pub fn has(list: &[u32], number: u32) -> bool
    ensures { result ≡ specs.has list.now number }
{
    list.iter().any(|one| *one == number)
}

/// Whether the row is a load or a store.
pub fn accesses(facts: &Facts, row: u32) -> bool
    ensures { result ≡ row_is facts.now narrow.accesses row }
{
    match facts.instr_at(row) {
        Some(InstrKind::Load(_) | InstrKind::Store(_)) => true,
        _ => false,
    }
}

/// The classes that a launch of the row reads: of its word operands that need a register, and of a load's or store's
/// memory.
fn reads_of(alloc: Global, facts: &Facts, row: u32) -> Result<Vec<u32>, NoMemory>
    ensures { IfOk result (λ reads. reads.items ≡ specs.reads_of facts.now row) }
{
    let mut reads = Vec::new(alloc);
    for at in 0..operand_count(facts.graph(), row) {
        push_read_at(&mut reads, facts, row, at)?;
    }
    if accesses(facts, row) {
        reads.push(memory_class_at(facts.graph(), row))?;
    }
    Ok(reads)
}

/// Adds the class of the operand at a place, if there is one that needs a register.
fn push_read_at(reads: &mut Vec<u32>, facts: &Facts, row: u32, at: usize) -> Result<(), NoMemory>
    ensures { OnOk result (reads.new.items ≡ reads.old.items ++ classes_among (λ o. not (families.is_free facts.now o))
        (one_or_none (slice_get (launches.operands_at facts.now row) at))) }
{
    let Some(operand) = operand_at(facts.graph(), row, at) else {
        return Ok(());
    };
    if !facts.is_free(operand.class, operand.second) {
        reads.push(operand.class)?;
    }
    Ok(())
}

/// For each row's number the classes that a launch of it reads.
fn all_reads(alloc: Global, facts: &Facts) -> Result<Vec<Items<u32>>, NoMemory>
    requires { length facts.now.rows < 2 ^ 30 }
    ensures { IfOk result (λ reads. reads.items ≡ map (specs.reads_of facts.now) (row_numbers facts.now)) }
{
    let mut reads = Vec::new(alloc);
    for row in 0..facts.row_numbers() {
        reads.push(Items::from(reads_of(alloc, facts, row)?))?;
    }
    Ok(reads)
}

/// The classes that a launch of the row reads.
fn reads_at<'a>(reads: &'a Reads, row: u32) -> &'a [u32]
    requires { AreReads reads.now }
    ensures { result.now ≡ specs.reads_of reads.now.facts.now row }
{
    match reads.of_rows.get(row as usize) {
        Some(reads) => reads.as_slice(),
        None => &[],
    }
}

/// Whether a launch of a row that is no branch gives its class without reading it.
fn makes_own(facts: &Facts, reads: &[u32], row: u32) -> bool
    requires { reads.now ≡ specs.reads_of facts.now row }
    ensures { result ≡ specs.makes_own facts.now row }
{
    if let Some(InstrKind::Beq) = facts.instr_at(row) {
        return false;
    }
    !has(reads, class_at(facts.graph(), row))
}

/// Whether a launch of the row makes its class, and some launch of it has a variable.
fn makes(facts: &Facts, reads: &[u32], spans: &[Option<Span>], row: u32) -> bool
    requires { reads.now ≡ specs.reads_of facts.now row }
    ensures { result ≡ (specs.makes_own facts.now row && specs.can_come spans.now row) }
{
    makes_own(facts, reads, row) && can_come(spans, row)
}

/// For each class the rows that make it, of those whose launches have variables.
fn all_makers(
    alloc: Global,
    reads: &Reads,
    spans: &[Option<Span>],
) -> Result<Vec<Items<u32>>, NoMemory>
    requires graph { IsLaunchGraph reads.now.facts.now }
    requires reads { AreReads reads.now }
    ensures { IfOk result (λ lists. lists.items
        ≡ map (specs.makers_of reads.now.facts.now spans.now) (classes_of reads.now.facts.now)) }
{
    let mut lists = empty_lists(alloc, next_class(reads.facts.graph()))?;
    for row in 0..reads.facts.row_numbers() {
        if makes(reads.facts, reads_at(reads, row), spans, row) {
            put_into(&mut lists, class_at(reads.facts.graph(), row), row)?;
        }
    }
    Ok(lists)
}

/// Whether some launch of the row has a variable.
fn can_come(spans: &[Option<Span>], row: u32) -> bool
    ensures { result ≡ specs.can_come spans.now row }
{
    match spans.get(row as usize) {
        Some(Some(_)) => true,
        _ => false,
    }
}

/// For each class the classes that each row which makes it reads, if some does.
fn all_always(
    alloc: Global,
    reads: &Reads,
    makers: &[Items<u32>],
    _spans: &[Option<Span>],
) -> Result<Vec<Items<u32>>, NoMemory>
    requires reads { AreReads reads.now }
    requires makers { makers.now
        ≡ map (specs.makers_of reads.now.facts.now _spans.now) (classes_of reads.now.facts.now) }
    ensures { IfOk result (λ lists. lists.items ≡ map (steps.always_of reads.now.facts.now _spans.now)
        (classes_of reads.now.facts.now)) }
{
    let mut lists = Vec::new(alloc);
    for rows in makers {
        lists.push(Items::from(always_of(alloc, reads, rows.as_slice())?))?;
    }
    Ok(lists)
}

/// The classes that each of the rows reads: those of the first that the others read too.
fn always_of(alloc: Global, reads: &Reads, rows: &[u32]) -> Result<Vec<u32>, NoMemory>
    requires reads { AreReads reads.now }
    ensures { IfOk result (λ always. always.items ≡ steps.always_among reads.now.facts.now rows.now) }
{
    let mut always = Vec::new(alloc);
    let Some(first) = rows.first() else {
        return Ok(always);
    };
    for class in reads_at(reads, *first) {
        if all_read(reads, rows, *class) {
            always.push(*class)?;
        }
    }
    Ok(always)
}

/// Whether each of the rows reads the class.
fn all_read(reads: &Reads, rows: &[u32], class: u32) -> bool
    requires reads { AreReads reads.now }
    ensures { result ≡ list_all (λ row. specs.has (specs.reads_of reads.now.facts.now row) class) rows.now }
{
    rows.iter().all(|row| has(reads_at(reads, *row), class))
}
