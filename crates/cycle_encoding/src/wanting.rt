// Which classes are wanted: those of targets, what stores and the branch need, and what rows and copies of wanted
// classes need.
ghost use Rattle.std.specs.Prelude.{◌≡◌, ◌↔◌, ◌∷◌, [], ℕ, ◌<◌, ◌^◌, Contains, IsTrue, if◌then◌else◌, length};
ghost use Rattle.std.specs.Prelude.{map, IfOk, OnOk};
ghost use Rattle.std.specs.List.{range_with_len};
ghost use Rattle.graph_meaning.specs.WellFormed as wellformed;
ghost use Rattle.graph_meaning.specs.WellFormed.{IsLaunchGraph};
ghost use Rattle.graph_meaning.specs.declared.graphs.SetClass.{SetClass as SetClassOf};
ghost use Rattle.cycle_encoding.specs.Narrow.{Wanted};
ghost use Rattle.cycle_encoding.specs.Variables.{row_numbers};
ghost use Rattle.cycle_encoding.specs.Wanting as wanting;
ghost use Rattle.cycle_encoding.specs.Wanting.{giving_rows, is_marked_class, is_wanted_target, AreWantedMarks};
ghost use Rattle.cycle_encoding.specs.Wanting.{AreAllMarked, IsFollowed, IsLonger, StillMarked, wanted_needs};

use crate::Facts;
use crate::buckets::{empty_lists, put_into};
use crate::facts::next_class;
use crate::marks::filled;
use graph_meaning::{LaunchGraph, SetClass};
use items::{Items, NoMemory};
use machine_table::InstrKind;
use schedule_meaning::{class_at, gives_word};
use std::alloc::Global;
use word_ops::{Access, Op};

/// Which classes are known to be wanted: by marks, and in the order in which they were found.
#[derive(Drop)]
struct Wants {
    marks: Vec<bool>,
    order: Vec<u32>,
}

/// Marks a wanted class and lists it, if the table has it and it isn't marked yet.
fn want(wants: &mut Wants, _facts: &Facts, class: u32) -> Result<(), NoMemory>
    requires marks { AreWantedMarks _facts.now wants.old.marks.items wants.old.order.items }
    requires wanted { Wanted _facts.now class }
    ensures size { length wants.new.marks.items ≡ length wants.old.marks.items }
    ensures marks { OnOk result (AreWantedMarks _facts.now wants.new.marks.items wants.new.order.items) }
    ensures longer { OnOk result (IsLonger wants.old.order.items wants.new.order.items) }
    ensures still { StillMarked wants.old.marks.items wants.new.marks.items }
    ensures has { AreAllMarked wants.new.marks.items (class ∷ []) }
{
    if class as usize >= wants.marks.len() {
        return Ok(());
    }
    if wants.marks[class as usize] {
        return Ok(());
    }
    wants.marks[class as usize] = true;
    wants.order.push(class)?;
    Ok(())
}

/// Marks and lists wanted classes.
fn want_all(wants: &mut Wants, facts: &Facts, classes: &[u32]) -> Result<(), NoMemory>
    requires marks { AreWantedMarks facts.now wants.old.marks.items wants.old.order.items }
    requires wanted { (class : ℕ) → Contains classes.now class → Wanted facts.now class }
    ensures size { length wants.new.marks.items ≡ length wants.old.marks.items }
    ensures marks { OnOk result (AreWantedMarks facts.now wants.new.marks.items wants.new.order.items) }
    ensures longer { OnOk result (IsLonger wants.old.order.items wants.new.order.items) }
    ensures still { StillMarked wants.old.marks.items wants.new.marks.items }
    ensures has { OnOk result (AreAllMarked wants.new.marks.items classes.now) }
{
    for class in classes {
        want(wants, facts, *class)?;
    }
    Ok(())
}

/// Wants the class of a target that is a word and isn't safe, or has a pin.
fn want_target(wants: &mut Wants, facts: &Facts, set: &SetClass) -> Result<(), NoMemory>
    requires set { Contains facts.now.sets set.now }
    requires marks { AreWantedMarks facts.now wants.old.marks.items wants.old.order.items }
    ensures size { length wants.new.marks.items ≡ length wants.old.marks.items }
    ensures marks { OnOk result (AreWantedMarks facts.now wants.new.marks.items wants.new.order.items) }
    ensures still { StillMarked wants.old.marks.items wants.new.marks.items }
    ensures has { OnOk result (IsTrue (is_wanted_target facts.now set.now)
        → AreAllMarked wants.new.marks.items (set.now.class ∷ [])) }
{
    if !facts.is_wanted_target(set) {
        return Ok(());
    }
    want(wants, facts, set.class)
}

/// Wants the class of each such target.
fn want_targets(wants: &mut Wants, facts: &Facts) -> Result<(), NoMemory>
    requires marks { AreWantedMarks facts.now wants.old.marks.items wants.old.order.items }
    ensures size { length wants.new.marks.items ≡ length wants.old.marks.items }
    ensures marks { OnOk result (AreWantedMarks facts.now wants.new.marks.items wants.new.order.items) }
    ensures has { OnOk result ((s : SetClassOf) → Contains facts.now.sets s → IsTrue (is_wanted_target facts.now s)
        → AreAllMarked wants.new.marks.items (s.class ∷ [])) }
{
    for set in facts.graph().sets.as_slice() {
        want_target(wants, facts, set)?;
    }
    Ok(())
}

/// Whether the row's operands are wanted whatever its class is: it is the branch, or a store that can be launched or
/// that is one of a 64-bit word.
fn is_root(facts: &Facts, row: u32) -> bool
    ensures { result ≡ wanting.is_root facts.now row }
{
    match facts.instr_at(row) {
        Some(InstrKind::Beq | InstrKind::Store(_)) => true,
        _ => match facts.graph().rows.as_slice().get(row as usize) {
            Some(found) => matches!(found.op, Op::Store(Access::Quad) | Op::Put(Access::Quad)),
            None => false,
        },
    }
}

/// Wants what the row needs, if it is a store or the branch.
fn want_root(wants: &mut Wants, facts: &Facts, needs: &[u32], row: u32) -> Result<(), NoMemory>
    requires needs { needs.now ≡ wanted_needs facts.now row }
    requires marks { AreWantedMarks facts.now wants.old.marks.items wants.old.order.items }
    ensures size { length wants.new.marks.items ≡ length wants.old.marks.items }
    ensures marks { OnOk result (AreWantedMarks facts.now wants.new.marks.items wants.new.order.items) }
    ensures still { StillMarked wants.old.marks.items wants.new.marks.items }
    ensures has { OnOk result (IsTrue (wanting.is_root facts.now row)
        → AreAllMarked wants.new.marks.items (wanted_needs facts.now row)) }
{
    if !is_root(facts, row) {
        return Ok(());
    }
    want_all(wants, facts, needs)
}

/// Wants what stores and the branch need.
fn want_roots(wants: &mut Wants, facts: &Facts, needs: &[Items<u32>]) -> Result<(), NoMemory>
    requires rows { length facts.now.rows < 2 ^ 30 }
    requires needs { needs.now ≡ map (wanted_needs facts.now) (row_numbers facts.now) }
    requires marks { AreWantedMarks facts.now wants.old.marks.items wants.old.order.items }
    ensures size { length wants.new.marks.items ≡ length wants.old.marks.items }
    ensures marks { OnOk result (AreWantedMarks facts.now wants.new.marks.items wants.new.order.items) }
    ensures still { StillMarked wants.old.marks.items wants.new.marks.items }
    ensures has { OnOk result ((row : ℕ) → Contains (row_numbers facts.now) row → IsTrue (wanting.is_root facts.now row)
        → AreAllMarked wants.new.marks.items (wanted_needs facts.now row)) }
{
    for row in 0..facts.row_numbers() {
        want_root(wants, facts, needs[row as usize].as_slice(), row)?;
    }
    Ok(())
}

/// For each class the rows and copies that give its word.
fn rows_by_class(alloc: Global, facts: &Facts) -> Result<Vec<Items<u32>>, NoMemory>
    requires graph { IsLaunchGraph facts.now }
    ensures { IfOk result (λ lists. lists.items
        ≡ map (giving_rows facts.now) (range_with_len 0 (wellformed.next_class facts.now.rows))) }
{
    let mut lists = empty_lists(alloc, next_class(facts.graph()))?;
    for row in 0..facts.row_numbers() {
        if gives_word(facts.instr_at(row)) {
            put_into(&mut lists, class_at(facts.graph(), row), row)?;
        }
    }
    Ok(lists)
}

/// Wants what the rows and copies of a wanted class need.
fn follow(
    wants: &mut Wants,
    facts: &Facts,
    needs: &[Items<u32>],
    class: u32,
    rows: &[u32],
) -> Result<(), NoMemory>
    requires needs { needs.now ≡ map (wanted_needs facts.now) (row_numbers facts.now) }
    requires rows { rows.now ≡ giving_rows facts.now class }
    requires wanted { Wanted facts.now class }
    requires marks { AreWantedMarks facts.now wants.old.marks.items wants.old.order.items }
    ensures size { length wants.new.marks.items ≡ length wants.old.marks.items }
    ensures marks { OnOk result (AreWantedMarks facts.now wants.new.marks.items wants.new.order.items) }
    ensures longer { OnOk result (IsLonger wants.old.order.items wants.new.order.items) }
    ensures still { StillMarked wants.old.marks.items wants.new.marks.items }
    ensures followed { OnOk result (IsFollowed facts.now wants.new.marks.items class) }
{
    for row in rows {
        want_all(wants, facts, needs[*row as usize].as_slice())?;
    }
    Ok(())
}

/// Goes on until what the rows and copies of each listed class need is marked. A class is listed once, so there are no
/// more turns than classes.
fn close(
    wants: &mut Wants,
    facts: &Facts,
    needs: &[Items<u32>],
    rows: &[Items<u32>],
    classes: u32,
) -> Result<(), NoMemory>
    requires needs { needs.now ≡ map (wanted_needs facts.now) (row_numbers facts.now) }
    requires rows { rows.now ≡ map (giving_rows facts.now) (range_with_len 0 classes) }
    requires size { length wants.old.marks.items ≡ classes }
    requires marks { AreWantedMarks facts.now wants.old.marks.items wants.old.order.items }
    ensures size { length wants.new.marks.items ≡ length wants.old.marks.items }
    ensures marks { OnOk result (AreWantedMarks facts.now wants.new.marks.items wants.new.order.items) }
    ensures still { StillMarked wants.old.marks.items wants.new.marks.items }
    ensures followed { OnOk result ((class : ℕ) → Contains wants.new.order.items class
        → IsFollowed facts.now wants.new.marks.items class) }
{
    for at in 0..classes {
        if at as usize >= wants.order.len() {
            return Ok(());
        }
        let class = wants.order[at as usize];
        let found = rows[class as usize].as_slice();
        follow(wants, facts, needs, class, found)?;
    }
    Ok(())
}

/// Which classes are wanted. It costs each row and each of its operands a few steps.
pub fn wanted(alloc: Global, facts: &Facts, needs: &[Items<u32>]) -> Result<Vec<bool>, NoMemory>
    requires graph { IsLaunchGraph facts.now }
    requires needs { needs.now ≡ map (wanted_needs facts.now) (row_numbers facts.now) }
    ensures { IfOk result (λ marks. (class : ℕ) → IsTrue (is_marked_class marks.items class)
        ↔ (Wanted facts.now class × (class < wellformed.next_class facts.now.rows))) }
{
    let classes = next_class(facts.graph());
    let marks = filled(alloc, false, classes)?;
    let order = Vec::new(alloc);
    let mut wants = Wants { marks, order };
    want_targets(&mut wants, facts)?;
    want_roots(&mut wants, facts, needs)?;
    let rows = rows_by_class(alloc, facts)?;
    close(&mut wants, facts, needs, &rows, classes)?;
    Ok(wants.marks)
}
