// Which classes some launch has to give.
ghost use Rattle.std.specs.Prelude.{◌≡◌, ◌==◌, ◌&&◌, ◌||◌, not, false, slice_index_or, IfOk};
ghost use Rattle.std.specs.Option.{option_map_or};
ghost use Rattle.std.specs.List.{flat_map, list_any};
ghost use Rattle.graph_meaning.specs.Graphs.{is_memory_name};
ghost use Rattle.graph_meaning.specs.WellFormed.{IsLaunchGraph};
ghost use Rattle.slot_capacity.specs.Due as specs;
ghost use Rattle.slot_capacity.specs.MakersSteps as steps;
ghost use Rattle.slot_capacity.specs.MakersOf.{AreMakersOf};

use crate::makers::{Makers, always_at};
use crate::sets::{is_marked, marked};
use cycle_encoding::{Facts, next_class};
use items::NoMemory;
use std::alloc::Global;

/// Whether the class isn't there without a launch: it is neither that of the memory at entry nor an input's, nor the
/// zero class.
fn can_be_due(facts: &Facts, class: u32) -> bool
    ensures { result ≡ specs.can_be_due facts.now class }
{
    class != facts.graph().entry && !facts.is_input(class) && !facts.is_zero(class)
}

/// Whether some word target has the class.
fn has_word_target(facts: &Facts, class: u32) -> bool
    ensures { result ≡ list_any (λ s. not (is_memory_name s.name) && (s.class == class)) facts.now.sets }
{
    facts
        .graph()
        .sets
        .as_slice()
        .iter()
        .any(|set| !set.is_memory() && set.class == class)
}

/// Whether the class is that of a target or of the guard.
fn is_asked_for(facts: &Facts, class: u32) -> bool
    ensures { result ≡ specs.is_asked_for facts.now class }
{
    has_word_target(facts, class)
        || facts.graph().memory_target() == class
        || is_guard(facts, class)
}

/// Whether the class is the guard's.
pub fn is_guard(facts: &Facts, class: u32) -> bool
    ensures { result ≡ option_map_or (λ guard. guard.class == class) facts.now.guard false }
{
    match facts.graph().guard {
        Some(guard) => guard.class == class,
        None => false,
    }
}

/// Whether the class is due for itself.
fn is_first_due(facts: &Facts, class: u32) -> bool
    ensures { result ≡ (specs.can_be_due facts.now class && specs.is_asked_for facts.now class) }
{
    can_be_due(facts, class) && is_asked_for(facts, class)
}

/// The classes that are due for themselves, rising.
fn first_due(alloc: Global, facts: &Facts) -> Result<Vec<u32>, NoMemory>
    requires { IsLaunchGraph facts.now }
    ensures { IfOk result (λ due. due.items ≡ specs.first_due facts.now) }
{
    let mut due = Vec::new(alloc);
    for class in 0..next_class(facts.graph()) {
        if is_first_due(facts, class) {
            due.push(class)?;
        }
    }
    Ok(due)
}

/// What is always read for one of these classes, in their order.
fn read_for(alloc: Global, makers: &Makers, due: &[u32]) -> Result<Vec<u32>, NoMemory>
    requires { AreMakersOf makers.now }
    ensures { IfOk result (λ read. read.items ≡ flat_map
        (steps.always_of makers.now.frame.facts.now makers.now.spans.items) due.now) }
{
    let mut read = Vec::new(alloc);
    for class in due {
        read.extend_from_slice(always_at(makers, *class))?;
    }
    Ok(read)
}

/// Whether the class is one of those that are due, or can be due and is one of those that are read.
fn is_more_due(facts: &Facts, due_marks: &[bool], read_marks: &[bool], class: u32) -> bool
    ensures { result ≡ (slice_index_or due_marks.now class false
        || (specs.can_be_due facts.now class && slice_index_or read_marks.now class false)) }
{
    is_marked(due_marks, class) || can_be_due(facts, class) && is_marked(read_marks, class)
}

/// The due classes with what is always read for one of them. It goes over them and what they read once.
fn more_due(alloc: Global, makers: &Makers, due: &[u32]) -> Result<Vec<u32>, NoMemory>
    requires { AreMakersOf makers.now }
    ensures { IfOk result (λ more. more.items ≡ specs.more_due makers.now.frame.facts.now makers.now.spans.items
        due.now) }
{
    let read = read_for(alloc, makers, due)?;
    let read_marks = marked(alloc, makers.frame.facts, &read)?;
    let due_marks = marked(alloc, makers.frame.facts, due)?;
    let mut more = Vec::new(alloc);
    for class in 0..next_class(makers.frame.facts.graph()) {
        if is_more_due(makers.frame.facts, &due_marks, &read_marks, class) {
            more.push(class)?;
        }
    }
    Ok(more)
}

/// The due classes, rising. It goes on until a step finds no more.
pub fn due_classes(alloc: Global, makers: &Makers) -> Result<Vec<u32>, NoMemory>
    requires { AreMakersOf makers.now }
    ensures { IfOk result (λ due. due.items ≡ specs.due_classes makers.now.frame.facts.now makers.now.spans.items) }
{
    let mut due = first_due(alloc, makers.frame.facts)?;
    for _step in 0..next_class(makers.frame.facts.graph()) {
        let more = more_due(alloc, makers, &due)?;
        if more.as_slice() == due.as_slice() {
            return Ok(due);
        }
        due = more;
    }
    Ok(due)
}
