// Which classes stand in a list, as a mark for each class of a graph.
ghost use Rattle.std.specs.Prelude.{◌≡◌, false, map, slice_index_or, IfOk};
ghost use Rattle.graph_meaning.specs.WellFormed.{IsLaunchGraph};
ghost use Rattle.cycle_encoding.specs.Variables.{classes_of};
ghost use Rattle.slot_capacity.specs.Makers as specs;

use cycle_encoding::{Facts, filled, mark, next_class};
use items::NoMemory;
use std::alloc::Global;

/// For each class whether it stands in the list.
pub fn marked(alloc: Global, facts: &Facts, classes: &[u32]) -> Result<Vec<bool>, NoMemory>
    requires { IsLaunchGraph facts.now }
    ensures { IfOk result (λ marks. marks.items ≡ map (specs.has classes.now) (classes_of facts.now)) }
{
    let mut marks = filled(alloc, false, next_class(facts.graph()))?;
    for class in classes {
        mark(&mut marks, *class, true);
    }
    Ok(marks)
}

/// Whether the class is marked.
pub fn is_marked(marks: &[bool], class: u32) -> bool
    ensures { result ≡ slice_index_or marks.now class false }
{
    match marks.get(class as usize) {
        Some(mark) => *mark,
        None => false,
    }
}
