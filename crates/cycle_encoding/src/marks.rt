// Tables of classes that are made in one pass over rows.
ghost use Rattle.std.specs.Prelude.{◌≡◌, None, false, map, IfOk};
ghost use Rattle.std.specs.List.{range_with_len};
ghost use Rattle.cycle_encoding.specs.Facts as specs;

use items::NoMemory;
use std::alloc::Global;

/// A table with the same for each class.
#[tactic(auto, using(crate::proofs::Tables::table_more))]
pub fn filled<T: Copy>(alloc: Global, value: T, classes: u32) -> Result<Vec<T>, NoMemory>
    ensures { IfOk result (λ table. table.items ≡ map (λ _. value) (range_with_len 0 classes)) }
{
    let mut table = Vec::new(alloc);
    for _made in 0..classes {
        table.push(value)?;
    }
    Ok(table)
}

/// Marks a class that passes, if the table has it.
pub fn mark(marks: &mut Vec<bool>, class: u32, passes: bool)
    ensures { marks.new.items ≡ specs.class_marked marks.old.items class passes }
{
    if passes {
        if let Some(mark) = marks.get_mut(class as usize) {
            *mark = true;
        }
    }
}

/// Gives a class a constant, if the table has the class and it has none.
pub fn give_constant(constants: &mut Vec<Option<u64>>, class: u32, constant: Option<u64>)
    ensures { constants.new.items ≡ specs.with_constant constants.old.items class constant }
{
    if let Some(first) = constants.get_mut(class as usize) {
        if first.is_none() {
            *first = constant;
        }
    }
}
