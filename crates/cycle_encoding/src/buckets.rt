// Launches and rows sorted into lists, in one pass over all of them.
ghost use Rattle.std.specs.Prelude.{◌≡◌, [], map, IfOk, OnOk};
ghost use Rattle.std.specs.List.{range_with_len};
ghost use Rattle.cycle_encoding.specs.Steps.{put_at};

use items::{Items, NoMemory};
use std::alloc::Global;

/// So many empty lists.
#[tactic(auto, using(crate::proofs::Tables::table_more))]
pub fn empty_lists<T: Drop>(alloc: Global, count: u32) -> Result<Vec<Items<T>>, NoMemory>
    ensures { IfOk result (λ lists. lists.items ≡ map (λ _. []) (range_with_len 0 count)) }
{
    let mut lists = Vec::new(alloc);
    for _made in 0..count {
        lists.push(Items::new(alloc))?;
    }
    Ok(lists)
}

/// Puts one thing more at the end of the list of a number, if there is one.
pub fn put_into<T: Copy>(lists: &mut Vec<Items<T>>, number: u32, item: T) -> Result<(), NoMemory>
    ensures { OnOk result (lists.new.items ≡ put_at lists.old.items number item) }
{
    if let Some(list) = lists.get_mut(number as usize) {
        list.push(item)?;
    }
    Ok(())
}
