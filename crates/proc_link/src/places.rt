// Where the blocks' words stand.
ghost use Rattle.std.specs.Prelude.{◌≡◌, ◌+◌, ◌*◌, ◌<◌, ◌≤◌, ◌^◌, All, IfOk, length};
ghost use Rattle.text_core.specs.Limits.{most_blocks};
ghost use Rattle.schedule_meaning.specs.Limits.{most_launches};
ghost use Rattle.proc_goal.specs.WellFormed.{IsProcTarget};
ghost use Rattle.proc_link.specs.Linked as format;
ghost use Rattle.proc_link.specs.Placed.{AreListingPlaces, place_by_starts};
ghost use Rattle.register_assign.specs.declared.listings.Listing.{Listing as ListingOf};

use items::{Items, NoMemory};
use proc_goal::Target;
use register_assign::Listing;
use std::alloc::Global;

/// The address of each block's first word, in bytes, and the number of all words.
#[derive(Drop)]
pub(crate) struct Places {
    pub(crate) starts: Items<u32>,
    pub(crate) end: u32,
}

/// Where the words of each listing begin, with a word more behind each.
pub(crate) fn lay_out(alloc: Global, listings: &[Listing]) -> Result<Places, NoMemory>
    requires few { length listings.now ≤ most_blocks }
    requires short { All (λ (l : ListingOf). length l.items ≤ most_launches) listings.now }
    ensures { IfOk result (AreListingPlaces (format.all_instrs listings.now)) }
{
    let mut starts = Items::new(alloc);
    let mut end = 0;
    for listing in listings {
        starts.push(4 * end)?;
        end += listing.items.len() as u32 + 1;
    }
    Ok(Places { starts, end })
}

/// The place of a block's first word among the words, or that behind the last word.
pub(crate) fn place(places: &Places, target: Target) -> u32
    requires { IsProcTarget (length places.now.starts) target }
    ensures { result ≡ place_by_starts places.now.starts places.now.end target }
{
    match target {
        Target::Block(at) => places.starts.as_slice()[at as usize] / 4,
        Target::Done => places.end,
    }
}
