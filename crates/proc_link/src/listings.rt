// The listings of results, copied.
ghost use Rattle.std.specs.Prelude.{◌≡◌, IfOk, option_map};
ghost use Rattle.proc_link.specs.ProcAnswers as answers;

use denali_run::Answered;
use items::{Items, NoMemory};
use register_assign::{Listing, Where};
use std::alloc::Global;

fn wheres(alloc: Global, wheres: &[Where]) -> Result<Items<Where>, NoMemory>
    ensures { IfOk result (λ copies. copies ≡ wheres.now) }
{
    let mut copies = Items::new(alloc);
    for place in wheres {
        let name = place.name.copy()?;
        let reg = place.reg;
        copies.push(Where { name, reg })?;
    }
    Ok(copies)
}

/// The listing of a result, if it has one.
fn listing(alloc: Global, answered: &Answered) -> Result<Option<Listing>, NoMemory>
    ensures { IfOk result (λ found. found ≡ answers.listing_of answered.now) }
{
    match answered {
        Answered::Scheduled(found) => Ok(Some(Listing {
            items: Items::from_slice(alloc, found.listing.items.as_slice())?,
            wheres: wheres(alloc, found.listing.wheres.as_slice())?,
        })),
        Answered::Nowhere(_) => Ok(None),
        Answered::SpentConflicts(_) => Ok(None),
        Answered::SpentSize(_) => Ok(None),
        Answered::NoWorld { .. } => Ok(None),
    }
}

/// The listings of the results, if each has one.
pub(crate) fn all_listings(
    alloc: Global,
    results: &[Answered],
) -> Result<Option<Vec<Listing>>, NoMemory>
    ensures { IfOk result (λ found. option_map (λ v. v.items) found ≡ answers.listings_of results.now) }
{
    let mut listings = Vec::new(alloc);
    for answered in results {
        match listing(alloc, answered)? {
            Some(listing) => listings.push(listing)?,
            None => return Ok(None),
        }
    }
    Ok(Some(listings))
}
