// The schedule of a claim, and its words and places, compared with those that are printed.
ghost use Rattle.std.specs.Prelude.{◌≡◌, ◌↔◌, ◌≤◌, IfOk, IfErr, IsTrue, OnOk};
ghost use Rattle.schedule_meaning.specs.Limits.{most_cycles};
ghost use Rattle.answer_check.specs.Soundness.{DoesAsClaimed, DoesAsListed};
ghost use Rattle.answer_check.specs.Verdicts.{HasListing, IsBroken, IsFitting, IsListed};
ghost use Rattle.answer_texts.specs.WellFormed.{FitsClaim};
ghost use Rattle.graph_meaning.specs.WellFormed.{IsLaunchGraph};
ghost use Rattle.machine_table.specs.Tables.{IsTable};
ghost use Rattle.schedule_meaning.specs.Fits.{Fits};

use answer_texts::Claim;
use graph_meaning::LaunchGraph;
use items::NoMemory;
use machine_table::Table;
use register_assign::{Where, assign, words_of};
use schedule_meaning::{Allocation, Broken, Schedule, fits};
use std::alloc::Global;

/// Whether the schedule of a claim fits.
pub(crate) fn fits_as_claimed(
    graph: &LaunchGraph,
    table: &Table,
    allocation: Allocation,
    claim: &Claim,
) -> Result<(), Broken>
    requires { FitsClaim claim.now }
    ensures fits { OnOk result (IsFitting table.now allocation graph.now claim.now) }
    ensures broken { IfErr result (λ b. IsBroken table.now allocation graph.now claim.now b.launch b.rule) }
{
    match claim {
        Claim::Scheduled { k, schedule, .. } => fits(graph, table, allocation, *k, schedule),
        Claim::NoWorld { .. } => Ok(()),
        Claim::Missing { .. } => Ok(()),
        Claim::SpentConflicts { .. } => Ok(()),
        Claim::SpentSize { .. } => Ok(()),
    }
}

fn same_words(ones: &[u32], others: &[u32]) -> bool
    ensures { IsTrue result ↔ (ones.now ≡ others.now) }
{
    ones == others
}

fn same_place(one: &Where, other: &Where) -> bool
    ensures { IsTrue result ↔ (one.now ≡ other.now) }
{
    one.reg == other.reg && one.name.same(&other.name)
}

fn same_places(ones: &[Where], others: &[Where]) -> bool
    ensures { IsTrue result ↔ (ones.now ≡ others.now) }
{
    if ones.len() != others.len() {
        return false;
    }
    for (at, one) in ones.iter().enumerate() {
        if !same_place(one, &others[at]) {
            return false;
        }
    }
    true
}

/// Whether these are the words and places of the schedule's listing.
fn is_listing(
    alloc: Global,
    graph: &LaunchGraph,
    table: &Table,
    allocation: Allocation,
    k: u32,
    schedule: &Schedule,
    words: &[u32],
    places: &[Where],
) -> Result<bool, NoMemory>
    requires graph { IsLaunchGraph graph.now }
    requires table { IsTable table.now }
    requires fits { Fits graph.now table.now allocation k schedule.now.launches }
    requires few { k ≤ most_cycles }
    ensures same { IfOk result
        (λ b. IsTrue b ↔ HasListing graph.now table.now allocation schedule.now.launches words.now places.now) }
    ensures does { IfOk result
        (λ b. IsTrue b → DoesAsListed table.now allocation graph.now k schedule.now.launches words.now places.now) }
{
    let listing = assign(alloc, graph, table, allocation, k, schedule)?;
    let own = words_of(alloc, listing.items.as_slice())?;
    let same = same_words(own.as_slice(), words);
    Ok(same && same_places(places, listing.wheres.as_slice()))
}

/// Whether the words and places of a claim whose schedule fits are those of its listing.
pub(crate) fn is_listed(
    alloc: Global,
    graph: &LaunchGraph,
    table: &Table,
    allocation: Allocation,
    claim: &Claim,
) -> Result<bool, NoMemory>
    requires graph { IsLaunchGraph graph.now }
    requires table { IsTable table.now }
    requires claim { FitsClaim claim.now }
    requires fits { IsFitting table.now allocation graph.now claim.now }
    ensures listed { IfOk result (λ b. IsTrue b ↔ IsListed table.now allocation graph.now claim.now) }
    ensures does { IfOk result (λ b. IsTrue b → DoesAsClaimed table.now allocation graph.now claim.now) }
{
    match claim {
        Claim::Scheduled {
            k,
            schedule,
            words,
            places,
        } => is_listing(
            alloc,
            graph,
            table,
            allocation,
            *k,
            schedule,
            words.as_slice(),
            places.as_slice(),
        ),
        Claim::NoWorld { .. } => Ok(true),
        Claim::Missing { .. } => Ok(true),
        Claim::SpentConflicts { .. } => Ok(true),
        Claim::SpentSize { .. } => Ok(true),
    }
}
