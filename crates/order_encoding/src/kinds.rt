// Which launches wait for the branch, which go to a set, and the launches of a kind.
ghost use Rattle.std.specs.Prelude.{◌≡◌, ◌<◌, ◌^◌, [], ◌∷◌, ◌++◌, if◌then◌else◌, length, IfOk, OnOk};
ghost use Rattle.schedule_meaning.specs.Launches as specs;
ghost use Rattle.cycle_encoding.specs.Counts.{row_is};
ghost use Rattle.cycle_encoding.specs.Narrow.{accesses};
ghost use Rattle.cycle_encoding.specs.Shapes.{positive};
ghost use Rattle.order_encoding.specs.OrderCounts as counts;
ghost use Rattle.order_encoding.specs.OrderSteps.{launched_in};

use cnf_core::Lit;
use cycle_encoding::Facts;
use items::NoMemory;
use machine_table::InstrKind;
use schedule_meaning::{Launch, To, is_branch, is_held, is_load, is_store};
use std::alloc::Global;

/// Whether a launch of the row may come in no earlier cycle than the branch.
pub fn waits(facts: &Facts, row: u32) -> bool
    ensures { result ≡ counts.row_waits facts.now row }
{
    let instr = facts.instr_at(row);
    is_store(instr) || is_load(instr) && is_held(facts.graph())
}

/// Whether the row is a load or a store.
pub fn accesses(facts: &Facts, row: u32) -> bool
    ensures { result ≡ row_is facts.now accesses row }
{
    match facts.instr_at(row) {
        Some(InstrKind::Load(_) | InstrKind::Store(_)) => true,
        _ => false,
    }
}

/// Whether the launch goes to the set of this number.
pub fn goes_to(launch: Launch, set: u32) -> bool
    ensures { result ≡ specs.goes_to set launch }
{
    match launch.to {
        To::Pool => false,
        To::Set(number) => number == set,
    }
}

/// The stores, with their variables.
pub fn stores(
    alloc: Global,
    facts: &Facts,
    launches: &[Launch],
) -> Result<Vec<(u32, Launch)>, NoMemory>
    requires few { length launches.now < 2 ^ 29 }
    ensures { IfOk result (λ found. found.items ≡ launched_in facts.now specs.is_store launches.now) }
{
    let mut found = Vec::new(alloc);
    for (index, launch) in launches.iter().enumerate() {
        if is_store(facts.instr_at(launch.row)) {
            found.push((index as u32 + 1, *launch))?;
        }
    }
    Ok(found)
}

/// The launches of the branch, with their variables.
pub fn branches(
    alloc: Global,
    facts: &Facts,
    launches: &[Launch],
) -> Result<Vec<(u32, Launch)>, NoMemory>
    requires few { length launches.now < 2 ^ 29 }
    ensures { IfOk result (λ found. found.items ≡ launched_in facts.now specs.is_branch launches.now) }
{
    let mut found = Vec::new(alloc);
    for (index, launch) in launches.iter().enumerate() {
        if is_branch(facts.instr_at(launch.row)) {
            found.push((index as u32 + 1, *launch))?;
        }
    }
    Ok(found)
}

/// Puts the variable at the end, if it passes.
pub fn push_var_if(lits: &mut Vec<Lit>, passes: bool, var: u32) -> Result<(), NoMemory>
    ensures { OnOk result (lits.new.items ≡ lits.old.items ++ (if passes then positive var ∷ [] else [])) }
{
    if passes {
        lits.push(Lit {
            var,
            positive: true,
        })?;
    }
    Ok(())
}
