// Copies of the parts of a proc, in memory of their own.
ghost use Rattle.std.specs.Prelude.{◌≡◌, IfOk, map, option_map};
ghost use Rattle.goal_meaning.specs.Views.{target_view};
ghost use Rattle.proc_goal.specs.Views.{WhenTree, when_view};
ghost use Rattle.word_terms.specs.View.{tree_of};

use crate::procs::When;
use goal_meaning::{InputReg, Set};
use items::{Items, NoMemory};
use machine_table::{Slot, Table, Use};
use std::alloc::Global;
use word_ops::Op;
use word_terms::Term;

fn slots(alloc: Global, slots: &[Slot]) -> Result<Items<Slot>, NoMemory>
    ensures { IfOk result (λ copies. copies ≡ slots.now) }
{
    let mut copies = Items::new(alloc);
    for slot in slots {
        let name = slot.name.copy()?;
        let cluster = slot.cluster;
        copies.push(Slot { name, cluster })?;
    }
    Ok(copies)
}

fn uses(alloc: Global, uses: &[Use]) -> Result<Items<Use>, NoMemory>
    ensures { IfOk result (λ copies. copies ≡ uses.now) }
{
    let mut copies = Items::new(alloc);
    for one in uses {
        let slots = Items::from_slice(alloc, one.slots.as_slice())?;
        let instr = one.instr;
        let latency = one.latency;
        copies.push(Use {
            instr,
            latency,
            slots,
        })?;
    }
    Ok(copies)
}

pub(crate) fn table(alloc: Global, table: &Table) -> Result<Table, NoMemory>
    ensures { IfOk result (λ copy. copy ≡ table.now) }
{
    let slots = slots(alloc, table.slots.as_slice())?;
    let uses = uses(alloc, table.uses.as_slice())?;
    let cross = table.cross;
    Ok(Table { slots, cross, uses })
}

pub(crate) fn variables(alloc: Global, vars: &[InputReg]) -> Result<Items<InputReg>, NoMemory>
    ensures { IfOk result (λ copies. copies ≡ vars.now) }
{
    let mut copies = Items::new(alloc);
    for var in vars {
        let name = var.name.copy()?;
        let reg = var.reg;
        copies.push(InputReg { name, reg })?;
    }
    Ok(copies)
}

/// The guard alone.
pub(crate) fn guard(alloc: Global, when: &Option<When>) -> Result<Option<Term<Op>>, NoMemory>
    ensures { IfOk result (λ guard. option_map tree_of guard
        ≡ option_map (λ (w : WhenTree). w.guard) (option_map when_view when.now)) }
{
    match when {
        Some(when) => Ok(Some(when.guard.copy(alloc)?)),
        None => Ok(None),
    }
}

fn set(alloc: Global, set: &Set) -> Result<Set, NoMemory>
    ensures { IfOk result (λ copy. target_view copy ≡ target_view set.now) }
{
    let name = set.name.copy()?;
    let value = set.value.copy(alloc)?;
    let pin = set.pin;
    Ok(Set { name, value, pin })
}

pub(crate) fn sets(alloc: Global, sets: &[Set]) -> Result<Items<Set>, NoMemory>
    ensures { IfOk result (λ copies. map target_view copies ≡ map target_view sets.now) }
{
    let mut copies = Items::new(alloc);
    for one in sets {
        copies.push(set(alloc, one)?)?;
    }
    Ok(copies)
}
