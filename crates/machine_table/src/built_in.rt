// The table of the Alpha 21264's integer pipes.
ghost use Rattle.std.specs.Prelude.{◌≡◌, ◌++◌, OnOk, IfOk, map};
ghost use Rattle.machine_table.specs.Tables as specs;
ghost use Rattle.machine_table.specs.Tables.{slot_of, uses_of};

use crate::tables::{InstrKind, Slot, Table, Use};
use items::{Items, NoMemory};
use std::alloc::Global;
use text_core::Name;
use word_ops::{Access, OPERATES, OperateRow, Pipes};

// Where the pipes are on this machine, and how long they take.
fn pipe_slots(pipes: Pipes) -> &'static [u32]
    ensures { result.now ≡ specs.pipe_slots pipes }
{
    match pipes {
        Pipes::Any => &[0, 1, 2, 3],
        Pipes::Shifters => &[0, 1],
        Pipes::Multiplier => &[1],
    }
}

fn pipe_latency(pipes: Pipes) -> u32
    ensures { result ≡ specs.pipe_latency pipes }
{
    match pipes {
        Pipes::Multiplier => 7,
        Pipes::Any | Pipes::Shifters => 1,
    }
}

/// The operates' uses, in the order of the operates.
fn operate_uses(alloc: Global, rows: &[OperateRow]) -> Result<Items<Use>, NoMemory>
    ensures { IfOk result (λ uses. uses ≡ map (λ row. specs.operate_use row.operate) rows.now) }
{
    let mut uses = Items::new(alloc);
    for row in rows {
        let pipes = row.operate.pipes();
        uses.push(Use {
            instr: InstrKind::Operate(row.operate),
            latency: pipe_latency(pipes),
            slots: Items::from_slice(alloc, pipe_slots(pipes))?,
        })?;
    }
    Ok(uses)
}

/// Adds uses of one latency and the same slots.
fn add(
    alloc: Global,
    uses: &mut Items<Use>,
    latency: u32,
    slots: &[u32],
    instrs: &[InstrKind],
) -> Result<(), NoMemory>
    ensures { OnOk result (uses.new ≡ uses.old ++ uses_of latency slots.now instrs.now) }
{
    for instr in instrs {
        uses.push(Use {
            instr: *instr,
            latency,
            slots: Items::from_slice(alloc, slots)?,
        })?;
    }
    Ok(())
}

fn slot(alloc: Global, name: &[u8], cluster: u8) -> Result<Slot, NoMemory>
    ensures { IfOk result (λ slot. slot ≡ slot_of name.now cluster) }
{
    Ok(Slot {
        name: Name::new(alloc, name)?,
        cluster,
    })
}

/// The four integer pipes in their two clusters.
#[tactic(auto, unfolding(crate::specs::Tables::ev6))]
fn pipes(alloc: Global) -> Result<Items<Slot>, NoMemory>
    ensures { IfOk result (λ slots. slots ≡ specs.ev6.slots) }
{
    let mut slots = Items::new(alloc);
    slots.push(slot(alloc, b"U0", 0)?)?;
    slots.push(slot(alloc, b"U1", 1)?)?;
    slots.push(slot(alloc, b"L0", 0)?)?;
    slots.push(slot(alloc, b"L1", 1)?)?;
    Ok(slots)
}

#[tactic(auto, unfolding(crate::specs::Tables::ev6))]
fn uses(alloc: Global) -> Result<Items<Use>, NoMemory>
    ensures { IfOk result (λ uses. uses ≡ specs.ev6.uses) }
{
    let upper = pipe_slots(Pipes::Shifters);
    let lower = [2, 3];
    let mut uses = operate_uses(alloc, &OPERATES)?;
    add(
        alloc,
        &mut uses,
        1,
        pipe_slots(Pipes::Any),
        &[InstrKind::Lda, InstrKind::Ldah],
    )?;
    add(
        alloc,
        &mut uses,
        3,
        &lower,
        &[InstrKind::Load(Access::Quad)],
    )?;
    add(
        alloc,
        &mut uses,
        1,
        &lower,
        &[InstrKind::Store(Access::Quad)],
    )?;
    add(
        alloc,
        &mut uses,
        3,
        &lower,
        &[
            InstrKind::Load(Access::Byte),
            InstrKind::Load(Access::Word),
            InstrKind::Load(Access::Long),
        ],
    )?;
    add(
        alloc,
        &mut uses,
        1,
        &lower,
        &[
            InstrKind::Store(Access::Byte),
            InstrKind::Store(Access::Word),
            InstrKind::Store(Access::Long),
        ],
    )?;
    add(alloc, &mut uses, 1, upper, &[InstrKind::Beq])?;
    Ok(uses)
}

/// The table of the Alpha 21264: its slots are U0, U1, L0 and L1.
#[tactic(auto, unfolding(crate::specs::Tables::ev6))]
pub fn ev6(alloc: Global) -> Result<Table, NoMemory>
    ensures { IfOk result (λ table. table ≡ specs.ev6) }
{
    Ok(Table {
        slots: pipes(alloc)?,
        cross: 1,
        uses: uses(alloc)?,
    })
}
