// What a graph and a table say of a row and of a launch.
ghost use Rattle.std.specs.Prelude.{◌≡◌, ◌==◌, ◌&&◌, false, slice_index, slice_get, unwrap_or};
ghost use Rattle.std.specs.Option.{option_map_or};
ghost use Rattle.machine_table.specs.Tables as tables;
ghost use Rattle.machine_table.specs.declared.tables.InstrKind.TheVariants.{Beq};
ghost use Rattle.schedule_meaning.specs.Groups.{group_number};
ghost use Rattle.schedule_meaning.specs.Launches as launches;

use crate::schedules::{Group, Launch, To};
use graph_meaning::LaunchGraph;
use machine_table::{InstrKind, Table, operate_kind};
use word_ops::{Access, Op, Operate, WordOp};

/// The class of an operand by its place; 0 where there is none.
pub fn operand_class(operands: &[u32], at: usize) -> u32
    ensures { result ≡ slice_index operands.now at }
{
    match operands.get(at) {
        Some(class) => *class,
        None => 0,
    }
}

fn displaced(graph: &LaunchGraph, instr: InstrKind, class: u32) -> Option<InstrKind>
    ensures { result ≡ launches.displaced graph.now instr class }
{
    match graph.constant_of(class) {
        Some(_) => Some(instr),
        None => None,
    }
}

fn is_aligned(graph: &LaunchGraph, access: Access, operands: &[u32]) -> bool
    ensures { result ≡ launches.is_aligned graph.now access operands.now }
{
    access.alignment() <= graph.multiple_of(operand_class(operands, 1))
}

fn is_sum_aligned(graph: &LaunchGraph, access: Access, operands: &[u32]) -> bool
    ensures { result ≡ launches.is_sum_aligned graph.now access operands.now }
{
    let (base, displacement) = (operand_class(operands, 1), operand_class(operands, 2));
    graph.is_sum_multiple(access.alignment(), base, displacement)
}

/// The instruction of a row's operator, if it has one.
fn op_instr(graph: &LaunchGraph, op: Op, operands: &[u32]) -> Option<InstrKind>
    ensures { result ≡ launches.op_instr graph.now op operands.now }
{
    match op {
        Op::Word(WordOp::Lda) => displaced(graph, InstrKind::Lda, operand_class(operands, 1)),
        Op::Word(WordOp::Ldah) => displaced(graph, InstrKind::Ldah, operand_class(operands, 1)),
        Op::Word(op) => operate_kind(op),
        Op::Select(access) if is_aligned(graph, access, operands) => Some(InstrKind::Load(access)),
        Op::Store(access) if is_aligned(graph, access, operands) => Some(InstrKind::Store(access)),
        Op::Load(access) if is_sum_aligned(graph, access, operands) => {
            displaced(graph, InstrKind::Load(access), operand_class(operands, 2))
        }
        Op::Put(access) if is_sum_aligned(graph, access, operands) => {
            displaced(graph, InstrKind::Store(access), operand_class(operands, 2))
        }
        _ => None,
    }
}

/// The class that a row's number copies: behind the branch's number each set has one, and that of a set with a pin is
/// its copy.
pub fn copied_at(graph: &LaunchGraph, row: u32) -> Option<u32>
    ensures { result ≡ launches.copied_at graph.now row }
{
    if row as usize <= graph.rows.len() {
        return None;
    }
    match graph
        .sets
        .as_slice()
        .get(row as usize - (graph.rows.len() + 1))
    {
        Some(set) => match set.pin {
            Some(_) => Some(set.class),
            None => None,
        },
        None => None,
    }
}

/// The instruction of a row's number, where the row can be launched; that of the number one past the last row is the
/// branch of a guard, and a copy is a bis. It looks at each row in turn where the row has a displacement, twice where
/// its access doesn't take every address.
pub fn instr_at(graph: &LaunchGraph, row: u32) -> Option<InstrKind>
    ensures { result ≡ launches.instr_at graph.now row }
{
    if row as usize == graph.rows.len() {
        return match graph.guard {
            Some(_) => Some(InstrKind::Beq),
            None => None,
        };
    }
    if copied_at(graph, row).is_some() {
        return Some(InstrKind::Operate(Operate::Bis));
    }
    match graph.rows.as_slice().get(row as usize) {
        Some(found) => op_instr(graph, found.op, found.operands.as_slice()),
        None => None,
    }
}

/// The class of a row's number, for a copy that of its set; 0 where there is no such row.
pub fn class_at(graph: &LaunchGraph, row: u32) -> u32
    ensures { result ≡ launches.class_at graph.now row }
{
    if let Some(class) = copied_at(graph, row) {
        return class;
    }
    match graph.rows.as_slice().get(row as usize) {
        Some(found) => found.class,
        None => 0,
    }
}

/// The class of the memory that a load's or store's row reads: its first operand.
pub fn memory_class_at(graph: &LaunchGraph, row: u32) -> u32
    ensures { result ≡ launches.memory_class_at graph.now row }
{
    match graph.rows.as_slice().get(row as usize) {
        Some(row) => operand_class(row.operands.as_slice(), 0),
        None => 0,
    }
}

// ---- what an instruction does, if a row has one

/// Whether launches give a word: all but stores and branches do.
pub fn gives_word(instr: Option<InstrKind>) -> bool
    ensures { result ≡ option_map_or launches.gives_word instr false }
{
    match instr {
        Some(InstrKind::Store(_) | InstrKind::Beq) | None => false,
        Some(_) => true,
    }
}

pub fn is_load(instr: Option<InstrKind>) -> bool
    ensures { result ≡ option_map_or launches.is_load instr false }
{
    match instr {
        Some(InstrKind::Load(_)) => true,
        _ => false,
    }
}

pub fn is_store(instr: Option<InstrKind>) -> bool
    ensures { result ≡ option_map_or launches.is_store instr false }
{
    match instr {
        Some(InstrKind::Store(_)) => true,
        _ => false,
    }
}

pub fn is_branch(instr: Option<InstrKind>) -> bool
    ensures { result ≡ option_map_or launches.is_branch instr false }
{
    match instr {
        Some(InstrKind::Beq) => true,
        _ => false,
    }
}

/// Whether a launch of the instruction is of a row of the class and gives its word.
pub fn gives(graph: &LaunchGraph, class: u32, launch: Launch, instr: Option<InstrKind>) -> bool
    ensures { result
        ≡ (option_map_or launches.gives_word instr false && (launches.class_at graph.now launch.row == class)) }
{
    gives_word(instr) && class_at(graph, launch.row) == class
}

/// Whether a launch of the instruction takes a register of the pool: it goes there and gives a word.
pub fn takes_pool(launch: Launch, instr: Option<InstrKind>) -> bool
    ensures { result ≡ (launches.is_pool launch.to && option_map_or launches.gives_word instr false) }
{
    match launch.to {
        To::Pool => gives_word(instr),
        To::Set(_) => false,
    }
}

// ---- guards and pins

/// Whether loads wait for the guard's branch.
pub fn is_held(graph: &LaunchGraph) -> bool
    ensures { result ≡ launches.is_held graph.now }
{
    match graph.guard {
        Some(guard) => guard.held,
        None => false,
    }
}

/// The pinned register that a launch with this destination writes.
pub fn pin_of(graph: &LaunchGraph, to: To) -> Option<u8>
    ensures { result ≡ launches.pin_of graph.now to }
{
    match to {
        To::Pool => None,
        To::Set(number) => match graph.sets.as_slice().get(number as usize) {
            Some(set) => set.pin,
            None => None,
        },
    }
}

/// Whether the launch goes to a set that is pinned to the register.
pub fn writes_pin(graph: &LaunchGraph, register: u8, launch: Launch) -> bool
    ensures { result ≡ launches.writes_pin graph.now register launch }
{
    match pin_of(graph, launch.to) {
        Some(pin) => pin == register,
        None => false,
    }
}

/// Whether the launch goes to a set that is pinned to an input's register.
pub fn overwrites(graph: &LaunchGraph, launch: Launch) -> bool
    ensures { result ≡ launches.overwrites graph.now launch }
{
    match pin_of(graph, launch.to) {
        Some(pin) => graph.is_input_register(pin),
        None => false,
    }
}

/// The part of its cycle in which the launch's word stands.
pub fn group_of(graph: &LaunchGraph, launch: Launch) -> Group
    ensures { group_number result ≡ launches.group_of graph.now launch }
{
    if overwrites(graph, launch) {
        return Group::Overwriting;
    }
    match instr_at(graph, launch.row) {
        Some(InstrKind::Load(_)) => {
            if is_held(graph) {
                Group::HeldLoad
            } else {
                Group::Free
            }
        }
        Some(InstrKind::Beq) => Group::Branch,
        Some(InstrKind::Store(_)) => Group::Store,
        _ => Group::Free,
    }
}

/// The cluster of a slot; 0 where there is no such slot.
pub fn cluster_of(table: &Table, slot: u32) -> u8
    ensures { result ≡ tables.cluster_of table.now slot }
{
    match table.slots.as_slice().get(slot as usize) {
        Some(found) => found.cluster,
        None => 0,
    }
}

/// The cycle from which the word of a launch of the instruction is seen in a cluster. Where there is none it counts as
/// a branch.
pub fn ready_in(table: &Table, cluster: u8, launch: Launch, instr: Option<InstrKind>) -> u64
    ensures { result ≡ tables.ready table.now launch.cycle launch.slot (unwrap_or instr Beq) cluster }
{
    let instr = match instr {
        Some(instr) => instr,
        None => InstrKind::Beq,
    };
    let latency = match table.latency(instr) {
        Some(latency) => u64::from(latency),
        None => 0,
    };
    let cross = if cluster_of(table, launch.slot) == cluster {
        0
    } else {
        u64::from(table.cross())
    };
    u64::from(launch.cycle) + latency + cross
}
