// In which slots and cycles an instruction may be launched.
ghost use Rattle.std.specs.Prelude.{◌≡◌, ◌+◌, ◌-◌, ◌≤◌, ◌&&◌, nat_le, nat_lt};
ghost use Rattle.schedule_meaning.specs.Limits.{most_cycles};
ghost use Rattle.cycle_encoding.specs.Facts as facts;

use machine_table::{InstrKind, Table};
use schedule_meaning::Launch;

/// A launch, with its variable.
#[derive(Clone, Copy)]
pub struct Made {
    pub var: u32,
    pub launch: Launch,
}

/// In how many cycles an instruction can begin, from a first one, that ends by k.
pub fn cycles(k: u32, latency: u32, first: u32) -> u32
    requires { k ≤ most_cycles }
    ensures { result ≡ k + 1 - latency - first }
{
    (k + 1).saturating_sub(latency).saturating_sub(first)
}

/// Whether an instruction can begin in a cycle, from a first one, if it has to end by k.
pub fn can_begin(k: u32, latency: u32, first: u32, cycle: u32) -> bool
    requires { k ≤ most_cycles }
    ensures { result ≡ (nat_le first cycle && nat_lt cycle (k + 1 - latency)) }
{
    first <= cycle && cycle < (k + 1).saturating_sub(latency)
}

/// Whether the instruction may be launched in the slot.
#[tactic(auto, using(crate::proofs::Listed::may_is))]
pub fn may_use(table: &Table, instr: InstrKind, slot: u32) -> bool
    ensures { result ≡ facts.may_use table.now instr slot }
{
    table.may_use(instr, slot)
}
