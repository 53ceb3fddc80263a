// What a table says of an instruction and of a slot.
ghost use Rattle.std.specs.Prelude.{◌≡◌, ◌<◌, ◌↔◌, IsTrue, None, Some, MatchOption, length};
ghost use Rattle.machine_table.specs.Tables.{latency_of, MayUse, cluster_of, use_of};

use crate::names::instr_number;
use crate::tables::{InstrKind, Table, Use};

impl Table {
    fn use_of(&self, instr: InstrKind) -> Option<&Use>
        ensures { MatchOption result (use_of self.now instr ≡ None) (λ u. use_of self.now instr ≡ Some u.now) }
    {
        for one in self.uses.as_slice() {
            if instr_number(one.instr) == instr_number(instr) {
                return Some(one);
            }
        }
        None
    }

    /// How many cycles the instruction takes, where the table names it.
    pub fn latency(&self, instr: InstrKind) -> Option<u32>
        ensures { result ≡ latency_of self.now instr }
    {
        match self.use_of(instr) {
            Some(one) => Some(one.latency),
            None => None,
        }
    }

    /// Whether the instruction may be launched in the slot, which it may not where the table has no such slot.
    pub fn may_use(&self, instr: InstrKind, slot: u32) -> bool
        ensures { IsTrue result ↔ MayUse self.now instr slot }
    {
        match self.use_of(instr) {
            Some(one) => one.slots.as_slice().contains(&slot),
            None => false,
        }
    }

    /// The cluster that the slot is in, from 0.
    pub fn cluster(&self, slot: u32) -> u8
        requires { slot < length self.now.slots }
        ensures { result ≡ cluster_of self.now slot }
    {
        self.slots.as_slice()[slot as usize].cluster
    }

    /// How many cycles later a value is seen in another cluster.
    pub fn cross(&self) -> u32
        ensures { result ≡ self.now.cross }
    {
        self.cross
    }
}
