// How many launches a row has, whatever their destinations; and what counts may be.
ghost use Rattle.std.specs.Prelude.{◌≡◌, ◌+◌, ◌*◌, ◌<◌, ◌≤◌, ◌^◌, ◌||◌, ◌↔◌, ◌⊎◌, nat_lt, length, IfErr, IsTrue, OnOk};
ghost use Rattle.std.specs.List.{count_by, range_with_len};
ghost use Rattle.cycle_encoding.specs.Framed.{IsFrame, over};
ghost use Rattle.cycle_encoding.specs.Limits.{most_vars, most_clauses};
ghost use Rattle.schedule_meaning.specs.Limits.{most_cycles};
ghost use Rattle.cnf_core.specs.Counter as counter;
ghost use Rattle.cnf_core.specs.Formula.{Formula};
ghost use Rattle.cycle_encoding.specs.Steps as steps;
ghost use Rattle.machine_table.specs.Tables.{IsTable};
ghost use Rattle.cycle_encoding.specs.Counts as counts;
ghost use Rattle.cycle_encoding.specs.Facts as specs;
ghost use Rattle.cycle_encoding.specs.Faults.{EncodeFaultIs};
ghost use Rattle.cycle_encoding.specs.Plans.{IsTooLarge};

use crate::launches::{can_begin, cycles, may_use};
use crate::seen::has_cluster;
use crate::{EncodeFault, Facts, Frame, Scope};
use machine_table::{InstrKind, Table};

/// The most variables that a formula may have.
const MOST_VARS: u64 = 262144;

/// The most clauses.
const MOST_CLAUSES: u64 = 2000000;

/// How many slots the instruction may use.
#[tactic(auto, using(crate::proofs::Tallies::count_more))]
pub fn slot_count(table: &Table, instr: InstrKind) -> u64
    requires table { IsTable table.now }
    ensures value { result ≡ count_by (specs.may_use table.now instr) (range_with_len 0 (length table.now.slots)) }
    ensures few { result ≤ 8 }
{
    let mut count = 0;
    for slot in 0..table.slots.len() as u32 {
        count += u64::from(may_use(table, instr, slot));
    }
    count
}

/// How many launches a row has.
#[tactic(auto, using(crate::proofs::Tallies::count_is, crate::proofs::Tallies::count_without_first, crate::proofs::Tallies::count_without_use, crate::proofs::Tallies::count_without_instr))]
pub fn row_count(facts: &Facts, table: &Table, scope: &Scope, k: u32, row: u32) -> u64
    requires table { IsTable table.now }
    requires cycles { k ≤ most_cycles }
    ensures value { result ≡ counts.row_count facts.now table.now k scope.now row }
    ensures few { result ≤ 200 }
{
    let Some(instr) = facts.instr_at(row) else {
        return 0;
    };
    let Some(latency) = table.latency(instr) else {
        return 0;
    };
    let Some(first) = scope.first(row) else {
        return 0;
    };
    slot_count(table, instr) * u64::from(cycles(k, latency, first))
}

/// How many variables a counter up to one takes.
pub fn one_vars(literals: u64) -> u64
    ensures value { result ≡ counter.at_most_vars 1 literals }
    ensures few { result ≤ literals }
{
    if literals <= 1 { 0 } else { literals - 1 }
}

/// How many clauses a counter up to one has.
pub fn one_size(literals: u64) -> u64
    requires { literals < 2 ^ 60 }
    ensures value { result ≡ counter.at_most_size 1 literals }
    ensures few { result ≤ 3 * literals }
{
    if literals <= 1 {
        0
    } else {
        (literals - 1) + (literals - 2) + (literals - 1)
    }
}

/// Whether some launch of the row is in a slot and cycle.
#[tactic(auto, using(crate::proofs::Tallies::has_is, crate::proofs::Tallies::has_without_first, crate::proofs::Tallies::has_without_use, crate::proofs::Tallies::has_without_instr))]
pub fn row_has(frame: &Frame, slot: u32, cycle: u32, row: u32) -> bool
    requires frame { IsFrame frame.now }
    ensures { result ≡ over frame.now counts.row_has slot cycle row }
{
    let Some(instr) = frame.facts.instr_at(row) else {
        return false;
    };
    let Some(latency) = frame.table.latency(instr) else {
        return false;
    };
    let Some(first) = frame.scope.first(row) else {
        return false;
    };
    may_use(frame.table, instr, slot) && can_begin(frame.k, latency, first, cycle)
}

/// How many numbers of clusters some slot has.
#[tactic(auto, using(crate::proofs::Tallies::count_more))]
pub fn cluster_count(table: &Table) -> u64
    ensures value { result ≡ count_by (steps.has_cluster table.now) (range_with_len 0 4) }
    ensures few { result ≤ 4 }
{
    let mut count = 0;
    for cluster in 0..4u8 {
        count += u64::from(has_cluster(table, cluster));
    }
    count
}

/// Two counts of a formula or of a part of one.
#[derive(Clone, Copy)]
pub struct Sizes {
    pub vars: u64,
    pub clauses: u64,
}

impl Sizes {
    /// Whether one of the counts passes its limit.
    pub fn pass_limit(self) -> bool
        ensures value { result ≡ (nat_lt most_vars self.vars || nat_lt most_clauses self.clauses) }
        ensures exact { IsTrue result ↔ ((most_vars < self.vars) ⊎ (most_clauses < self.clauses)) }
    {
        self.vars > MOST_VARS || self.clauses > MOST_CLAUSES
    }

    /// Refuses counts of which one passes its limit.
    pub fn within_limits(self) -> Result<(), EncodeFault>
        ensures size { IfErr result (λ fault. (f : Formula) → self.vars ≡ f.vars → self.clauses ≡ length f.clauses
            → EncodeFaultIs f fault) }
        ensures within { OnOk result ((f : Formula) → self.vars ≡ f.vars → self.clauses ≡ length f.clauses
            → ¬ IsTooLarge f) }
        ensures few_vars { OnOk result (self.vars ≤ most_vars) }
        ensures few_clauses { OnOk result (self.clauses ≤ most_clauses) }
    {
        if self.pass_limit() {
            return Err(EncodeFault::Size {
                vars: self.vars,
                clauses: self.clauses,
            });
        }
        Ok(())
    }
}
