// Whether a schedule fits, and what it breaks first.
ghost use Rattle.std.specs.Prelude.{◌≡◌, ◌↔◌, ◌≤◌, ◌<◌, ◌^◌, IsTrue, OnOk, IfErr, MatchOption, length};
ghost use Rattle.schedule_meaning.specs.Fits.{Fits};
ghost use Rattle.schedule_meaning.specs.Broken as broken;

use crate::destinations::can_go;
use crate::operands::can_read;
use crate::schedules::{Allocation, Launch, Schedule};
use crate::stores::{keeps_memory, memory_is_left};
use crate::targets::are_reached;
use crate::testing::{can_launch, ends_by, has_one_branch, has_room, is_alone, waits};
use graph_meaning::LaunchGraph;
use machine_table::Table;
use thiserror::Error;

/// The least broken rule, and the first launch that breaks it; the list's length for a rule on the whole schedule.
#[derive(Clone, Copy, Debug, Error)]
#[error("launch {launch} breaks rule {rule}")]
pub struct Broken {
    pub launch: u32,
    pub rule: u8,
}

/// What a schedule has to keep.
#[derive(Clone, Copy, PartialEq, Eq)]
pub enum Rule {
    /// Each launch is of a row that can be launched, of the branch or of a copy, in a slot that its instruction may
    /// use, and goes to the pool or to a pinned set whose word it gives. No load overwrites an input; by live ranges
    /// none does in the cycle of a store.
    Rows,
    /// No two launches have one slot and one cycle.
    Apart,
    /// Each operand needs no register, or can be read in the launch's cycle in its cluster.
    Operands,
    /// Each launch ends in time.
    InTime,
    /// Each word target without a pin is in some register at the end, and each pinned one in its pin: one launch goes
    /// to it, or none does and it is there from the start.
    Targets,
    /// Loads and stores read the memory that the stores of earlier cycles leave, no two stores are of one cycle, and
    /// the last leaves the memory target.
    Memory,
    /// With a guard there is one branch.
    OneBranch,
    /// No store is of an earlier cycle than the branch, nor is a load that waits for it, nor what overwrites an
    /// input.
    AfterBranch,
    /// There is a register for each launch to the pool that gives a word; by live ranges, in each cycle for each that
    /// holds one.
    Pool,
}

/// All rules, in the order of their numbers.
const RULES: [Rule; 9] = [
    Rule::Rows,
    Rule::Apart,
    Rule::Operands,
    Rule::InTime,
    Rule::Targets,
    Rule::Memory,
    Rule::OneBranch,
    Rule::AfterBranch,
    Rule::Pool,
];

impl Rule {
    /// From 1 to 9.
    pub fn number(self) -> u8
        ensures { result ≡ broken.number self }
    {
        match self {
            Rule::Rows => 1,
            Rule::Apart => 2,
            Rule::Operands => 3,
            Rule::InTime => 4,
            Rule::Targets => 5,
            Rule::Memory => 6,
            Rule::OneBranch => 7,
            Rule::AfterBranch => 8,
            Rule::Pool => 9,
        }
    }
}

/// A list of launches, with the graph, the table, the allocation and the cycles that it is to fit.
#[derive(Clone, Copy)]
struct Trial<'a> {
    graph: &'a LaunchGraph,
    table: &'a Table,
    allocation: Allocation,
    k: u32,
    list: &'a [Launch],
}

impl<'a> Trial<'a> {
    /// What the rule asks of the launch at a place.
    fn asks(&self, rule: Rule, at: usize, launch: Launch) -> bool
        requires { at ≤ length self.now.list.now }
        ensures { IsTrue result
            ↔ broken.Asks self.now.graph.now self.now.table.now self.now.allocation self.now.k self.now.list.now
            rule at launch }
    {
        match rule {
            Rule::Rows => {
                can_launch(self.graph, self.table, launch)
                    && can_go(self.graph, self.allocation, self.list, launch)
            }
            Rule::Apart => is_alone(self.list, at, launch),
            Rule::Operands => can_read(self.graph, self.table, self.list, launch),
            Rule::InTime => ends_by(self.graph, self.table, self.k, launch),
            Rule::Memory => keeps_memory(self.graph, self.list, at, launch),
            Rule::AfterBranch => waits(self.graph, self.list, launch),
            _ => true,
        }
    }

    /// What it asks of the schedule as a whole.
    fn asks_of_all(&self, rule: Rule) -> bool
        ensures { IsTrue result
            ↔ broken.AsksOfAll self.now.graph.now self.now.table.now self.now.allocation self.now.k self.now.list.now
            rule }
    {
        match rule {
            Rule::Targets => are_reached(self.graph, self.table, self.list),
            Rule::Memory => memory_is_left(self.graph, self.list),
            Rule::OneBranch => has_one_branch(self.graph, self.list),
            Rule::Pool => has_room(self.graph, self.allocation, self.k, self.list),
            _ => true,
        }
    }

    /// The first launch that breaks the rule; the list's length where the whole breaks it.
    fn first_broken(&self, rule: Rule) -> Option<u32>
        requires { length self.now.list.now < 2 ^ 29 }
        ensures { MatchOption result
            (broken.IsKept self.now.graph.now self.now.table.now self.now.allocation self.now.k self.now.list.now
            rule)
            (λ i. broken.Breaks self.now.graph.now self.now.table.now self.now.allocation self.now.k
            self.now.list.now rule i) }
    {
        for (at, launch) in self.list.iter().enumerate() {
            if !self.asks(rule, at, *launch) {
                return Some(at as u32);
            }
        }
        if !self.asks_of_all(rule) {
            return Some(self.list.len() as u32);
        }
        None
    }
}

/// Whether the schedule fits the graph and the table in k cycles, and if not, the least rule that it breaks and the
/// first launch that breaks it. The graph and the table may be any. Each rule is tested on the whole list before the
/// next, so it makes at most the square of the launches in steps, times the graph's rows. By live ranges the rule on the
/// pool, which is the last, goes over all launches' operands for each launch in each of the k cycles. It takes no
/// memory.
pub fn fits(
    graph: &LaunchGraph,
    table: &Table,
    allocation: Allocation,
    k: u32,
    schedule: &Schedule,
) -> Result<(), Broken>
    requires few { length schedule.now.launches < 2 ^ 29 }
    ensures fits { OnOk result (Fits graph.now table.now allocation k schedule.now.launches) }
    ensures broken { IfErr result
        (λ b. broken.IsFirstBroken graph.now table.now allocation k schedule.now.launches b.launch b.rule) }
    ensures not { IfErr result (λ b. ¬ Fits graph.now table.now allocation k schedule.now.launches) }
{
    let trial = Trial {
        graph,
        table,
        allocation,
        k,
        list: schedule.launches.as_slice(),
    };
    for rule in &RULES {
        if let Some(launch) = trial.first_broken(*rule) {
            return Err(Broken {
                launch,
                rule: rule.number(),
            });
        }
    }
    Ok(())
}
