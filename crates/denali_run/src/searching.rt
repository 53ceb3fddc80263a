// Numbers of cycles in rising order, until they are enough.
ghost use Rattle.std.specs.Prelude.{◌≡◌, ◌≤◌, IfOk};
ghost use Rattle.schedule_meaning.specs.Limits.{most_cycles};
ghost use Rattle.cycle_encoding.specs.CycleFormula.{allocation_in};
ghost use Rattle.cycle_encoding.specs.Encodings.{IsScope};
ghost use Rattle.goal_meaning.specs.Views.{GoalTree, InputTree};
ghost use Rattle.graph_meaning.specs.WellFormed.{IsLaunchGraph};
ghost use Rattle.machine_table.specs.Tables.{IsTable};
ghost use Rattle.order_encoding.specs.WholeFormula.{formula_in};
ghost use Rattle.denali_run.specs.Encodings.{encoding_in};
ghost use Rattle.denali_run.specs.MatchedGoals.{IsMatched, IsSettings};
ghost use Rattle.denali_run.specs.Right.{Right};
ghost use Rattle.denali_run.specs.Trials.{IsTrialsEnd, IsTrialsEndIn, IsTrial};

use crate::results::{Answered, Found, Large, Matched, Missing, Tried};
use crate::settings::Settings;
use cnf_core::{Lines, refutations_leave_no_solution};
use cycle_encoding::{EncodeFault, Facts, Scope};
use graph_meaning::LaunchGraph;
use items::{Items, NoMemory};
use machine_table::Table;
use order_encoding::{build_formula, each_encoding_says_fits};
use pick_rule::Pick;
use register_assign::{assign, words_of};
use sat_core::{Verdict, solve};
use schedule_meaning::{Schedule, fits_in_any_order};
use schedule_reader::read_off;
use std::alloc::{AllocError, Global};

/// What the clauses for a number of cycles come to.
#[derive(Drop)]
pub enum Trial {
    Fitting(Schedule),
    Refuted(Lines),
    Spent(Lines),
    Large { vars: u64, clauses: u64 },
}

/// Whether `k` cycles are enough.
pub(crate) fn try_cycles(
    alloc: Global,
    graph: &LaunchGraph,
    facts: &Facts,
    table: &Table,
    scope: &Scope,
    k: u32,
    conflicts: u32,
    pick: Pick,
) -> Result<Trial, NoMemory>
    requires cycles { k ≤ most_cycles }
    requires table { IsTable table.now }
    requires graph { IsLaunchGraph graph.now }
    requires facts { facts.now ≡ graph.now }
    requires scope { IsScope scope.now.encoding facts.now table.now scope.now }
    requires conflicts { (1 ≤ conflicts) × (conflicts ≤ 1000000) }
    ensures { IfOk result (IsTrial (formula_in scope.now facts.now table.now) graph.now table.now
        (allocation_in scope.now) k conflicts) }
{
    refutations_leave_no_solution();
    fits_in_any_order();
    each_encoding_says_fits();
    let encoded = match build_formula(alloc, facts, table, scope, k) {
        Ok(encoded) => encoded,
        Err(EncodeFault::Size { vars, clauses }) => return Ok(Trial::Large { vars, clauses }),
        Err(EncodeFault::Memory) => return Err(AllocError),
    };
    match solve(alloc, &encoded.cnf, pick, conflicts)? {
        Verdict::Sat(values) => {
            let schedule = read_off(alloc, &encoded.plan, values.as_slice())?;
            Ok(Trial::Fitting(schedule))
        }
        Verdict::Refuted(lines) => Ok(Trial::Refuted(lines)),
        Verdict::Spent(lines) => Ok(Trial::Spent(lines)),
    }
}

/// Where the trial of numbers of cycles in rising order ended: at the first that is enough or spent a budget, or at the
/// last that was asked for. `below` refutes the clauses for one cycle less, where `k` isn't 0.
#[derive(Drop)]
pub struct Reached {
    pub k: u32,
    pub below: Option<Lines>,
    pub trial: Trial,
}

/// Tries numbers of cycles in rising order. What the graph and the table say, and what has variables, was found once for
/// all of them.
fn reach_in(
    alloc: Global,
    graph: &LaunchGraph,
    facts: &Facts,
    table: &Table,
    scope: &Scope,
    settings: &Settings,
) -> Result<Reached, NoMemory>
    requires table { IsTable table.now }
    requires settings { IsSettings settings.now }
    requires graph { IsLaunchGraph graph.now }
    requires facts { facts.now ≡ graph.now }
    requires scope { IsScope (encoding_in settings.now) facts.now table.now scope.now }
    ensures { IfOk result (IsTrialsEnd (formula_in scope.now facts.now table.now) graph.now table.now settings.now) }
{
    let mut k = 0;
    let mut below = None;
    loop {
        let trial = try_cycles(
            alloc,
            graph,
            facts,
            table,
            scope,
            k,
            settings.conflicts,
            settings.pick,
        )?;
        match trial {
            Trial::Refuted(lines) => {
                if k == settings.cycles {
                    let trial = Trial::Refuted(lines);
                    return Ok(Reached { k, below, trial });
                }
                below = Some(lines);
                k += 1;
            }
            Trial::Fitting(_) | Trial::Spent(_) | Trial::Large { .. } => {
                return Ok(Reached { k, below, trial });
            }
        }
    }
}

/// Where the trial of numbers of cycles in rising order ends for a graph, whatever it stands for. The settings say up to
/// how many cycles, with how many conflicts for each, and how decisions are picked.
pub fn fewest_cycles(
    alloc: Global,
    graph: &LaunchGraph,
    table: &Table,
    settings: &Settings,
) -> Result<Reached, NoMemory>
    requires table { IsTable table.now }
    requires settings { IsSettings settings.now }
    requires graph { IsLaunchGraph graph.now }
    ensures reached { IfOk result (IsTrialsEndIn graph.now table.now settings.now) }
{
    let facts = Facts::new(alloc, graph)?;
    let scope = Scope::of(alloc, settings.encoding(), &facts, table)?;
    reach_in(alloc, graph, &facts, table, &scope, settings)
}

/// The least number of cycles that is enough for a matched graph, or what was found before it.
pub(crate) fn search(
    alloc: Global,
    matched: Matched,
    table: &Table,
    settings: &Settings,
) -> Result<Answered, NoMemory>
    requires table { IsTable table.now }
    requires settings { IsSettings settings.now }
    requires graph { IsLaunchGraph matched.graph }
    ensures { IfOk result (λ answered. (input : InputTree) (goal : GoalTree) → input.table ≡ table.now
        → IsMatched input goal settings.now matched → Right input goal settings.now answered) }
{
    let reached = fewest_cycles(alloc, &matched.graph, table, settings)?;
    let k = reached.k;
    let refutation = reached.below;
    let trial = reached.trial;
    match trial {
        Trial::Fitting(schedule) => {
            let listing = assign(
                alloc,
                &matched.graph,
                table,
                settings.allocation,
                k,
                &schedule,
            )?;
            let words = words_of(alloc, listing.items.as_slice())?;
            Ok(Answered::Scheduled(Found {
                matched,
                k,
                schedule,
                listing,
                words: Items::from(words),
                refutation,
            }))
        }
        Trial::Refuted(refutation) => Ok(Answered::Nowhere(Missing {
            matched,
            k,
            refutation,
        })),
        Trial::Spent(lemmas) => Ok(Answered::SpentConflicts(Tried {
            matched,
            k,
            refutation,
            lemmas,
        })),
        Trial::Large { vars, clauses } => Ok(Answered::SpentSize(Large {
            matched,
            k,
            refutation,
            vars,
            clauses,
        })),
    }
}
