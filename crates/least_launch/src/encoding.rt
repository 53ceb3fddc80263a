// The clauses of schedules with few launches.
ghost use Rattle.std.specs.Prelude.{◌≡◌, ◌+◌, ◌<◌, ◌≤◌, ◌^◌, ℕ, Bool, List, length, IfOk, IfErr, OnOk};
ghost use Rattle.schedule_meaning.specs.Limits.{most_cycles, most_launches};
ghost use Rattle.cnf_core.specs.Formula.{AreOver, Satisfies};
ghost use Rattle.cycle_encoding.specs.CycleFormula.{Listed as ListedOf};
ghost use Rattle.cycle_encoding.specs.Encodings.{AreListed};
ghost use Rattle.cycle_encoding.specs.Faults.{EncodeFaultIs};
ghost use Rattle.cycle_encoding.specs.CycleFormula.{listed_in};
ghost use Rattle.cycle_encoding.specs.CycleFormula.{before_overwritten};
ghost use Rattle.cycle_encoding.specs.Plans.{IsTooLarge};
ghost use Rattle.cycle_encoding.specs.Shapes.{numbered, shown};
ghost use Rattle.denali_run.specs.Encodings.{encoding_for};
ghost use Rattle.graph_meaning.specs.WellFormed.{IsLaunchGraph};
ghost use Rattle.machine_table.specs.Tables.{IsTable};
ghost use Rattle.order_encoding.specs.WholeFormula.{formula_in};
ghost use Rattle.schedule_meaning.specs.Fits.{Fits};
ghost use Rattle.schedule_meaning.specs.declared.schedules.Launch.{Launch as LaunchOf};
ghost use Rattle.least_launch.specs.FewerLaunches.{fewer_formula, fewer_in, launch_literals, with_at_most};

use crate::counting::count_fewer;
use crate::laws::fewer_clauses_say_fits;
use cnf_core::{Cnf, Lit, at_most, counters_count};
use cycle_encoding::{EncodeFault, Encoded, Facts, Scope, each_encoding_has_one_list};
use denali_run::encoding_for;
use graph_meaning::LaunchGraph;
use items::NoMemory;
use machine_table::Table;
use order_encoding::build_formula;
use schedule_meaning::{Allocation, Launch};
use std::alloc::Global;

/// The variables of launches, which are the first ones.
fn launch_lits(alloc: Global, launches: &[Launch]) -> Result<Vec<Lit>, NoMemory>
    requires { length launches.now < 2 ^ 29 }
    ensures { IfOk result (λ lits. lits.items ≡ launch_literals launches.now) }
{
    let mut lits = Vec::new(alloc);
    for place in 0..launches.len() {
        lits.push(Lit {
            var: place as u32 + 1,
            positive: true,
        })?;
    }
    Ok(lits)
}

/// Adds that at most `n` of the launches are made.
fn add_counter(alloc: Global, cnf: &mut Cnf, launches: &[Launch], n: u32) -> Result<(), NoMemory>
    requires exist { length launches.now ≤ cnf.old.vars }
    requires within { ¬ IsTooLarge (with_at_most n (launch_literals launches.now) cnf.old) }
    ensures counted { OnOk result (cnf.new ≡ with_at_most n (launch_literals launches.now) cnf.old) }
    ensures over { AreOver cnf.old.vars cnf.old.clauses }
{
    counters_count();
    // A formula keeps its invariant, which is known here once one of its methods was called.
    let _vars = cnf.vars();
    let lits = launch_lits(alloc, launches)?;
    at_most(cnf, &lits, n)
}

/// The clauses of schedules with at most `n` launches over what a scope gives variables. Its counts are found before
/// any clause is built; where one passes its limit they are the answer.
pub(crate) fn build_fewer(
    alloc: Global,
    facts: &Facts,
    table: &Table,
    scope: &Scope,
    k: u32,
    n: u32,
) -> Result<Encoded, EncodeFault>
    requires cycles { k ≤ most_cycles }
    requires launches { n ≤ most_launches }
    requires table { IsTable table.now }
    requires graph { IsLaunchGraph facts.now }
    ensures formula { IfOk result (λ e. e.cnf ≡ fewer_in scope.now facts.now table.now k n) }
    ensures plan { IfOk result (λ e. e.plan ≡ record {
      encoding = scope.now.encoding;
      cycles = k;
      launches = (listed_in facts.now table.now k scope.now).launches;
      overwritten = before_overwritten (listed_in facts.now table.now k scope.now);
    }) }
    ensures size { IfErr result (EncodeFaultIs (fewer_in scope.now facts.now table.now k n)) }
    ensures within { OnOk result (¬ IsTooLarge (fewer_in scope.now facts.now table.now k n)) }
    ensures vars { IfOk result (λ e. length e.plan.launches ≤ e.cnf.vars) }

    // The clauses before the counter are over the variables before it.
    ensures over { OnOk result (AreOver (formula_in scope.now facts.now table.now k).vars
        (formula_in scope.now facts.now table.now k).clauses) }
{
    let sizes = count_fewer(alloc, facts, table, scope, k, n)?;
    sizes.within_limits()?;
    let encoded = build_formula(alloc, facts, table, scope, k)?;
    let mut cnf = encoded.cnf;
    let plan = encoded.plan;
    add_counter(alloc, &mut cnf, plan.launches(), n)?;
    Ok(Encoded { cnf, plan })
}

/// The clauses of schedules with at most `n` launches in k cycles: those of the encoding by which schedules with this
/// allocation are asked for, and behind them that at most `n` of the launches' variables are true. Its counts are found
/// before any clause is built; where one passes its limit they are the answer.
pub fn fewer(
    alloc: Global,
    graph: &LaunchGraph,
    table: &Table,
    allocation: Allocation,
    k: u32,
    n: u32,
) -> Result<Encoded, EncodeFault>
    requires cycles { k ≤ most_cycles }
    requires launches { n ≤ most_launches }
    requires table { IsTable table.now }
    requires graph { IsLaunchGraph graph.now }
    ensures listed { OnOk result ((l : ListedOf) × AreListed (encoding_for allocation) graph.now table.now k l) }
    ensures formula { IfOk result (λ e. (l : ListedOf) → AreListed (encoding_for allocation) graph.now table.now k l
        → e.cnf ≡ fewer_formula graph.now table.now k l n) }
    ensures plan { IfOk result (λ e. (l : ListedOf) → AreListed (encoding_for allocation) graph.now table.now k l
        → e.plan ≡ record {
          encoding = encoding_for allocation;
          cycles = k;
          launches = l.launches;
          overwritten = before_overwritten l;
        }) }
    ensures size { IfErr result (λ fault. (l : ListedOf)
        → AreListed (encoding_for allocation) graph.now table.now k l
        → EncodeFaultIs (fewer_formula graph.now table.now k l n) fault) }
    ensures within { OnOk result ((l : ListedOf) → AreListed (encoding_for allocation) graph.now table.now k l
        → ¬ IsTooLarge (fewer_formula graph.now table.now k l n)) }
    ensures vars { IfOk result (λ e. length e.plan.launches ≤ e.cnf.vars) }

    // What the values of variables show fits and has at most n launches where they satisfy the clauses; and where a
    // schedule with at most n launches fits, some values satisfy them.
    ensures shown { IfOk result (λ e. (v : ℕ → Bool) → Satisfies v e.cnf.clauses
        → Fits graph.now table.now allocation k (shown v (numbered 0 e.plan.launches))
        × (length (shown v (numbered 0 e.plan.launches)) ≤ n)) }
    ensures some { IfOk result (λ e. (ls : List LaunchOf) → Fits graph.now table.now allocation k ls → length ls ≤ n
        → (v : ℕ → Bool) × Satisfies v e.cnf.clauses) }
{
    each_encoding_has_one_list();
    fewer_clauses_say_fits();
    let facts = Facts::new(alloc, graph)?;
    let scope = Scope::of(alloc, encoding_for(allocation), &facts, table)?;
    build_fewer(alloc, &facts, table, &scope, k, n)
}
