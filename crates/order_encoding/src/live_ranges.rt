// Registers by live ranges: in each cycle the launches that hold one are no more than the pool has.
ghost use Rattle.std.specs.Prelude.{◌≡◌, ◌≤◌, ◌+◌, length, OnOk};
ghost use Rattle.order_encoding.specs.PlanOver.{AreOverwritten};
ghost use Rattle.cycle_encoding.specs.Framed.{IsFrame};
ghost use Rattle.cycle_encoding.specs.Limits.{most_vars, most_clauses};
ghost use Rattle.order_encoding.specs.PlanOver.{last_lost, live_ranges_by};

use crate::holds::{HoldVars, add_hold_counters, add_holds, holds_count};
use crate::needs::{Live, add_earlier, add_last_needs, add_needs, need_vars, needs_count};
use crate::plans::Plan;
use cnf_core::{Cnf, counters_count};
use cycle_encoding::add_vars;
use items::NoMemory;
use std::alloc::Global;

/// Adds the variables and clauses of registers by live ranges.
pub fn extend_by_live_ranges(alloc: Global, cnf: &mut Cnf, plan: &Plan) -> Result<(), NoMemory>
    requires frame { IsFrame plan.now.frame }
    requires over { AreOverwritten plan.now.frame plan.now.over.now }
    requires launches { length plan.now.launches.now ≤ plan.now.over.now.first }
    requires exist { last_lost plan.now ≤ cnf.old.vars }
    requires vars { (live_ranges_by plan.now cnf.old).vars ≤ most_vars }
    requires clauses { length (live_ranges_by plan.now cnf.old).clauses ≤ most_clauses }
    ensures { OnOk result (cnf.new ≡ live_ranges_by plan.now cnf.old) }
{
    counters_count();
    let first = cnf.vars();
    let needs = need_vars(alloc, plan.frame.facts, plan.launches, plan.frame.k, first)?;
    let live = Live {
        facts: plan.frame.facts,
        table: plan.frame.table,
        launches: plan.launches,
        needs,
        over: plan.over,
    };
    add_vars(cnf, needs_count(&live));
    let held = cnf.vars();
    add_vars(cnf, holds_count(plan.frame.table, plan.frame.k));
    add_needs(cnf, &live)?;
    add_earlier(cnf, &live)?;
    add_last_needs(alloc, cnf, &live)?;
    add_holds(alloc, cnf, &live, held)?;
    let holds = HoldVars {
        table: plan.frame.table,
        k: plan.frame.k,
        first: held,
    };
    add_hold_counters(alloc, cnf, plan.frame.facts, &holds)
}
