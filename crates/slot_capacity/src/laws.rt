// What capacity says of all schedules, and how many its clauses are.
ghost use Rattle.std.specs.Prelude.{◌≡◌, ◌≤◌, ◌+◌, ℕ, Bool, List, Contains, length};
ghost use Rattle.cnf_core.specs.Counter.{HasExtension};
ghost use Rattle.cnf_core.specs.Formula.{Formula};
ghost use Rattle.machine_table.specs.Tables.{IsTable};
ghost use Rattle.machine_table.specs.declared.tables.Table.{Table as TableOf};
ghost use Rattle.graph_meaning.specs.WellFormed.{IsLaunchGraph};
ghost use Rattle.graph_meaning.specs.declared.graphs.LaunchGraph.{LaunchGraph as Graph};
ghost use Rattle.schedule_meaning.specs.Fits.{Fits};
ghost use Rattle.schedule_meaning.specs.declared.schedules.Allocation.{Allocation as AllocationOf};
ghost use Rattle.schedule_meaning.specs.declared.schedules.Launch.{Launch as LaunchOf};
ghost use Rattle.cycle_encoding.specs.CycleFormula.{Scope as ScopeOf, listed_in};
ghost use Rattle.cycle_encoding.specs.Shapes.{numbered, shown};
ghost use Rattle.slot_capacity.specs.CapacityClauses.{added_capacity, with_capacity};
ghost use Rattle.slot_capacity.specs.CapacityCounts.{capacity_size, capacity_vars};
ghost use Rattle.slot_capacity.specs.Limits.{capacity_in, capacity_of};

use cnf_core::counters_count;

/// A schedule that fits and whose launches have variables launches each due class by its deadline, and no more of them
/// than there are slots: values that show one can be extended so that they satisfy the clauses of capacity. The
/// launches have the first variables.
pub fn slots_suffice()
    ensures { (g : Graph) (table : TableOf) (a : AllocationOf) (k : ℕ) (launches : List LaunchOf) (f : Formula)
        (v : ℕ → Bool) → IsTable table → IsLaunchGraph g → length launches ≤ f.vars → Fits g table a k
        (shown v (numbered 0 launches)) → HasExtension f.vars v (added_capacity g (capacity_of g table a k launches)
        (numbered 0 launches) f) }
{
    counters_count();
}

/// The two counts that capacity adds, as they are found row by row.
pub fn capacity_is_counted()
    ensures vars { (g : Graph) (table : TableOf) (k : ℕ) (s : ScopeOf) (f : Formula)
        → (with_capacity g (capacity_in s g table k) (numbered 0 (listed_in g table k s).launches) f).vars
        ≡ f.vars + capacity_vars g table k s (capacity_in s g table k) }
    ensures clauses { (g : Graph) (table : TableOf) (k : ℕ) (s : ScopeOf) (f : Formula)
        → length (added_capacity g (capacity_in s g table k) (numbered 0 (listed_in g table k s).launches) f)
        ≡ capacity_size g table k s (capacity_in s g table k) }
{
    counters_count();
}
