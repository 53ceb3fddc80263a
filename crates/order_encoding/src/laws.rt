// What the clauses of the whole formula say of schedules, how many they are, and worked formulas.
ghost use Rattle.std.specs.Prelude.{◌≡◌, ◌+◌, ℕ, Bool, List, length, ◌↔◌, Contains};
ghost use Rattle.std.specs.List.{filter};
ghost use Rattle.cnf_core.specs.Formula.{Satisfies};
ghost use Rattle.machine_table.specs.Tables.{IsTable, ev6};
ghost use Rattle.machine_table.specs.declared.tables.Table.{Table as TableOf};
ghost use Rattle.graph_meaning.specs.WellFormed.{IsLaunchGraph};
ghost use Rattle.graph_meaning.specs.declared.graphs.LaunchGraph.{LaunchGraph as Graph};
ghost use Rattle.schedule_meaning.specs.Fits.{Fits};
ghost use Rattle.schedule_meaning.specs.Worked.{sum_graph, two_slots, copy_graph, step_graph, exchange_graph};
ghost use Rattle.schedule_meaning.specs.declared.schedules.Allocation.{Allocation as AllocationOf};
ghost use Rattle.schedule_meaning.specs.declared.schedules.Allocation.TheVariants.{Block};
ghost use Rattle.schedule_meaning.specs.declared.schedules.Launch.{Launch as LaunchOf};
ghost use Rattle.cycle_encoding.specs.Shapes.{shown};
ghost use Rattle.cycle_encoding.specs.CycleFormula.{launch_vars, allocation_in, Listed as ListedOf, Scope as ScopeOf};
ghost use Rattle.cycle_encoding.specs.Encodings.{AreListed, allocation_of};
ghost use Rattle.cycle_encoding.specs.CycleFormula.{wide};
ghost use Rattle.cycle_encoding.specs.Narrow.{IsPinnedList};
ghost use Rattle.cycle_encoding.specs.Counts.{cycle_vars, cycle_size};
ghost use Rattle.cycle_encoding.specs.CycleFormula.{listed_in};
ghost use Rattle.cycle_encoding.specs.declared.encodings.Encoding.{Encoding as EncodingOf};
ghost use Rattle.order_encoding.specs.OrderCounts.{memory_vars, memory_size, guard_vars};
ghost use Rattle.order_encoding.specs.OrderCounts.{guard_size, pool_vars, pool_size};
ghost use Rattle.order_encoding.specs.OrderCounts.{pins_vars, pins_size};
ghost use Rattle.order_encoding.specs.OrderCounts.{part_size, part_vars};
ghost use Rattle.order_encoding.specs.WholeFormula.{before_part, memory_formula, whole_formula, with_part};
ghost use Rattle.slot_capacity.specs.Limits.{capacity_in};
ghost use Rattle.slot_capacity.specs.CapacityCounts.{capacity_size, capacity_vars};
ghost use Rattle.order_encoding.specs.declared.adding.Part.{Part as PartOf};
ghost use Rattle.order_encoding.specs.Worked.{one_sum_clauses, one_sum_graph, sum_clauses};
ghost use Rattle.order_encoding.specs.PinnedWorked.{step_scope, step_clauses, two_copiers, exchange_scope};
ghost use Rattle.order_encoding.specs.PinnedWorked.{exchange_clauses, pinned_copy_graph, copy_scope};

use cnf_core::counters_count;
use cycle_encoding::{cycle_clauses_say_rules, cycle_counts_are_found, parts_keep_rules};
use schedule_meaning::memories_are_left;
use slot_capacity::{capacity_is_counted, slots_suffice};

/// A schedule that fits does so without its launches that have no variables in the pinned encoding, or in that by live
/// ranges; the others have variables.
pub fn launches_without_variables_may_go()
    ensures fits { (g : Graph) (table : TableOf) (a : AllocationOf) (k : ℕ) (e : ListedOf) (ls : List LaunchOf)
        → IsTable table → IsLaunchGraph g → (n : IsPinnedList g table a k e) → Fits g table a k ls
        → Fits g table a k (filter n.keep ls) }
    ensures listed { (g : Graph) (table : TableOf) (a : AllocationOf) (k : ℕ) (e : ListedOf) (ls : List LaunchOf)
        → IsTable table → IsLaunchGraph g → (n : IsPinnedList g table a k e) → Fits g table a k ls
        → (l : LaunchOf) → Contains (filter n.keep ls) l → Contains e.launches l }
{
    cycle_clauses_say_rules();
    parts_keep_rules();
}

/// Values that satisfy the whole formula show a schedule that fits. In the pinned encoding, and in that by live ranges,
/// each schedule that fits has a part that fits too and is what some values show that satisfy it; over the list of all
/// launches each schedule that fits, with useless and repeated launches, is shown itself.
pub fn clauses_say_fits()
    ensures shown { (g : Graph) (table : TableOf) (a : AllocationOf) (k : ℕ) (e : ListedOf) (v : ℕ → Bool)
        → IsTable table → IsLaunchGraph g → IsPinnedList g table a k e
        → Satisfies v (whole_formula g table k e).clauses → Fits g table a k (shown v (launch_vars e)) }
    ensures some { (g : Graph) (table : TableOf) (a : AllocationOf) (k : ℕ) (e : ListedOf) (ls : List LaunchOf)
        → IsTable table → IsLaunchGraph g → IsPinnedList g table a k e → Fits g table a k ls → (ms : List LaunchOf)
        × Fits g table a k ms × ((keep : LaunchOf → Bool) × (ms ≡ filter keep ls)) × ((v : ℕ → Bool) × Satisfies v
        (whole_formula g table k e).clauses × ((l : LaunchOf) → Contains (shown v (launch_vars e)) l ↔ Contains ms l)) }
    ensures all { (g : Graph) (table : TableOf) (k : ℕ) (v : ℕ → Bool) → IsTable table → IsLaunchGraph g
        → Satisfies v (whole_formula g table k (wide g table k)).clauses
        → Fits g table Block k (shown v (launch_vars (wide g table k))) }
    ensures each { (g : Graph) (table : TableOf) (k : ℕ) (ls : List LaunchOf) → IsTable table → IsLaunchGraph g
        → Fits g table Block k ls → (v : ℕ → Bool) × Satisfies v (whole_formula g table k (wide g table k)).clauses
        × ((l : LaunchOf) → Contains (shown v (launch_vars (wide g table k))) l ↔ Contains ls l) }
{
    counters_count();
    memories_are_left();
    cycle_clauses_say_rules();
    parts_keep_rules();
    launches_without_variables_may_go();
    slots_suffice();
}

/// In each encoding, values that satisfy the whole formula show a schedule that fits as long as its launches keep their
/// registers there; and each schedule that fits so has a part that fits and is what some values show that satisfy it. In
/// the wide one each schedule that fits, with useless and repeated launches, is shown itself.
pub fn each_encoding_says_fits()
    ensures shown { (e : EncodingOf) (g : Graph) (table : TableOf) (k : ℕ) (l : ListedOf) (v : ℕ → Bool) → IsTable table
        → IsLaunchGraph g → AreListed e g table k l → Satisfies v (whole_formula g table k l).clauses
        → Fits g table (allocation_of e) k (shown v (launch_vars l)) }
    ensures some { (e : EncodingOf) (g : Graph) (table : TableOf) (k : ℕ) (l : ListedOf) (ls : List LaunchOf)
        → IsTable table → IsLaunchGraph g → AreListed e g table k l → Fits g table (allocation_of e) k ls
        → (ms : List LaunchOf) × Fits g table (allocation_of e) k ms × ((keep : LaunchOf → Bool)
        × (ms ≡ filter keep ls)) × ((v : ℕ → Bool) × Satisfies v (whole_formula g table k l).clauses
        × ((x : LaunchOf) → Contains (shown v (launch_vars l)) x ↔ Contains ms x)) }
    ensures each { (g : Graph) (table : TableOf) (k : ℕ) (ls : List LaunchOf) → IsTable table → IsLaunchGraph g
        → Fits g table Block k ls → (v : ℕ → Bool) × Satisfies v (whole_formula g table k (wide g table k)).clauses
        × ((l : LaunchOf) → Contains (shown v (launch_vars (wide g table k))) l ↔ Contains ls l) }
{
    clauses_say_fits();
}

/// The two counts of the whole formula, as they are found row by row.
pub fn counts_are_found()
    ensures vars { (g : Graph) (table : TableOf) (k : ℕ) (s : ScopeOf) → (whole_formula g table k
        (listed_in g table k s)).vars ≡ cycle_vars g table k s + memory_vars g table k s + guard_vars g table k s
        + pool_vars g table k s (allocation_in s) + pins_vars g table k s + capacity_vars g table k s
        (capacity_in s g table k) }
    ensures clauses { (g : Graph) (table : TableOf) (k : ℕ) (s : ScopeOf) → length
        (whole_formula g table k (listed_in g table k s)).clauses ≡ cycle_size g table k s + memory_size g table k s
        + guard_size g table k s + pool_size g table k s (allocation_in s) + pins_size g table k s
        + capacity_size g table k s (capacity_in s g table k) }
{
    counters_count();
    cycle_counts_are_found();
    capacity_is_counted();
}

/// Each part adds its counts, as they are found row by row, to those of the formula of the parts before it. The first
/// sum is said too, since the variables of the branch's cycles come behind those of memory.
pub fn parts_are_counted()
    ensures memory_vars { (g : Graph) (table : TableOf) (k : ℕ) (s : ScopeOf) → (memory_formula g table k
        (listed_in g table k s)).vars ≡ cycle_vars g table k s + memory_vars g table k s }
    ensures vars { (p : PartOf) (g : Graph) (table : TableOf) (k : ℕ) (s : ScopeOf)
        → (with_part p g table k (listed_in g table k s)).vars
        ≡ (before_part p g table k (listed_in g table k s)).vars + part_vars p g table k s }
    ensures clauses { (p : PartOf) (g : Graph) (table : TableOf) (k : ℕ) (s : ScopeOf)
        → length (with_part p g table k (listed_in g table k s)).clauses
        ≡ length (before_part p g table k (listed_in g table k s)).clauses + part_size p g table k s }
{
    counters_count();
    cycle_counts_are_found();
    counts_are_found();
    capacity_is_counted();
}

/// Worked formulas of all launches: the clauses of a sum on two slots in 2 cycles; those of one addition in no cycle,
/// and their numbers in one; and the sizes of a loop that copies words, with loads, a store and a branch, in 2 cycles.
/// The last two are on the Alpha 21264's table.
pub fn worked_formulas()
    ensures sum { whole_formula sum_graph two_slots 2 (wide sum_graph two_slots 2)
        ≡ record { vars = 21; clauses = sum_clauses } }
    ensures one_sum_at_once { whole_formula one_sum_graph ev6 0 (wide one_sum_graph ev6 0)
        ≡ record { vars = 1; clauses = one_sum_clauses } }
    ensures one_sum_vars { (whole_formula one_sum_graph ev6 1 (wide one_sum_graph ev6 1)).vars ≡ 16 }
    ensures one_sum_size { length (whole_formula one_sum_graph ev6 1 (wide one_sum_graph ev6 1)).clauses ≡ 19 }
    ensures copy_vars { (whole_formula copy_graph ev6 2 (wide copy_graph ev6 2)).vars ≡ 102 }
    ensures copy_clauses { length (whole_formula copy_graph ev6 2 (wide copy_graph ev6 2)).clauses ≡ 164 }
{}

/// Worked formulas with pins: the clauses of a sum that goes to the register of its input, on two slots in 1 cycle, and
/// of two registers that are exchanged, which can't be done in 1 cycle; and on the Alpha 21264's table the sizes of that
/// sum in no cycle and in one, and of a loop that copies words and counts in the registers of its inputs, in 2 cycles.
pub fn worked_pinned_formulas()
    ensures step { whole_formula step_graph two_slots 1 (listed_in step_graph two_slots 1 step_scope)
        ≡ record { vars = 14; clauses = step_clauses } }
    ensures exchange { whole_formula exchange_graph two_copiers 1
        (listed_in exchange_graph two_copiers 1 exchange_scope) ≡ record { vars = 29; clauses = exchange_clauses } }
    ensures no_step_vars { (whole_formula step_graph ev6 0 (listed_in step_graph ev6 0 step_scope)).vars ≡ 2 }
    ensures no_step_size { length (whole_formula step_graph ev6 0 (listed_in step_graph ev6 0 step_scope)).clauses ≡ 3 }
    ensures step_vars { (whole_formula step_graph ev6 1 (listed_in step_graph ev6 1 step_scope)).vars ≡ 28 }
    ensures step_size { length (whole_formula step_graph ev6 1 (listed_in step_graph ev6 1 step_scope)).clauses ≡ 38 }
    ensures copy_vars { (whole_formula pinned_copy_graph ev6 2
        (listed_in pinned_copy_graph ev6 2 copy_scope)).vars ≡ 182 }
    ensures copy_clauses { length (whole_formula pinned_copy_graph ev6 2
        (listed_in pinned_copy_graph ev6 2 copy_scope)).clauses ≡ 378 }
{}
