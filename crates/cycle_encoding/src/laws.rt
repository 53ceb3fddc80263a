// What the definitions say of all graphs and tables.
ghost use Rattle.std.specs.Prelude.{◌≡◌, ◌⊎◌, ℕ, Bool, List, All, AllPairs, Contains, IsTrue, length};
ghost use Rattle.std.specs.List.{filter};
ghost use Rattle.cnf_core.specs.Formula.{Satisfies};
ghost use Rattle.machine_table.specs.Tables.{IsTable};
ghost use Rattle.machine_table.specs.declared.tables.Table.{Table as TableOf};
ghost use Rattle.graph_meaning.specs.WellFormed.{IsLaunchGraph};
ghost use Rattle.graph_meaning.specs.declared.graphs.LaunchGraph.{LaunchGraph as Graph};
ghost use Rattle.schedule_meaning.specs.Fits.{Collide};
ghost use Rattle.schedule_meaning.specs.Launches.{launches, is_branch, is_store};
ghost use Rattle.schedule_meaning.specs.declared.schedules.Allocation.{Allocation as AllocationOf};
ghost use Rattle.schedule_meaning.specs.declared.schedules.Allocation.TheVariants.{Block};
ghost use Rattle.schedule_meaning.specs.declared.schedules.To.TheVariants.{Pool};
ghost use Rattle.schedule_meaning.specs.declared.schedules.Launch.{Launch as LaunchOf};
ghost use Rattle.cycle_encoding.specs.Shapes.{shown};
ghost use Rattle.cycle_encoding.specs.CycleFormula.{launch_vars};
ghost use Rattle.cycle_encoding.specs.CycleFormula.{Listed as ListedOf, Scope as ScopeOf};
ghost use Rattle.cycle_encoding.specs.CycleRules.{HasPlace};
ghost use Rattle.cycle_encoding.specs.CycleFormula.{wide, overwritten_vars, cycle_formula};
ghost use Rattle.cycle_encoding.specs.Narrow.{IsPinnedList};
ghost use Rattle.cycle_encoding.specs.CycleRules.{AreShown, ArePinsKept, FindsMemory, KeepsCycleRules};
ghost use Rattle.cycle_encoding.specs.Encodings.{AreListed};
ghost use Rattle.cycle_encoding.specs.declared.encodings.Encoding.{Encoding as EncodingOf};
ghost use Rattle.cycle_encoding.specs.Counts.{cycle_vars, cycle_size};
ghost use Rattle.cycle_encoding.specs.CycleFormula.{listed_in};

use cnf_core::counters_count;

/// Launches that keep the first four rules of a schedule, and the fifth for targets without a pin, and that find the
/// memory which they read, keep these rules without those that have no variables in the pinned encoding or in that by
/// live ranges. All stores, branches and launches to pinned sets among them have variables. What is left is what some
/// values show that satisfy the clauses, with what it overwrites.
pub fn parts_keep_rules()
    ensures rules { (g : Graph) (table : TableOf) (a : AllocationOf) (k : ℕ) (l : ListedOf) (ls : List LaunchOf)
        → IsTable table → IsLaunchGraph g → (n : IsPinnedList g table a k l) → KeepsCycleRules g table a k ls
        → FindsMemory g ls → KeepsCycleRules g table a k (filter n.keep ls) }
    ensures kept { (g : Graph) (table : TableOf) (a : AllocationOf) (k : ℕ) (l : ListedOf) (ls : List LaunchOf)
        → IsTable table → IsLaunchGraph g → (n : IsPinnedList g table a k l) → KeepsCycleRules g table a k ls
        → FindsMemory g ls → (x : LaunchOf) → Contains ls x
        → IsTrue (launches g is_store x) ⊎ IsTrue (launches g is_branch x) ⊎ ¬ (x.to ≡ Pool) → IsTrue (n.keep x) }
    ensures listed { (g : Graph) (table : TableOf) (a : AllocationOf) (k : ℕ) (l : ListedOf) (ls : List LaunchOf)
        → IsTable table → IsLaunchGraph g → (n : IsPinnedList g table a k l) → KeepsCycleRules g table a k ls
        → FindsMemory g ls → (x : LaunchOf) → Contains (filter n.keep ls) x → Contains l.launches x }
    ensures shown { (g : Graph) (table : TableOf) (a : AllocationOf) (k : ℕ) (l : ListedOf) (ls : List LaunchOf)
        → IsTable table → IsLaunchGraph g → (n : IsPinnedList g table a k l) → KeepsCycleRules g table a k ls
        → FindsMemory g ls → AreShown g table k l (filter n.keep ls) }
{
    counters_count();
}

/// Values that satisfy the clauses where sets may have pins show launches of which no two collide. They keep the first
/// four rules of a schedule, and the fifth for targets without a pin, if at most one launch goes to each pinned set and
/// what is overwritten is known to be so. Of the list of all launches each list that keeps these rules is shown. Launches
/// that keep them are in slots of the table and in the k cycles.
pub fn cycle_clauses_say_rules()
    ensures shown { (g : Graph) (table : TableOf) (a : AllocationOf) (k : ℕ) (l : ListedOf) (v : ℕ → Bool)
        → IsTable table → IsLaunchGraph g → IsPinnedList g table a k l → Satisfies v (cycle_formula g table k l).clauses
        → ArePinsKept g k (shown v (launch_vars l)) (shown v (overwritten_vars g table k l)) → KeepsCycleRules g table a
        k (shown v (launch_vars l)) }
    ensures apart { (g : Graph) (table : TableOf) (a : AllocationOf) (k : ℕ) (l : ListedOf) (v : ℕ → Bool)
        → IsTable table → IsLaunchGraph g → IsPinnedList g table a k l → Satisfies v (cycle_formula g table k l).clauses
        → AllPairs (λ x y. ¬ Collide x y) (shown v (launch_vars l)) }
    ensures all_apart { (g : Graph) (table : TableOf) (k : ℕ) (v : ℕ → Bool) → IsTable table → IsLaunchGraph g
        → Satisfies v (cycle_formula g table k (wide g table k)).clauses
        → AllPairs (λ x y. ¬ Collide x y) (shown v (launch_vars (wide g table k))) }
    ensures all { (g : Graph) (table : TableOf) (k : ℕ) (v : ℕ → Bool) → IsTable table → IsLaunchGraph g → Satisfies v
        (cycle_formula g table k (wide g table k)).clauses → ArePinsKept g k (shown v (launch_vars (wide g table k)))
        (shown v (overwritten_vars g table k (wide g table k))) → KeepsCycleRules g table Block k
        (shown v (launch_vars (wide g table k))) }
    ensures each { (g : Graph) (table : TableOf) (k : ℕ) (ls : List LaunchOf) → IsTable table → IsLaunchGraph g
        → KeepsCycleRules g table Block k ls → AreShown g table k (wide g table k) ls }
    ensures places { (g : Graph) (table : TableOf) (a : AllocationOf) (k : ℕ) (ls : List LaunchOf) → IsTable table
        → KeepsCycleRules g table a k ls → All (HasPlace table k) ls }
{
    counters_count();
}

/// The two counts of the formula where sets may have pins, as they are found row by row.
pub fn cycle_counts_are_found()
    ensures vars { (g : Graph) (table : TableOf) (k : ℕ) (s : ScopeOf)
        → (cycle_formula g table k (listed_in g table k s)).vars ≡ cycle_vars g table k s }
    ensures clauses { (g : Graph) (table : TableOf) (k : ℕ) (s : ScopeOf) → length
        (cycle_formula g table k (listed_in g table k s)).clauses ≡ cycle_size g table k s }
{
    counters_count();
}

/// An encoding gives a graph and a table one list in so many cycles.
pub fn each_encoding_has_one_list()
    ensures { (e : EncodingOf) (g : Graph) (table : TableOf) (k : ℕ) (l m : ListedOf)
        → AreListed e g table k l → AreListed e g table k m → l ≡ m }
{}
