// What is true of all listings. The calls do nothing: their clauses are laws.
ghost use Rattle.std.specs.Prelude.{◌≡◌, ◌≢◌, ◌<◌, ◌≤◌, ℕ, List, Some, IsTrue, length, slice_get};
ghost use Rattle.schedule_meaning.specs.Limits.{most_cycles, most_launches};
ghost use Rattle.graph_meaning.specs.WellFormed.{IsLaunchGraph};
ghost use Rattle.graph_meaning.specs.declared.graphs.LaunchGraph.{LaunchGraph as Graph};
ghost use Rattle.machine_table.specs.Tables.{IsTable};
ghost use Rattle.machine_table.specs.declared.tables.Table.{Table as TableOf};
ghost use Rattle.register_assign.specs.Assigned.{IsTheListing, HaveWords, MayRun};
ghost use Rattle.register_assign.specs.declared.listings.Item.{Item as ItemOf};
ghost use Rattle.register_assign.specs.declared.listings.Where.{Where as WhereOf};
ghost use Rattle.register_assign.specs.PoolPlaces.{pool_place};
ghost use Rattle.schedule_meaning.specs.Fits.{Fits};
ghost use Rattle.schedule_meaning.specs.Launches.{IsInWordOrder, takes_pool};
ghost use Rattle.schedule_meaning.specs.Lifetimes.{holds};
ghost use Rattle.schedule_meaning.specs.declared.schedules.Allocation.{Allocation as AllocationOf};
ghost use Rattle.schedule_meaning.specs.declared.schedules.Launch.{Launch as LaunchOf};

/// The instructions of a listing of a schedule that fits have words, which may be run; and there are at most eight for
/// each of 24 cycles.
pub fn listings_have_words()
    ensures words { (g : Graph) (table : TableOf) (a : AllocationOf) (k : ℕ) (ls : List LaunchOf) (items : List ItemOf)
        (wheres : List WhereOf) → IsLaunchGraph g → IsTable table → Fits g table a k ls → k ≤ most_cycles
        → IsTheListing g table a ls items wheres → HaveWords items }
    ensures run { (g : Graph) (table : TableOf) (a : AllocationOf) (k : ℕ) (ls : List LaunchOf) (items : List ItemOf)
        (wheres : List WhereOf) → IsLaunchGraph g → IsTable table → Fits g table a k ls → k ≤ most_cycles
        → IsTheListing g table a ls items wheres → MayRun items }
    ensures few { (g : Graph) (table : TableOf) (a : AllocationOf) (k : ℕ) (ls : List LaunchOf) (items : List ItemOf)
        (wheres : List WhereOf) → IsLaunchGraph g → IsTable table → Fits g table a k ls → k ≤ most_cycles
        → IsTheListing g table a ls items wheres → length items ≤ most_launches }
{}

/// Each launch to the pool of a schedule that fits has a place of the pool, and no launch has the place of another that
/// stands before it in word order and holds a register in its cycle.
pub fn pools_never_run_out()
    ensures inside { (g : Graph) (table : TableOf) (a : AllocationOf) (k : ℕ) (ls ordered : List LaunchOf) (i : ℕ)
        (l : LaunchOf) → IsTable table → Fits g table a k ls → IsInWordOrder g ls ordered
        → slice_get ordered i ≡ Some l → IsTrue (takes_pool g l) → pool_place g a ordered i < length g.pool }
    ensures apart { (g : Graph) (table : TableOf) (a : AllocationOf) (k : ℕ) (ls ordered : List LaunchOf) (j i : ℕ)
        (m l : LaunchOf) → IsTable table → Fits g table a k ls → IsInWordOrder g ls ordered → j < i
        → slice_get ordered j ≡ Some m → slice_get ordered i ≡ Some l → IsTrue (takes_pool g l)
        → IsTrue (holds g a ordered l.cycle m) → pool_place g a ordered j ≢ pool_place g a ordered i }
{}
