// What the definitions say of all schedules. The calls do nothing: their clauses are laws.
ghost use Rattle.std.specs.Prelude.{◌≡◌, ◌*◌, ◌<◌, ◌≤◌, ◌⊎◌, ◌↔◌, false, ℕ, List, All, IsTrue, IsPermutation, length};
ghost use Rattle.graph_meaning.specs.Graphs.{HasNoPins};
ghost use Rattle.graph_meaning.specs.declared.graphs.LaunchGraph.{LaunchGraph as Graph};
ghost use Rattle.machine_table.specs.Tables.{IsTable};
ghost use Rattle.machine_table.specs.declared.tables.Table.{Table as TableOf};
ghost use Rattle.schedule_meaning.specs.Broken.{IsFirstBroken};
ghost use Rattle.schedule_meaning.specs.Fits.{Fits, HasSingleStores, IsLeft};
ghost use Rattle.schedule_meaning.specs.Launches.{class_at, group_of, instr_at, is_held, kind_group, memory_after, memory_before, operands_at, overwrites, ready_in};
ghost use Rattle.schedule_meaning.specs.Lifetimes.{is_needed};
ghost use Rattle.schedule_meaning.specs.Plain.{FitsWithoutPins, plain_class_at, plain_instr_at, plain_operands_at};
ghost use Rattle.schedule_meaning.specs.declared.schedules.Allocation.{Allocation as AllocationOf};
ghost use Rattle.schedule_meaning.specs.declared.schedules.Allocation.TheVariants.{Block, Live};
ghost use Rattle.schedule_meaning.specs.declared.schedules.To.TheVariants.{Pool};
ghost use Rattle.schedule_meaning.specs.declared.schedules.Launch.{Launch as LaunchOf};

/// A schedule fits, or some rule is the least that it breaks and some launch the first that breaks it; never both, and
/// no two rules or launches. What fits in k cycles fits in more: by live ranges on tables whose latencies are at least
/// 1, since elsewhere a launch may have cycle k.
pub fn schedules_fit_or_break()
    ensures either { (g : Graph) (table : TableOf) (a : AllocationOf) (k : ℕ) (ls : List LaunchOf)
        → Fits g table a k ls ⊎ ((i : ℕ) × (r : ℕ) × IsFirstBroken g table a k ls i r) }
    ensures apart { (g : Graph) (table : TableOf) (a : AllocationOf) (k : ℕ) (ls : List LaunchOf) (i r : ℕ)
        → Fits g table a k ls → IsFirstBroken g table a k ls i r → ⊥ }
    ensures once { (g : Graph) (table : TableOf) (a : AllocationOf) (k : ℕ) (ls : List LaunchOf) (i j r s : ℕ)
        → IsFirstBroken g table a k ls i r → IsFirstBroken g table a k ls j s → (i ≡ j) × (r ≡ s) }
    ensures longer { (g : Graph) (table : TableOf) (a : AllocationOf) (k m : ℕ) (ls : List LaunchOf)
        → IsTable table → k ≤ m → Fits g table a k ls → Fits g table a m ls }
    ensures longer_in_block { (g : Graph) (table : TableOf) (k m : ℕ) (ls : List LaunchOf)
        → k ≤ m → Fits g table Block k ls → Fits g table Block m ls }
{}

/// What fits where launches keep their registers to the end of the block fits by live ranges too.
pub fn blocks_fit_by_live_ranges()
    ensures { (g : Graph) (table : TableOf) (k : ℕ) (ls : List LaunchOf)
        → Fits g table Block k ls → Fits g table Live k ls }
{}

/// A class that isn't needed at a cycle isn't needed later, so a register that is free stays free until it is given to
/// another launch.
pub fn need_never_comes_back()
    ensures { (g : Graph) (ls : List LaunchOf) (t u class : ℕ)
        → t ≤ u → IsTrue (is_needed g ls u class) → IsTrue (is_needed g ls t class) }
{}

/// Where no set has a pin, a schedule fits where all its launches go to the pool and it fits without pins; no row's
/// number is a copy's, nothing is overwritten, and each launch that gives a word takes a register of the pool.
pub fn pins_may_be_absent()
    ensures fits { (g : Graph) (table : TableOf) (a : AllocationOf) (k : ℕ) (ls : List LaunchOf) → HasNoPins g
        → Fits g table a k ls ↔ (FitsWithoutPins g table a k ls × All (λ l. l.to ≡ Pool) ls) }
    ensures rows { (g : Graph) (row : ℕ) → HasNoPins g → (instr_at g row ≡ plain_instr_at g row)
        × (class_at g row ≡ plain_class_at g row) × (operands_at g row ≡ plain_operands_at g row) }
    ensures groups { (g : Graph) (l : LaunchOf) → HasNoPins g → (overwrites g l ≡ false)
        × (group_of g l ≡ kind_group (is_held g) (plain_instr_at g l.row)) }
{}

/// What fits, fits in any order of its launches.
pub fn fits_in_any_order()
    ensures { (g : Graph) (table : TableOf) (a : AllocationOf) (k : ℕ) (ls ms : List LaunchOf)
        → IsPermutation ls ms → Fits g table a k ls → Fits g table a k ms }
{}

/// A schedule that fits has launches in cycles below k and in eight slots at most, so at most eight for each cycle; and
/// what one launches is seen in later cycles alone.
pub fn fitting_schedules_are_small()
    ensures few { (g : Graph) (table : TableOf) (a : AllocationOf) (k : ℕ) (ls : List LaunchOf)
        → IsTable table → Fits g table a k ls → length ls ≤ 8 * k }
    ensures places { (g : Graph) (table : TableOf) (a : AllocationOf) (k : ℕ) (ls : List LaunchOf)
        → IsTable table → Fits g table a k ls → All (λ l. (l.cycle < k) × (l.slot < 8)) ls }
    ensures later { (g : Graph) (table : TableOf) (a : AllocationOf) (k cluster : ℕ) (ls : List LaunchOf)
        → IsTable table → Fits g table a k ls → All (λ l. l.cycle < ready_in g table cluster l) ls }
{}

/// The class that the stores of earlier cycles leave is the one that `memory_before` computes, and where no cycle has
/// two stores there is no other. After all launches it is the one of `memory_after`.
pub fn memories_are_left()
    ensures left { (g : Graph) (ls : List LaunchOf) (t : ℕ) → IsLeft g ls t (memory_before g ls t) }
    ensures once { (g : Graph) (ls : List LaunchOf) (t a b : ℕ)
        → HasSingleStores g ls → IsLeft g ls t a → IsLeft g ls t b → a ≡ b }
    ensures after { (g : Graph) (ls : List LaunchOf) (t : ℕ)
        → All (λ l. l.cycle < t) ls → memory_after g ls ≡ memory_before g ls t }
{}
