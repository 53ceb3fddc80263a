// What holds of all generated goals. The calls do nothing: their clauses are laws.
ghost use Rattle.std.specs.Prelude.{ℕ, ◌≤◌, List};
ghost use Rattle.word_ops.specs.Worlds.{IsWorld, World};
ghost use Rattle.machine_table.specs.Tables.{ev6};
ghost use Rattle.goal_meaning.specs.Holds.{HoldsFor};
ghost use Rattle.goal_meaning.specs.WellFormed.{IsInput};
ghost use Rattle.graph_meaning.specs.WellFormed.{IsLaunchGraph};
ghost use Rattle.graph_meaning.specs.declared.graphs.LaunchGraph.{LaunchGraph};
ghost use Rattle.saturation.specs.StandsFor.{StandsFor};
ghost use Rattle.schedule_meaning.specs.Fits.{Fits};
ghost use Rattle.schedule_meaning.specs.declared.schedules.Allocation.TheVariants.{Block};
ghost use Rattle.schedule_meaning.specs.declared.schedules.Launch.{Launch as LaunchOf};
ghost use Rattle.generated_goals.specs.Generated.{generated_goal, generated_input};

use goal_meaning::goals_without_lets_are_expanded;
use machine_table::tables_keep_limits;

/// Generated inputs are well formed.
pub fn generated_inputs_are_well_formed()
    ensures { (size : ℕ) → size ≤ 20 → IsInput (generated_input size) }
{
    tables_keep_limits();
}

/// A generated goal has no axiom and no assumption, so a world meets them.
pub fn generated_goals_have_a_world()
    ensures { (size : ℕ)
        → (world : World) × IsWorld world × HoldsFor (generated_input size) (generated_goal size) world }
{}

/// A graph that stands for a generated goal has a schedule in as many cycles as the goal has operators: one operator is
/// launched in each cycle, in the slot U0.
pub fn generated_goals_can_be_scheduled()
    ensures { (size : ℕ) (g : LaunchGraph) → size ≤ 20 → IsLaunchGraph g
        → StandsFor (generated_input size) (generated_goal size) g → (ls : List LaunchOf) × Fits g ev6 Block size ls }
{
    goals_without_lets_are_expanded();
}
