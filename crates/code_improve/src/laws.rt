// What better words do. The call does nothing: its clause is a law.
ghost use Rattle.code_improve.specs.Improved.{DoesTheSame};
ghost use Rattle.code_lift.specs.Goals.{input_of_lifts};
ghost use Rattle.code_lift.specs.Lifted.{goal_of_lift};
ghost use Rattle.code_lift.specs.Views.{LiftTree, LiftsTree};
ghost use Rattle.code_lift.specs.WellFormed.{IsLift};
ghost use Rattle.denali_run.specs.Right.{Right};
ghost use Rattle.denali_run.specs.declared.results.Answered.TheVariants.{Scheduled};
ghost use Rattle.denali_run.specs.declared.results.Found.{Found as FoundOf};
ghost use Rattle.denali_run.specs.declared.settings.Settings.{Settings as SettingsOf};

use code_lift::lifted_goals_are_their_code;

/// Of a right result with a schedule for the goal of a lift: from all registers and memory from which the given words
/// don't trap, its words run to their end, and leave the same memory and the same word in each register that counts. Each
/// register that the given words don't write and that isn't in the pool is as at entry.
pub fn improved_code_is_the_same()
    ensures { (s : SettingsOf) (lifts : LiftsTree) (lift : LiftTree) (f : FoundOf) → IsLift lift
        → Right (input_of_lifts lifts) (goal_of_lift lift) s (Scheduled f) → DoesTheSame lift f.words }
{
    lifted_goals_are_their_code();
}
