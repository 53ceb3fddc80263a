// What holds of all lifts and of all texts of them. The calls do nothing: their clauses are laws.
ghost use Rattle.std.specs.Prelude.{◌≡◌, ◌≤◌, ◌⊎◌, ℕ, List, All};
ghost use Rattle.text_core.specs.declared.faults.Kind.{Kind};
ghost use Rattle.word_ops.specs.Worlds.{IsWorld, World};
ghost use Rattle.goal_meaning.specs.Views.{GoalTree};
ghost use Rattle.goal_meaning.specs.WellFormed.{IsInput, operators_of_goal};
ghost use Rattle.code_lift.specs.Goals.{input_of_lifts};
ghost use Rattle.code_lift.specs.LiftGrammar.{IsFirstLiftFault, ReadsLifts};
ghost use Rattle.code_lift.specs.Limits.{most_goal_operators};
ghost use Rattle.code_lift.specs.Promises.{DoesAsLifted, MeetsAssumes, TrapsOnTheWay};
ghost use Rattle.code_lift.specs.Views.{LiftTree, LiftsTree};
ghost use Rattle.code_lift.specs.WellFormed.{AreLifts, IsLift};

use alpha_encode::words_and_instructions;
use alpha_machine::steps_add_up;
use code_check::terms_are_what_words_compute;
use forms::one_reading;
use machine_table::{one_table, printed_tables_are_read, tables_keep_limits};
use text_core::one_lexing;

/// A text has one reading as lifts, or one first fault, and never both.
pub fn lifts_have_one_reading()
    ensures once { (text : List ℕ) (lifts others : LiftsTree)
        → ReadsLifts text lifts → ReadsLifts text others → lifts ≡ others }
    ensures apart { (text : List ℕ) (lifts : LiftsTree) (place : ℕ) (kind : Kind)
        → ReadsLifts text lifts → IsFirstLiftFault text place kind → ⊥ }
    ensures first { (text : List ℕ) (place other : ℕ) (kind another : Kind)
        → IsFirstLiftFault text place kind → IsFirstLiftFault text other another
        → (place ≡ other) × (kind ≡ another) }
{
    one_reading();
    one_table();
}

/// The lifts that a text is read as are well formed.
pub fn read_lifts_are_well_formed()
    ensures { (text : List ℕ) (lifts : LiftsTree) → ReadsLifts text lifts → AreLifts lifts }
{
    one_lexing();
    tables_keep_limits();
    printed_tables_are_read();
}

/// The goals of well-formed lifts are a well-formed input, and each of them has few operators.
pub fn goals_of_lifts_are_well_formed()
    ensures well_formed { (lifts : LiftsTree) → AreLifts lifts → IsInput (input_of_lifts lifts) }
    ensures few { (lifts : LiftsTree) → AreLifts lifts
        → All (λ (goal : GoalTree). operators_of_goal goal ≤ most_goal_operators) (input_of_lifts lifts).goals }
{
    words_and_instructions();
}

/// The goal of a lift is what its words do. In a world in which its assumptions hold the words run to their end, and
/// leave the memory and the words in registers that the goal's targets say (`does`). In each world either the assumptions
/// hold or the words trap on the way (`decided`), and never both (`apart`).
pub fn lifted_goals_are_their_code()
    ensures does { (lift : LiftTree) (world : World) → IsLift lift → IsWorld world → MeetsAssumes lift world
        → DoesAsLifted lift world }
    ensures decided { (lift : LiftTree) (world : World) → IsLift lift → IsWorld world
        → MeetsAssumes lift world ⊎ TrapsOnTheWay lift.words world }
    ensures apart { (lift : LiftTree) (world : World) → IsLift lift → IsWorld world
        → TrapsOnTheWay lift.words world → MeetsAssumes lift world → ⊥ }
{
    words_and_instructions();
    terms_are_what_words_compute();
    steps_add_up();
}
