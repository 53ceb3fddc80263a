// What the clauses of schedules with few launches say. The calls do nothing: their clauses are laws.
ghost use Rattle.std.specs.Prelude.{◌≡◌, ◌++◌, ◌≤◌, ℕ, Bool, List, Option, Contains, length};
ghost use Rattle.std.specs.List.{AllZip};
ghost use Rattle.answer_texts.specs.declared.answers.AnswerText.{AnswerText as Answer};
ghost use Rattle.cnf_core.specs.Formula.{AreOver, Satisfies};
ghost use Rattle.cycle_encoding.specs.Allocations.{allocation_of};
ghost use Rattle.cycle_encoding.specs.CycleFormula.{launch_vars, Listed as ListedOf};
ghost use Rattle.cycle_encoding.specs.Encodings.{AreListed};
ghost use Rattle.cycle_encoding.specs.Shapes.{shown};
ghost use Rattle.cycle_encoding.specs.declared.encodings.Encoding.{Encoding as EncodingOf};
ghost use Rattle.denali_run.specs.ClaimedResults.{StartsWithinFormat, answer_text, answer_to};
ghost use Rattle.denali_run.specs.MatchedGoals.{IsSettings};
ghost use Rattle.denali_run.specs.Right.{AreRightResults};
ghost use Rattle.denali_run.specs.declared.results.Answered.{Answered as AnsweredOf};
ghost use Rattle.denali_run.specs.declared.settings.Settings.{Settings as SettingsOf};
ghost use Rattle.goal_meaning.specs.Views.{InputTree};
ghost use Rattle.goal_meaning.specs.WellFormed.{IsInput};
ghost use Rattle.graph_meaning.specs.WellFormed.{IsLaunchGraph};
ghost use Rattle.graph_meaning.specs.declared.graphs.LaunchGraph.{LaunchGraph as Graph};
ghost use Rattle.machine_table.specs.Tables.{IsTable};
ghost use Rattle.machine_table.specs.declared.tables.Table.{Table as TableOf};
ghost use Rattle.order_encoding.specs.WholeFormula.{whole_formula};
ghost use Rattle.schedule_meaning.specs.Fits.{Fits};
ghost use Rattle.schedule_meaning.specs.declared.schedules.Launch.{Launch as LaunchOf};
ghost use Rattle.text_core.specs.LineTexts.{lines_text};
ghost use Rattle.text_core.specs.declared.faults.Kind.{Kind};
ghost use Rattle.least_launch.specs.FewerLaunches.{fewer_formula};
ghost use Rattle.least_launch.specs.LeastAnswers.{IsTailOf};
ghost use Rattle.least_launch.specs.TailLines.{tail_lines};
ghost use Rattle.least_launch.specs.TailedAnswers.{IsTailedFault, ReadsTailed};
ghost use Rattle.least_launch.specs.declared.tails.Tail.{Tail as TailOf};

use answer_texts::one_answer;
use cnf_core::counters_count;
use denali_run::right_answers_are_read;
use order_encoding::each_encoding_says_fits;
use refutation_check::printed_lines_are_read_back;
use schedule_meaning::fitting_schedules_are_small;
use text_core::{one_splitting, printed_lines_are_lines};

/// In each encoding, values that satisfy the clauses of schedules with at most n launches show a schedule that fits, by
/// the encoding's allocation, and has at most n. Where the clauses before the counter are over the variables before it,
/// as they are in each formula that is built, and some schedule with at most n launches fits so, some values satisfy
/// them, which show launches of that schedule.
pub fn fewer_clauses_say_fits()
    ensures shown { (e : EncodingOf) (g : Graph) (table : TableOf) (k n : ℕ) (l : ListedOf) (v : ℕ → Bool)
        → IsTable table → IsLaunchGraph g → AreListed e g table k l → Satisfies v (fewer_formula g table k l n).clauses
        → Fits g table (allocation_of e) k (shown v (launch_vars l))
        × (length (shown v (launch_vars l)) ≤ n) }
    ensures some { (e : EncodingOf) (g : Graph) (table : TableOf) (k n : ℕ) (l : ListedOf) (ls : List LaunchOf)
        → IsTable table → IsLaunchGraph g → AreListed e g table k l
        → AreOver (whole_formula g table k l).vars (whole_formula g table k l).clauses
        → Fits g table (allocation_of e) k ls → length ls ≤ n
        → (v : ℕ → Bool) × Satisfies v (fewer_formula g table k l n).clauses
        × ((x : LaunchOf) → Contains (shown v (launch_vars l)) x → Contains ls x) }
{
    counters_count();
    each_encoding_says_fits();
}

/// Right results of an input, with what is said of their schedules, are read back from their text, if the first graph of
/// each goal has no more rows than the format allows for a goal.
pub fn tailed_answers_are_read()
    ensures { (s : SettingsOf) (input : InputTree) (results : List AnsweredOf) (said : List (Option TailOf))
        → IsInput input → IsSettings s → StartsWithinFormat input
        → AreRightResults input s results → AllZip (IsTailOf input.table s.allocation s.conflicts) results said
        → ReadsTailed (answer_text s input results ++ lines_text (tail_lines said))
        (answer_to s input results) said }
{
    right_answers_are_read();
    printed_lines_are_lines();
    printed_lines_are_read_back();
    fitting_schedules_are_small();
}

/// A text is at most one answer with lines behind it, and a text that is one has no fault. There is at most one first fault.
pub fn one_tailed_answer()
    ensures once { (text : List ℕ) (answer other : Answer) (said others : List (Option TailOf))
        → ReadsTailed text answer said → ReadsTailed text other others → (answer ≡ other) × (said ≡ others) }
    ensures apart { (text : List ℕ) (answer : Answer) (said : List (Option TailOf)) (place : ℕ) (kind : Kind)
        → ReadsTailed text answer said → IsTailedFault text place kind → ⊥ }
    ensures first { (text : List ℕ) (place other : ℕ) (kind another : Kind)
        → IsTailedFault text place kind → IsTailedFault text other another → (place ≡ other) × (kind ≡ another) }
{
    one_splitting();
    one_answer();
    printed_lines_are_read_back();
}
