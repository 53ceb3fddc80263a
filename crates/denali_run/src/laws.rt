// What the text of an answer says of its results. The calls do nothing: their clauses hold of all results.
ghost use Rattle.std.specs.Prelude.{◌≡◌, List};
ghost use Rattle.goal_meaning.specs.Views.{InputTree};
ghost use Rattle.goal_meaning.specs.WellFormed.{IsInput};
ghost use Rattle.answer_texts.specs.ReadAnswers.{ReadsAnswer};
ghost use Rattle.denali_run.specs.ClaimedResults.{StartsWithinFormat, answer_to, answer_text};
ghost use Rattle.denali_run.specs.MatchedGoals.{IsSettings};
ghost use Rattle.denali_run.specs.Right.{AreRightResults};
ghost use Rattle.denali_run.specs.declared.results.Answered.{Answered as AnsweredOf};
ghost use Rattle.denali_run.specs.declared.settings.Settings.{Settings as SettingsOf};

use alpha_encode::words_and_instructions;
use answer_texts::{launches_have_own_lines, printed_answers_are_read, word_lines_can_be_lines};
use launch_graph::{one_graph, printed_graphs_are_lines};
use machine_table::tables_keep_limits;
use refutation_check::printed_lines_are_read_back;
use text_core::{one_splitting, printed_lines_are_lines};

/// Two lists of right results of one input that print the same text are equal. So a reader of the bytes knows which
/// results the answer speaks of.
pub fn one_text_has_one_answer()
    ensures { (s : SettingsOf) (input : InputTree) (results others : List AnsweredOf)
        → IsInput input → IsSettings s
        → AreRightResults input s results
        → AreRightResults input s others
        → answer_text s input results ≡ answer_text s input others → results ≡ others }
{
    words_and_instructions();
    printed_graphs_are_lines();
    one_graph();
    tables_keep_limits();
    printed_lines_are_read_back();
    one_splitting();
    printed_lines_are_lines();
    word_lines_can_be_lines();
    launches_have_own_lines();
}

/// The text of right results of an input is read back as the answer that they make, if the first graph of each goal has
/// no more rows than the format allows for a goal.
pub fn right_answers_are_read()
    ensures { (s : SettingsOf) (input : InputTree) (results : List AnsweredOf)
        → IsInput input → IsSettings s → StartsWithinFormat input
        → AreRightResults input s results
        → ReadsAnswer (answer_text s input results) (answer_to s input results) }
{
    printed_answers_are_read();
    tables_keep_limits();
    printed_lines_are_read_back();
}
