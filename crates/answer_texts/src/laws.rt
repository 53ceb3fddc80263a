// What a text says as an answer is one thing. The calls do nothing: their clauses hold of all texts.
ghost use Rattle.std.specs.Prelude.{◌≡◌, ◌<◌, ◌^◌, ℕ, List, length, All, Some};
ghost use Rattle.alpha_encode.specs.Decoded.{decoded};
ghost use Rattle.alpha_encode.specs.declared.instructions.Instr.{Instr as Decoded};
ghost use Rattle.graph_meaning.specs.WellFormed.{IsLaunchGraph};
ghost use Rattle.graph_meaning.specs.declared.graphs.LaunchGraph.{LaunchGraph as Graph};
ghost use Rattle.machine_table.specs.Tables.{IsTable};
ghost use Rattle.machine_table.specs.declared.tables.Table.{Table as TableOf};
ghost use Rattle.schedule_meaning.specs.declared.schedules.Launch.{Launch as LaunchOf};
ghost use Rattle.text_core.specs.LineTexts.{CanBeLine};
ghost use Rattle.text_core.specs.declared.faults.Kind.{Kind};
ghost use Rattle.answer_texts.specs.AnswerLines.{answer_bytes, launch_words, word_words};
ghost use Rattle.answer_texts.specs.AnswerParts.{IsLaunch};
ghost use Rattle.answer_texts.specs.Printable.{IsPrintable};
ghost use Rattle.answer_texts.specs.ReadAnswers.{IsAnswerFault, ReadsAnswer};
ghost use Rattle.answer_texts.specs.WellFormed.{IsAnswer};
ghost use Rattle.answer_texts.specs.declared.answers.AnswerText.{AnswerText as Answer};

use alpha_encode::words_and_instructions;
use axiom_library::{families_have_names, libraries_have_families};
use launch_graph::{one_graph, one_graph_of_each_version, printed_graphs_are_lines};
use machine_table::{instructions_have_names, tables_keep_limits};
use refutation_check::printed_lines_are_read_back;
use text_core::{one_splitting, printed_lines_are_lines};
use word_ops::operators_are_listed;

/// A text is at most one answer, and a text that is one has no fault. There is at most one first fault.
pub fn one_answer()
    ensures answer { (text : List ℕ) (answer other : Answer)
        → ReadsAnswer text answer → ReadsAnswer text other → answer ≡ other }
    ensures apart { (text : List ℕ) (answer : Answer) (place : ℕ) (kind : Kind)
        → ReadsAnswer text answer → IsAnswerFault text place kind → ⊥ }
    ensures first { (text : List ℕ) (place other : ℕ) (kind another : Kind)
        → IsAnswerFault text place kind → IsAnswerFault text other another → (place ≡ other) × (kind ≡ another) }
{
    one_splitting();
    one_graph_of_each_version();
    printed_lines_are_read_back();
    instructions_have_names();
    tables_keep_limits();
    families_have_names();
    libraries_have_families();
}

/// An answer prints as the bytes that it was read from.
pub fn read_answers_print_their_text()
    ensures { (text : List ℕ) (answer : Answer) → ReadsAnswer text answer → answer_bytes answer ≡ text }
{
    printed_lines_are_lines();
}

/// Each answer that is read has an encoding of its version and a table within the limits. Each of its goals has either no
/// world, or a well-formed graph, in version 1 without pins, lines that are to refute fewer cycles, and numbers within
/// bounds.
pub fn read_answers_are_well_formed()
    ensures { (text : List ℕ) (answer : Answer) → length text < 2 ^ 29 → ReadsAnswer text answer → IsAnswer answer }
{
    one_splitting();
    printed_lines_are_lines();
    tables_keep_limits();
}

/// Launches on a graph that are printed alike are equal: what stands behind the row tells where a launch goes, since no two
/// sets have one pin.
pub fn launches_have_own_lines()
    ensures { (table : TableOf) (g : Graph) (l m : LaunchOf) → IsTable table → IsLaunchGraph g
        → IsLaunch table g l → IsLaunch table g m → launch_words table g l ≡ launch_words table g m → l ≡ m }
{}

/// The words of the line that prints an instruction word can be a line of a text.
pub fn word_lines_can_be_lines()
    ensures { (word : ℕ) (instr : Decoded) → word < 2 ^ 32 → decoded word ≡ Some instr → CanBeLine (word_words word) }
{
    words_and_instructions();
    printed_lines_are_lines();
    operators_are_listed();
}

/// An answer that can be printed is read back from the bytes that it prints. Only answers that can be printed are read.
pub fn printed_answers_are_read()
    ensures read { (answer : Answer) → IsPrintable answer → ReadsAnswer (answer_bytes answer) answer }
    ensures printable { (text : List ℕ) (answer : Answer) → ReadsAnswer text answer → IsPrintable answer }
{
    words_and_instructions();
    printed_graphs_are_lines();
    one_graph();
    one_graph_of_each_version();
    instructions_have_names();
    tables_keep_limits();
    printed_lines_are_read_back();
    printed_lines_are_lines();
    operators_are_listed();
    families_have_names();
    libraries_have_families();
}
