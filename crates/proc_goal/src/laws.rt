// What holds of all texts of procs. The calls do nothing: their clauses are laws.
ghost use Rattle.std.specs.Prelude.{◌≡◌, ◌<◌, ◌^◌, ℕ, List, length};
ghost use Rattle.goal_meaning.specs.WellFormed.{IsInput};
ghost use Rattle.proc_goal.specs.Goals.{input_of_proc};
ghost use Rattle.proc_goal.specs.ProcForms.{proc_text};
ghost use Rattle.proc_goal.specs.ProcGrammar.{IsFirstProcFault, ReadsProc};
ghost use Rattle.proc_goal.specs.Views.{ProcTree};
ghost use Rattle.proc_goal.specs.WellFormed.{IsProc};
ghost use Rattle.text_core.specs.declared.faults.Kind.{Kind};

use forms::{one_reading, printed_lines_are_read};
use goal_reader::{read_terms_are_well_sorted, terms_have_one_reading};
use machine_table::{one_table, printed_tables_are_read, tables_keep_limits};
use text_core::one_lexing;

/// A text has one reading as a proc, or one first fault, and never both.
pub fn procs_have_one_reading()
    ensures once { (text : List ℕ) (p q : ProcTree) → ReadsProc text p → ReadsProc text q → p ≡ q }
    ensures apart { (text : List ℕ) (p : ProcTree) (place : ℕ) (kind : Kind)
        → ReadsProc text p → IsFirstProcFault text place kind → ⊥ }
    ensures first { (text : List ℕ) (place other : ℕ) (kind another : Kind)
        → IsFirstProcFault text place kind → IsFirstProcFault text other another
        → (place ≡ other) × (kind ≡ another) }
{
    one_reading();
    one_table();
    terms_have_one_reading();
}

/// The proc that a text of fewer than 2^29 bytes is read as is well formed.
pub fn read_procs_are_well_formed()
    ensures { (text : List ℕ) (p : ProcTree) → length text < 2 ^ 29 → ReadsProc text p → IsProc p }
{
    one_reading();
    one_lexing();
    tables_keep_limits();
    printed_tables_are_read();
    read_terms_are_well_sorted();
}

/// The canonical text of a well-formed proc is read as that proc.
pub fn printed_procs_are_read()
    ensures { (p : ProcTree) → IsProc p → ReadsProc (proc_text p) p }
{
    one_lexing();
    printed_lines_are_read();
    printed_tables_are_read();
}

/// The goals of a well-formed proc are a well-formed input.
pub fn goals_of_procs_are_well_formed()
    ensures { (p : ProcTree) → IsProc p → IsInput (input_of_proc p) }
{}
