// Laws of the definitions, as contracts of functions that do nothing.
ghost use Rattle.std.specs.Prelude.{◌≡◌, ℕ, ◌<◌, ◌≤◌, ◌^◌, ◌++◌, List, All, length};
ghost use Rattle.word_ops.specs.Worlds.{World, IsWorld};
ghost use Rattle.word_ops.specs.declared.sorts.Op.{Op as TermOperator};
ghost use Rattle.word_terms.specs.Keys.{op_signature};
ghost use Rattle.word_terms.specs.Tree.{Tree};
ghost use Rattle.egraph.specs.Graph.{Graph, IsGraph};
ghost use Rattle.alpha_encode.specs.Formats.{IsWellFormed};
ghost use Rattle.alpha_encode.specs.declared.instructions.Instr.{Instr};
ghost use Rattle.goal_meaning.specs.Expanded.{expanded};
ghost use Rattle.goal_meaning.specs.Names.{declared_name};
ghost use Rattle.goal_meaning.specs.Views.{GoalTree, InputTree};
ghost use Rattle.goal_meaning.specs.WellFormed.{IsInput, IsGoal};
ghost use Rattle.text_core.specs.declared.faults.Kind.{Kind as FaultKind};
ghost use Rattle.axiom_library.specs.declared.libraries.Library.{Library};
ghost use Rattle.saturation.specs.AtStart.{IsGrownAtStart, IsHopelessAtStart, IsSorted, StandsAtStart, StartFaultIs};
ghost use Rattle.saturation.specs.GoalTerms.{assumed_pairs, kept_terms, rules_of};
ghost use Rattle.saturation.specs.GraphStands.{GraphStands};
ghost use Rattle.saturation.specs.Rounds.{IsHopeless, IsImpossible, IsSaturated, KeepsStanding};
ghost use Rattle.saturation.specs.Trace.{AreInserted};
ghost use Rattle.saturation.specs.declared.faults.SaturateFault.TheVariants.{NoWorld as round_no_world};
ghost use Rattle.saturation.specs.declared.faults.StartFault.TheVariants.{NoWorld as start_no_world};
ghost use Rattle.graph_meaning.specs.declared.stops.Stop.{Stop as StopCause};
ghost use Rattle.code_check.specs.CodeGrammar.{CheckedTree, IsFirstCodesFault, ReadsCodes};
ghost use Rattle.code_check.specs.Codes.{FitsGoal};
ghost use Rattle.code_check.specs.Outcomes.{entry_state, DoesGoal, IsCode};
ghost use Rattle.code_check.specs.Same.{Same};
ghost use Rattle.code_check.specs.Terms.{terms_at_entry, terms_from, written_terms};
ghost use Rattle.code_check.specs.Values.{HaveValues, after_all};
ghost use Rattle.code_check.specs.Verified.{AreOneAnswer, HasNoWorld, IsCompared, IsRightFor};
ghost use Rattle.code_check.specs.declared.codes.At.{At as Place};
ghost use Rattle.code_check.specs.declared.codes.Code.{Code as CheckedCode};
ghost use Rattle.code_check.specs.declared.codes.Verified.{Verified as Answer};

use alpha_machine::{displacements_are_low_bits, steps_add_up};
use forms::one_reading;
use goal_reader::{
    read_inputs_are_well_formed, texts_have_one_first_fault, texts_have_one_reading,
};
use graph_meaning::classes_are_multiples;
use saturation::{
    axioms_make_rules_true, grown_graphs_are_one, more_terms_may_be_inserted, rounds_end_once,
};
use word_ops::{meanings_are_in_range, memories_hold_words};

/// A text has one reading as goals and codes, or one first fault, and never both.
pub fn codes_have_one_reading()
    ensures once { (text : List ℕ) (checked other : CheckedTree) → length text < 2 ^ 29 → ReadsCodes text checked
        → ReadsCodes text other → checked ≡ other }
    ensures apart { (text : List ℕ) (checked : CheckedTree) (place : ℕ) (kind : FaultKind) → length text < 2 ^ 29
        → ReadsCodes text checked → IsFirstCodesFault text place kind → ⊥ }
    ensures first { (text : List ℕ) (place other : ℕ) (kind another : FaultKind) → IsFirstCodesFault text place kind
        → IsFirstCodesFault text other another → (place ≡ other) × (kind ≡ another) }
{
    one_reading();
    texts_have_one_reading();
    texts_have_one_first_fault();
    read_inputs_are_well_formed();
}

/// Does nothing. Its clause is a law of straight-line code: after its instructions registers and memory have the values
/// of their terms, in every world from which they start.
pub fn terms_are_what_words_compute()
    ensures values { (world : World) (names : ℕ → List ℕ) (instrs : List Instr) → IsWorld world → All IsWellFormed instrs →
        HaveValues world names (terms_from instrs terms_at_entry) (after_all instrs (entry_state world)) }
{
    displacements_are_low_bits();
    meanings_are_in_range();
    memories_hold_words();
}

/// Does nothing. Its clause is a law: where code and goal are the same in a graph that stands for any terms, the words
/// have the goal's outcome in each world in which axioms and assumptions hold. So they don't trap there.
pub fn same_code_does_the_goal()
    ensures does_goal { (input : InputTree) (goal : GoalTree) (words : List ℕ) (instrs : List Instr) (places : List Place)
        (terms : List (Tree TermOperator)) (graph : Graph TermOperator) (library : Library) →
        IsInput input → IsGoal input.ops goal → IsCode words instrs → length words < 2 ^ 29 → All (λ p. p.reg < 31) places →
        GraphStands (declared_name input.ops) (rules_of library input) (assumed_pairs goal) terms graph →
        Same graph (expanded goal) instrs places →
        DoesGoal input goal words places }
{
    displacements_are_low_bits();
    meanings_are_in_range();
    memories_hold_words();
    axioms_make_rules_true();
    steps_add_up();
    classes_are_multiples();
}

/// Does nothing. Its clause is a law: the terms that well-formed instructions write are well formed.
pub fn written_terms_are_sorted()
    ensures sorted { (instrs : List Instr) → All IsWellFormed instrs → All IsSorted (written_terms instrs) }
{}

/// Does nothing. Its clauses are laws of a check: the graph of a goal's start, into which the terms of the code are
/// inserted, is after the rounds the one in which the parts are compared, and stands; and where the start or the rounds
/// are refused, so are those over these terms.
pub fn compared_graphs_decide()
    ensures compared { (input : InputTree) (goal : GoalTree) (instrs : List Instr) (rounds nodes : ℕ)
        (library : Library) (j : ℕ) (stop : StopCause) (first inserted last : Graph TermOperator) →
        IsGraph op_signature first → IsGrownAtStart goal first →
        AreInserted (written_terms instrs) first inserted →
        IsSaturated (rules_of library input) inserted rounds nodes last j stop → j ≤ rounds →
        IsCompared input goal instrs rounds nodes library last j stop }
    ensures stand { (input : InputTree) (goal : GoalTree) (instrs : List Instr) (library : Library)
        (first inserted last : Graph TermOperator) →
        IsGraph op_signature first → StandsAtStart goal first → All IsWellFormed instrs →
        AreInserted (written_terms instrs) first inserted → KeepsStanding (rules_of library input) inserted last →
        GraphStands (declared_name input.ops) (rules_of library input) (assumed_pairs goal)
        (kept_terms goal ++ written_terms instrs) last }
    ensures start { (input : InputTree) (goal : GoalTree) (instrs : List Instr) (rounds nodes : ℕ) (library : Library)
        (class a b : ℕ) →
        IsInput input → StartFaultIs goal (start_no_world class a b) → IsHopelessAtStart goal (start_no_world class a b) →
        HasNoWorld input goal instrs rounds nodes library a b }
    ensures round { (input : InputTree) (goal : GoalTree) (instrs : List Instr) (rounds nodes : ℕ) (library : Library)
        (a b class : ℕ) (first inserted : Graph TermOperator) → IsInput input → IsGraph op_signature first →
        IsGrownAtStart goal first →
        StandsAtStart goal first → All IsWellFormed instrs → AreInserted (written_terms instrs) first inserted →
        IsImpossible (rules_of library input) inserted rounds nodes a b →
        IsHopeless (rules_of library input) inserted (round_no_world class a b) →
        HasNoWorld input goal instrs rounds nodes library a b }
{
    written_terms_are_sorted();
    more_terms_may_be_inserted();
    axioms_make_rules_true();
    grown_graphs_are_one();
}

/// Does nothing. Its clause is a law: two right answers to one code are of one kind, and where they are unknown, they are
/// so after one number of rounds and for one part.
pub fn codes_have_one_answer()
    ensures one { (input : InputTree) (goal : GoalTree) (code : CheckedCode) (rounds nodes : ℕ) (library : Library)
        (x y : Answer) →
        IsInput input → FitsGoal goal code → IsRightFor input goal code rounds nodes library x →
        IsRightFor input goal code rounds nodes library y → AreOneAnswer x y }
{
    axioms_make_rules_true();
    rounds_end_once();
    grown_graphs_are_one();
}
