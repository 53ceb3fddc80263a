// What holds of the lines of each launch graph. The calls do nothing: their clauses hold of all graphs.
ghost use Rattle.std.specs.Prelude.{◌≡◌, ◌≤◌, ◌++◌, ℕ, List, All, length};
ghost use Rattle.text_core.specs.Lines.{AreLines, Line};
ghost use Rattle.text_core.specs.declared.faults.Kind.{Kind};
ghost use Rattle.text_core.specs.LineTexts.{CanBeLine, Words, lines_text, placed_lines};
ghost use Rattle.launch_graph.specs.GraphTexts.{IsGraphAt, IsGraphOf, EndsGraph};
ghost use Rattle.launch_graph.specs.LineFaults.{IsFirstFaultOf, IsFirstGraphFault};
ghost use Rattle.launch_graph.specs.LineFormats.{words_between, words_from};
ghost use Rattle.launch_graph.specs.GraphLines.{AreGraphLines, graph_lines, said};
ghost use Rattle.graph_meaning.specs.Graphs.{HasNoPins};
ghost use Rattle.graph_meaning.specs.WellFormed.{IsLaunchGraph};
ghost use Rattle.graph_meaning.specs.declared.graphs.LaunchGraph.{LaunchGraph as Graph};

use graph_meaning::classes_are_multiples;
use text_core::printed_lines_are_lines;
use word_ops::operators_are_listed;

/// The lines that a well-formed graph prints are lines of words, wherever they stand in a text; with at most 1,000,000
/// rows they have the form of a graph's lines from version 2 on, and without pins in version 1 too.
pub fn printed_graphs_are_lines()
    ensures form { (g : Graph) → IsLaunchGraph g → HasNoPins g → length g.rows ≤ 1000000 → AreGraphLines 1 (said g) }
    ensures pinned { (version : ℕ) (g : Graph) → 2 ≤ version → IsLaunchGraph g → length g.rows ≤ 1000000
        → AreGraphLines version (said g) }
    ensures words { (g : Graph) → IsLaunchGraph g → All CanBeLine (graph_lines (said g)) }
    ensures lines { (g : Graph) (place : ℕ) → IsLaunchGraph g
        → AreLines place (placed_lines place (graph_lines (said g))) (lines_text (graph_lines (said g))) }
{
    printed_lines_are_lines();
}

/// From a line on there is at most one graph, and where there is one, no fault. There is at most one first fault. The
/// lines that a well-formed graph without pins prints are read as that graph, wherever they stand and whatever follows
/// them, unless a graph could go on with it. Two well-formed graphs with the same lines are one graph, however many
/// rows they have.
pub fn one_graph()
    ensures graph { (lines : List Line) (from next other : ℕ) (g h : Graph)
        → IsGraphAt lines from next g → IsGraphAt lines from other h → (next ≡ other) × (g ≡ h) }
    ensures apart { (lines : List Line) (from next place : ℕ) (g : Graph) (kind : Kind)
        → IsGraphAt lines from next g → IsFirstGraphFault lines from place kind → ⊥ }
    ensures first { (lines : List Line) (from place other : ℕ) (kind another : Kind)
        → IsFirstGraphFault lines from place kind → IsFirstGraphFault lines from other another
        → (place ≡ other) × (kind ≡ another) }
    ensures printed { (lines : List Line) (from next : ℕ) (g : Graph) → IsLaunchGraph g → HasNoPins g
        → length g.rows ≤ 1000000 → from ≤ next → next ≤ length lines → words_between lines from next ≡ graph_lines (said g)
        → EndsGraph (words_from lines next) → IsGraphAt lines from next g }
    ensures alike { (g h : Graph) (behind other : List Words) → IsLaunchGraph g → IsLaunchGraph h
        → EndsGraph behind → EndsGraph other
        → graph_lines (said g) ++ behind ≡ graph_lines (said h) ++ other → (g ≡ h) × (behind ≡ other) }
{
    operators_are_listed();
    classes_are_multiples();
}

/// What `one_graph` says of version 1 holds of each version. From version 2 on the lines of each well-formed graph are
/// read as that graph, with its pins. What is a graph in version 1 is the same one in each version.
pub fn one_graph_of_each_version()
    ensures graph { (version : ℕ) (lines : List Line) (from next other : ℕ) (g h : Graph)
        → IsGraphOf version lines from next g → IsGraphOf version lines from other h → (next ≡ other) × (g ≡ h) }
    ensures apart { (version : ℕ) (lines : List Line) (from next place : ℕ) (g : Graph) (kind : Kind)
        → IsGraphOf version lines from next g → IsFirstFaultOf version lines from place kind → ⊥ }
    ensures first { (version : ℕ) (lines : List Line) (from place other : ℕ) (kind another : Kind)
        → IsFirstFaultOf version lines from place kind → IsFirstFaultOf version lines from other another
        → (place ≡ other) × (kind ≡ another) }
    ensures printed { (version : ℕ) (lines : List Line) (from next : ℕ) (g : Graph) → 2 ≤ version → IsLaunchGraph g
        → length g.rows ≤ 1000000 → from ≤ next → next ≤ length lines → words_between lines from next ≡ graph_lines (said g)
        → EndsGraph (words_from lines next) → IsGraphOf version lines from next g }
    ensures unpinned { (version : ℕ) (lines : List Line) (from next : ℕ) (g : Graph) → IsGraphOf 1 lines from next g
        → IsGraphOf version lines from next g × HasNoPins g }
{
    operators_are_listed();
    classes_are_multiples();
}
