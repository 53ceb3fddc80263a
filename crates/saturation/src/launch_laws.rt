// Laws of launch graphs, as contracts of functions that do nothing.
ghost use Rattle.std.specs.Prelude.{ℕ, ◌<◌, ◌^◌, length, Contains};
ghost use Rattle.word_ops.specs.declared.sorts.Op.{Op as TermOperator};
ghost use Rattle.word_terms.specs.Keys.{op_signature};
ghost use Rattle.axiom_library.specs.declared.libraries.Library.{Library as LibraryOf};
ghost use Rattle.egraph.specs.Graph.{Graph, IsGraph};
ghost use Rattle.goal_meaning.specs.Names.{declared_name};
ghost use Rattle.goal_meaning.specs.Views.{GoalTree, InputTree};
ghost use Rattle.goal_meaning.specs.WellFormed.{IsInput};
ghost use Rattle.graph_meaning.specs.declared.graphs.LaunchGraph.{LaunchGraph};
ghost use Rattle.saturation.specs.GoalTerms.{assumed_pairs, kept_terms, present_terms, rules_of};
ghost use Rattle.saturation.specs.GraphStands.{GraphStands};
ghost use Rattle.saturation.specs.Grown.{IsGrown};
ghost use Rattle.saturation.specs.Launched.{CanMakeLaunchGraph, IsLaunched};
ghost use Rattle.saturation.specs.StandsFor.{StandsFor};

use crate::goal_laws::axioms_make_rules_true;
use axiom_base::schemes_are_true;
use axiom_library::library_axioms_are_well_formed;
use goal_meaning::expanded_terms_are_sorted;

/// Does nothing. Its clause is a law: the launch graph made from a graph that stands for a goal's terms stands for the
/// goal.
pub fn launched_graphs_stand()
    ensures stand { (library : LibraryOf) (input : InputTree) (goal : GoalTree) (graph : Graph TermOperator)
        (g : LaunchGraph) → IsInput input → IsLaunched input.ops goal graph g →
        GraphStands (declared_name input.ops) (rules_of library input) (assumed_pairs goal) (kept_terms goal) graph →
        StandsFor input goal g }
{
    axioms_make_rules_true();
}

/// Does nothing. Its clause is a law: from a graph of a goal after a number of rounds, with fewer than 2 ^ 30 rows, a
/// launch graph can be made, since rounds make only operators that stand in the goal, in an axiom or in the rules of
/// every text or of a library.
pub fn grown_graphs_can_be_launched()
    ensures can { (library : LibraryOf) (input : InputTree) (goal : GoalTree) (graph : Graph TermOperator) (j : ℕ) →
        IsInput input → Contains input.goals goal → IsGraph op_signature graph → length graph.rows < 2 ^ 30 →
        IsGrown (rules_of library input) (present_terms goal) (assumed_pairs goal) graph j →
        CanMakeLaunchGraph input.ops goal graph }
{
    axioms_make_rules_true();
    library_axioms_are_well_formed();
    schemes_are_true();
    expanded_terms_are_sorted();
}
