// Laws of what rounds begin with, as contracts of functions that do nothing.
ghost use Rattle.std.specs.Prelude.{All};
ghost use Rattle.word_ops.specs.Worlds.{World};
ghost use Rattle.axiom_base.specs.Rewrites.{IsRule};
ghost use Rattle.axiom_library.specs.declared.libraries.Library.{Library as LibraryOf};
ghost use Rattle.goal_meaning.specs.Holds.{HoldsFor};
ghost use Rattle.goal_meaning.specs.Names.{declared_name};
ghost use Rattle.goal_meaning.specs.Views.{GoalTree, InputTree};
ghost use Rattle.goal_meaning.specs.WellFormed.{IsInput};
ghost use Rattle.saturation.specs.GoalTerms.{assumed_pairs, rules_of};
ghost use Rattle.saturation.specs.GraphStands.{RulesHold};

use axiom_library::{
    library_axioms_are_well_formed, library_axioms_hold, library_equations_are_true,
};

/// Does nothing. Its clauses are laws of the rules that a well-formed input and a library give: they are well formed,
/// and are true in each world where the axioms of the input hold. Of the library nothing is asked, since its rules are
/// true in every world.
pub fn axioms_make_rules_true()
    ensures true_rules { (library : LibraryOf) (input : InputTree) (goal : GoalTree) (world : World) → IsInput input
        → HoldsFor input goal world
        → RulesHold world (declared_name input.ops) (rules_of library input) (assumed_pairs goal) }
    ensures are_rules { (library : LibraryOf) (input : InputTree) → IsInput input
        → All IsRule (rules_of library input).axioms }
{
    library_axioms_hold();
    library_axioms_are_well_formed();
    library_equations_are_true();
}
