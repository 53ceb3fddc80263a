// What holds of all inputs and goals. The calls do nothing: their clauses are laws.
ghost use Rattle.std.specs.Prelude.{◌≡◌, List, [], None, true, false, find, All, IfSome};
ghost use Rattle.std.specs.List.{AllZip};
ghost use Rattle.goal_meaning.specs.Expanded.{expanded, let_terms};
ghost use Rattle.goal_meaning.specs.Holds.{Holds, HoldsFor};
ghost use Rattle.goal_meaning.specs.Outcomes.{exit, fall, is_left, is_memory, new_memory, new_words, outcome};
ghost use Rattle.goal_meaning.specs.Views.{GoalTree, InputTree};
ghost use Rattle.goal_meaning.specs.WellFormed.{IsAssume, IsGoal, IsGoalTerm, IsTarget, IsTermOver, let_sorts};
ghost use Rattle.goal_meaning.specs.declared.goals.DeclaredOp.{DeclaredOp};
ghost use Rattle.word_ops.specs.Worlds.{World, memory};
ghost use Rattle.word_ops.specs.declared.sorts.Op.{Op as Operator};
ghost use Rattle.word_ops.specs.declared.sorts.Sort.{Sort as SortOf};
ghost use Rattle.word_ops.specs.declared.sorts.Sort.TheVariants as sorts;
ghost use Rattle.word_terms.specs.Tree.{Tree, substituted};

/// Whether the axioms of an input hold in a world depends on its declared operators and its axioms alone, not on its
/// table or its goals; an input without axioms holds in each world.
pub fn axioms_hold_for_all_goals()
    ensures same { (input other : InputTree) (world : World) → input.ops ≡ other.ops → input.axioms ≡ other.axioms
        → Holds input world → Holds other world }
    ensures none { (input : InputTree) (world : World) → input.axioms ≡ [] → Holds input world }
    ensures goal { (input : InputTree) (goal : GoalTree) (world : World) → goal.assumes ≡ []
        → Holds input world → HoldsFor input goal world }
{}

/// If a goal has no guard, or one that isn't 0, its targets get their new values; if its guard is 0, the block is left.
/// The memory stays as it is where it is no target.
pub fn goals_have_outcomes()
    ensures unguarded { (declared : List DeclaredOp) (world : World) (goal : GoalTree) → (expanded goal).guard ≡ None
        → outcome declared world goal
        ≡ fall (new_words declared world (expanded goal).sets) (new_memory declared world (expanded goal).sets) }
    ensures stays { (declared : List DeclaredOp) (world : World) (goal : GoalTree)
        → is_left declared world (expanded goal).guard ≡ false
        → outcome declared world goal
        ≡ fall (new_words declared world (expanded goal).sets) (new_memory declared world (expanded goal).sets) }
    ensures leaves { (declared : List DeclaredOp) (world : World) (goal : GoalTree)
        → is_left declared world (expanded goal).guard ≡ true → outcome declared world goal ≡ exit }
    ensures memory { (declared : List DeclaredOp) (world : World) (goal : GoalTree) → find is_memory goal.sets ≡ None
        → new_memory declared world goal.sets ≡ memory world.memory_at_entry }
{}

/// A goal without lets is what it is expanded to.
pub fn goals_without_lets_are_expanded()
    ensures { (declared : List DeclaredOp) (goal : GoalTree) → IsGoal declared goal → goal.lets ≡ []
        → expanded goal ≡ goal }
{}

/// The terms that the names of lets stand for have the sorts of the lets, and no lets in them; and so do those of the
/// expanded goal.
pub fn expanded_terms_are_sorted()
    ensures lets { (declared : List DeclaredOp) (goal : GoalTree) → IsGoal declared goal
        → AllZip (IsTermOver declared goal.inputs []) (let_sorts goal) (let_terms goal) }
    ensures terms { (declared : List DeclaredOp) (goal : GoalTree) (sort : SortOf) (t : Tree Operator)
        → IsGoal declared goal → IsGoalTerm declared goal sort t
        → IsTermOver declared goal.inputs [] sort (substituted (let_terms goal) t) }
    ensures assumes { (declared : List DeclaredOp) (goal : GoalTree) → IsGoal declared goal
        → All (IsAssume declared (expanded goal)) (expanded goal).assumes }
    ensures guard { (declared : List DeclaredOp) (goal : GoalTree) → IsGoal declared goal
        → IfSome (expanded goal).guard (IsTermOver declared goal.inputs [] sorts.Word) }
    ensures sets { (declared : List DeclaredOp) (goal : GoalTree) → IsGoal declared goal
        → All (IsTarget declared (expanded goal)) (expanded goal).sets }
{}
