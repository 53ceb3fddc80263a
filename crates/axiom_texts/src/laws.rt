// Which words ask for families, and where their text may stand. The calls do nothing: their clauses are laws.
ghost use Rattle.std.specs.Prelude.{◌≡◌, ◌↔◌, ◌++◌, ℕ, List, [], Some, flat_map};
ghost use Rattle.goal_meaning.specs.Views.{GoalTree};
ghost use Rattle.goal_reader.specs.Printing.{input_text};
ghost use Rattle.machine_table.specs.declared.tables.Table.{Table as TableOf};
ghost use Rattle.axiom_library.specs.Families.{axioms_of};
ghost use Rattle.axiom_library.specs.declared.families.Family.{Family as FamilyOf};
ghost use Rattle.axiom_texts.specs.Asked.{IsAsked, asked_families};
ghost use Rattle.axiom_texts.specs.LibraryText.{library_text, of_goals};

/// Words ask for families exactly where they are these families' names in this order, one or more and no two the same,
/// and the program writes these families.
pub fn words_name_families()
    ensures { (words : List (List ℕ)) (families : List FamilyOf)
        → (asked_families words ≡ Some families) ↔ IsAsked words families }
{}

/// In front of the canonical text of goals alone the text of families makes the canonical text of these goals with the
/// families' axioms.
pub fn texts_stand_before_goals()
    ensures { (families : List FamilyOf) (table : TableOf) (goals : List GoalTree)
        → library_text families ++ input_text (of_goals table [] goals)
        ≡ input_text (of_goals table (flat_map axioms_of families) goals) }
{}
