// What holds of the library. The calls do nothing: their clauses are laws.
ghost use Rattle.std.specs.Prelude.{◌≡◌, ◌≢◌, ◌≤◌, ◌↔◌, ◌⊎◌, ℕ, false, IsTrue, List, [], length, All, AllPairs, Contains, Some};
ghost use Rattle.text_core.specs.Limits.{most_axioms};
ghost use Rattle.goal_meaning.specs.Holds.{Holds, HoldsOfAll};
ghost use Rattle.goal_meaning.specs.Views.{InputTree};
ghost use Rattle.goal_meaning.specs.WellFormed.{IsAxiom};
ghost use Rattle.goal_meaning.specs.declared.goals.DeclaredOp.{DeclaredOp};
ghost use Rattle.word_ops.specs.Worlds.{World};
ghost use Rattle.axiom_base.specs.Rewrites.{IsRule, IsTrueIn};
ghost use Rattle.axiom_library.specs.Asked.{asked_axioms, asked_equations, asked_kinds};
ghost use Rattle.axiom_library.specs.Families.{IsApart, IsOfLibrary, all_families, axioms_of, library};
ghost use Rattle.axiom_library.specs.Libraries.{all_but_halves, families_of, has_family, library_of, no_library, with_family};
ghost use Rattle.axiom_library.specs.Names.{family_name, family_named};
ghost use Rattle.axiom_library.specs.declared.families.Family.{Family as FamilyOf};
ghost use Rattle.axiom_library.specs.declared.families.Family.TheVariants.{Halves};
ghost use Rattle.axiom_library.specs.declared.libraries.Library.{Library as LibraryOf};

use word_ops::memories_hold_words;

/// Each axiom is true in every world, whatever operators are declared. So an input all of whose axioms are of the
/// library meets them in every world, and what is promised of its answers rests on a goal's own assumptions alone.
pub fn library_axioms_hold()
    ensures each { (family : FamilyOf) (declared : List DeclaredOp) (world : World)
        → All (HoldsOfAll declared world) (axioms_of family) }
    ensures inputs { (input : InputTree) (world : World) → All IsOfLibrary input.axioms → Holds input world }
    ensures asked { (library : LibraryOf) (declared : List DeclaredOp) (world : World)
        → All (HoldsOfAll declared world) (asked_axioms library) }
{}

/// Each axiom is one that a text may have, if no operator that the text declares has the name of one of its variables.
/// A text with the axioms of all families has no more of them than a text may have.
pub fn library_axioms_are_well_formed()
    ensures each { (family : FamilyOf) (declared : List DeclaredOp)
        → All (λ a. IsApart declared a → IsAxiom declared a) (axioms_of family) }
    ensures alone { (family : FamilyOf) → All (IsAxiom []) (axioms_of family) }
    ensures asked { (library : LibraryOf) → All (IsAxiom []) (asked_axioms library) }
    ensures few { length library ≤ most_axioms }
    ensures whole { (family : FamilyOf) → Contains all_families family }
{}

/// Each equation is a rule, and is true in every world for all words and memories.
pub fn library_equations_are_true()
    ensures rules { (library : LibraryOf) → All IsRule (asked_equations library) }
    ensures true_rules { (world : World) (names : ℕ → List ℕ) (library : LibraryOf)
        → All (IsTrueIn world names) (asked_equations library) }
{
    memories_hold_words();
}

/// A family is found by its name, so no two families have one name.
pub fn families_have_names()
    ensures found { (family : FamilyOf) → family_named (family_name family) ≡ Some family }
    ensures own { (name : List ℕ) (family : FamilyOf) → family_named name ≡ Some family → name ≡ family_name family }
    ensures differ { (family other : FamilyOf) → family_name family ≡ family_name other → family ≡ other }
{}

/// A library has the families that were put in, in whatever order, and its list has each of them once. Libraries with
/// the same families are the same, so a library is that of its own list.
pub fn libraries_have_families()
    ensures with_one { (library : LibraryOf) (family other : FamilyOf)
        → IsTrue (has_family (with_family library family) other)
        ↔ ((other ≡ family) ⊎ IsTrue (has_family library other)) }
    ensures of_list { (families : List FamilyOf) (family : FamilyOf)
        → IsTrue (has_family (library_of families) family) ↔ Contains families family }
    ensures listed { (library : LibraryOf) (family : FamilyOf)
        → Contains (families_of library) family ↔ IsTrue (has_family library family) }
    ensures once { (library : LibraryOf) → AllPairs (λ one other. one ≢ other) (families_of library) }
    ensures back { (library : LibraryOf) → library_of (families_of library) ≡ library }
    ensures same { (library other : LibraryOf)
        → ((family : FamilyOf) → has_family library family ≡ has_family other family) → library ≡ other }
    ensures all { (family : FamilyOf) → IsTrue (has_family all_but_halves family) ↔ (family ≢ Halves) }
{}

/// The library of no family asks for nothing.
pub fn no_library_asks()
    ensures families { (family : FamilyOf) → has_family no_library family ≡ false }
    ensures axioms { asked_axioms no_library ≡ [] }
    ensures equations { asked_equations no_library ≡ [] }
    ensures kinds { asked_kinds no_library ≡ [] }
{}
