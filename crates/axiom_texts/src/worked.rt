// What some words ask for, and the text of some families, by the definitions.
ghost use Rattle.std.specs.Prelude.{◌≡◌, [], ◌∷◌, ◌++◌, None, Some, codes};
ghost use Rattle.axiom_library.specs.declared.families.Family.TheVariants.{Sums, Halves, Rounding};
ghost use Rattle.axiom_texts.specs.Asked.{asked_families};
ghost use Rattle.axiom_texts.specs.LibraryText as meant;

/// Words are whole names, one or more of them and each once; the families' texts stand in the order of the words.
#[tactic(auto, unfolding(crate::specs::Written::written_named))]
pub fn worked_texts()
    ensures one { asked_families (codes "sums" ∷ []) ≡ Some (Sums ∷ []) }
    ensures in_order { asked_families (codes "rounding" ∷ codes "sums" ∷ []) ≡ Some (Rounding ∷ Sums ∷ []) }
    ensures no_words { asked_families [] ≡ None }
    ensures no_name { asked_families (codes "sums" ∷ codes "sum" ∷ []) ≡ None }
    ensures twice { asked_families (codes "sums" ∷ codes "rounding" ∷ codes "sums" ∷ []) ≡ None }
    ensures text { meant.library_text (Sums ∷ [])
        ≡ codes "(axiom (x y) (addq x y) (s8addq (srl y 3) (addq x (and y 7))))\n" }
    ensures texts { meant.library_text (Halves ∷ Sums ∷ [])
        ≡ codes "(axiom (x y) (addq x y) (addq (addq x (zapnot (s4addq 8192 y) 252)) (sextw y)))\n"
        ++ codes "(axiom (x y) (addq x y) (s8addq (srl y 3) (addq x (and y 7))))\n" }
{}
