// What holds of all texts, of their forms and of forms that are printed. The calls do nothing: their clauses are laws.
ghost use Rattle.std.specs.Prelude.{◌≡◌, ◌+◌, ◌≤◌, ℕ, All, List, length};
ghost use Rattle.std.specs.declared.alloc.Global.{Global as GlobalOf};
ghost use Rattle.std.specs.declared.vec.Vec.{Vec as VecOf};
ghost use Rattle.text_core.specs.Limits.{most_nesting};
ghost use Rattle.forms.specs.Forms.{Stands, Stand, atom, list, atom_of, token_bytes, forms_from, forms_of, sexp_form, sexp_forms};
ghost use Rattle.forms.specs.Printing.{Plains, CanPrintAll, most_levels, lines_of, plains_of};
ghost use Rattle.forms.specs.Reading.{TextHasTrees, IsFirstReadFault, IsNamedToken, IsSexpOf};
ghost use Rattle.text_core.specs.Sexps.{sexp_trees};
ghost use Rattle.text_core.specs.Trees.{SexpTrees};
ghost use Rattle.text_core.specs.declared.faults.Kind.{Kind};
ghost use Rattle.text_core.specs.declared.sexps.Sexp.{Sexp};
ghost use Rattle.text_core.specs.declared.sexps.Sexp.TheVariants as sexps;
ghost use Rattle.text_core.specs.declared.tokens.Token.{Token};

use text_core::{one_lexing, one_parsing, sexps_are_trees};

/// Which form an atom is, and which form a list is. An atom of a text lies within the text, and if it is a name, its
/// bytes are a well-formed name. The parts of a list of a text are trees of the text. A form of a text has a place, and
/// its parts follow one another.
pub fn sexps_are_forms()
    ensures atoms { (text : List ℕ) (token : Token)
        → sexp_form text (sexps.Atom token) ≡ atom token.place (atom_of token.kind (token_bytes text token)) }
    ensures lists { (text : List ℕ) (place : ℕ) (parts : VecOf Sexp GlobalOf)
        → sexp_form text (sexps.List place parts) ≡ list place (forms_from (sexp_forms text parts.items)) }
    ensures within { (text : List ℕ) (token : Token)
        → IsSexpOf text (sexps.Atom token) → token.place + token.len ≤ length text }
    ensures named { (text : List ℕ) (token : Token) → IsSexpOf text (sexps.Atom token) → IsNamedToken text token }
    ensures parts { (text : List ℕ) (place : ℕ) (parts : VecOf Sexp GlobalOf)
        → IsSexpOf text (sexps.List place parts) → All (IsSexpOf text) parts.items }
    ensures stands { (text : List ℕ) (form : Sexp)
        → IsSexpOf text form → (low : ℕ) × (high : ℕ) × Stands low high (sexp_form text form) }
{
    sexps_are_trees();
}

/// A text has at most one list of trees, and where it has one, neither its bytes nor its tokens have a fault. The trees
/// are trees of the text, and their forms follow one another within it. There is at most one first fault.
pub fn one_reading()
    ensures trees { (text : List ℕ) (trees others : SexpTrees)
        → TextHasTrees text trees → TextHasTrees text others → trees ≡ others }
    ensures of { (text : List ℕ) (forms : List Sexp)
        → TextHasTrees text (sexp_trees forms) → All (IsSexpOf text) forms }
    ensures stand { (text : List ℕ) (trees : SexpTrees)
        → TextHasTrees text trees → Stand 0 (length text) (forms_of text trees) }
    ensures apart { (text : List ℕ) (trees : SexpTrees) (place : ℕ) (kind : Kind)
        → TextHasTrees text trees → IsFirstReadFault text place kind → ⊥ }
    ensures first { (text : List ℕ) (place other : ℕ) (kind another : Kind)
        → IsFirstReadFault text place kind → IsFirstReadFault text other another
        → (place ≡ other) × (kind ≡ another) }
{
    one_lexing();
    one_parsing();
}

/// The lines of printed forms have trees, whose forms are those that were printed.
pub fn printed_lines_are_read()
    ensures { (printed : Plains) → CanPrintAll printed → most_levels printed ≤ most_nesting
        → (trees : SexpTrees) × TextHasTrees (lines_of printed) trees
        × (plains_of (forms_of (lines_of printed) trees) ≡ printed) }
{}
