// What a text is read as is unique. The calls do nothing: their clauses hold of all texts.
ghost use Rattle.std.specs.Prelude.{◌≡◌, ◌+◌, ◌≤◌, ◌<◌, ◌^◌, ℕ, List, All, AllPairs, Contains, length, take, drop, map, decimal};
ghost use Rattle.std.specs.declared.vec.Vec.{Vec as VecOf};
ghost use Rattle.std.specs.declared.alloc.Global.{Global as GlobalOf};
ghost use Rattle.text_core.specs.Faults.{IsFirst};
ghost use Rattle.text_core.specs.Lexing.{HasTokens, IsLexFault, IsTokenOf};
ghost use Rattle.text_core.specs.LineTexts.{Words, CanBeLine, placed_lines, words_of_lines, lines_text};
ghost use Rattle.text_core.specs.Lines.{Line, IsLineWord, AreLines, HasLines, IsFirstLineFault, text_length};
ghost use Rattle.text_core.specs.Names.{IsName};
ghost use Rattle.text_core.specs.Nesting.{IsTreeFault, IsTreeFaultAt, IsFirstTreeFault};
ghost use Rattle.text_core.specs.Places.{ArePlaced, atoms_in_all};
ghost use Rattle.text_core.specs.Sexps.{sexp_tree, sexp_trees};
ghost use Rattle.text_core.specs.Trees.{SexpTrees, HasTrees, atom, list};
ghost use Rattle.text_core.specs.declared.faults.Kind.{Kind};
ghost use Rattle.text_core.specs.declared.sexps.Sexp.{Sexp};
ghost use Rattle.text_core.specs.declared.sexps.Sexp.TheVariants as sexps;
ghost use Rattle.text_core.specs.declared.tokens.Token.{Token};
ghost use Rattle.text_core.specs.declared.tokens.TokenKind.TheVariants as kinds;

/// A text has at most one list of tokens, and a text that has one has no fault in its bytes. There are at most as many
/// tokens as bytes; each token is that of the bytes at its place, and stands behind the one before; the bytes of a name
/// are a well-formed name. There is at most one first fault.
pub fn one_lexing()
    ensures tokens { (text : List ℕ) (tokens others : List Token)
        → HasTokens text tokens → HasTokens text others → tokens ≡ others }
    ensures each { (text : List ℕ) (tokens : List Token)
        → HasTokens text tokens → All (IsTokenOf text) tokens }
    ensures few { (text : List ℕ) (tokens : List Token)
        → HasTokens text tokens → length tokens ≤ length text }
    ensures rising { (text : List ℕ) (tokens : List Token)
        → HasTokens text tokens → AllPairs (λ s t. s.place + s.len ≤ t.place) tokens }
    ensures named { (text : List ℕ) (tokens : List Token)
        → HasTokens text tokens → All (λ t. t.kind ≡ kinds.Name → IsName (take t.len (drop t.place text))) tokens }
    ensures apart { (text : List ℕ) (tokens : List Token) (place : ℕ) (kind : Kind)
        → HasTokens text tokens → IsLexFault text place kind → ⊥ }
    ensures first { (text : List ℕ) (place other : ℕ) (kind another : Kind)
        → IsFirst (IsLexFault text) place kind → IsFirst (IsLexFault text) other another
        → (place ≡ other) × (kind ≡ another) }
{}

/// Tokens spell at most one list of trees, and if they do, none of them has a fault. The trees of a text follow one
/// another within it, and so do the parts of each; their atoms are tokens of the text. There is at most one first
/// fault; in the tokens of a text it is the one at the lowest place.
pub fn one_parsing()
    ensures trees { (tokens : List Token) (trees others : SexpTrees)
        → HasTrees tokens trees → HasTrees tokens others → trees ≡ others }
    ensures placed { (text : List ℕ) (tokens : List Token) (trees : SexpTrees)
        → HasTokens text tokens → HasTrees tokens trees → ArePlaced 0 (length text) trees }
    ensures atoms { (tokens : List Token) (trees : SexpTrees) (token : Token)
        → HasTrees tokens trees → Contains (atoms_in_all trees) token → Contains tokens token }
    ensures apart { (tokens : List Token) (trees : SexpTrees) (index : ℕ) (kind : Kind)
        → HasTrees tokens trees → IsTreeFault tokens index kind → ⊥ }
    ensures first { (tokens : List Token) (place other : ℕ) (kind another : Kind)
        → IsFirstTreeFault tokens place kind → IsFirstTreeFault tokens other another
        → (place ≡ other) × (kind ≡ another) }
    ensures earliest { (text : List ℕ) (tokens : List Token) (place : ℕ) (kind : Kind)
        → HasTokens text tokens → IsFirstTreeFault tokens place kind
        → IsFirst (IsTreeFaultAt tokens) place kind }
{}

/// Which tree an atom is, and which tree a list is.
pub fn sexps_are_trees()
    ensures atoms { (token : Token) → sexp_tree (sexps.Atom token) ≡ atom token }
    ensures lists { (place : ℕ) (parts : VecOf Sexp GlobalOf)
        → sexp_tree (sexps.List place parts) ≡ list place (sexp_trees parts.items) }
{}

/// A text has at most one list of lines, and a text that has one has no fault. There is at most one first fault. Lines
/// have as many bytes as their text.
pub fn one_splitting()
    ensures lines { (text : List ℕ) (lines others : List Line)
        → HasLines text lines → HasLines text others → lines ≡ others }
    ensures apart { (text : List ℕ) (lines : List Line) (place : ℕ) (kind : Kind)
        → HasLines text lines → IsFirstLineFault text place kind → ⊥ }
    ensures first { (text : List ℕ) (place other : ℕ) (kind another : Kind)
        → IsFirstLineFault text place kind → IsFirstLineFault text other another
        → (place ≡ other) × (kind ≡ another) }
    ensures whole { (text : List ℕ) (lines : List Line)
        → HasLines text lines → length text ≡ text_length lines }
{}

/// Printed lines are read back as the same words, wherever they stand in a text, and each text of lines is what its
/// words print. Decimal numbers and names can be words of a line.
pub fn printed_lines_are_lines()
    ensures lines { (place : ℕ) (lines : List Words)
        → All CanBeLine lines → AreLines place (placed_lines place lines) (lines_text lines) }
    ensures printed { (place : ℕ) (lines : List Line) (text : List ℕ) → AreLines place lines text
        → text ≡ lines_text (words_of_lines lines) }
    ensures placed { (place : ℕ) (lines : List Line) (text : List ℕ) → AreLines place lines text
        → lines ≡ placed_lines place (words_of_lines lines) }
    ensures each { (place : ℕ) (lines : List Line) (text : List ℕ) → AreLines place lines text
        → All CanBeLine (words_of_lines lines) }
    ensures number { (n : ℕ) → n < 2 ^ 64 → IsLineWord (decimal n) }
    ensures name { (bytes : List ℕ) → IsName bytes → IsLineWord bytes }
{}
