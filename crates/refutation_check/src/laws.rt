// Which lines can be read back, and that they are. The call does nothing: its clauses hold of all lines.
ghost use Rattle.std.specs.Prelude.{◌≡◌, ◌+◌, ◌^◌, ◌<◌, ℕ, List, ◌++◌, map, length};
ghost use Rattle.std.specs.List.{All, slice_index_or};
ghost use Rattle.cnf_core.specs.declared.line.Line.{Line as Row};
ghost use Rattle.cnf_core.specs.Formula.{Formula};
ghost use Rattle.cnf_core.specs.Refutation.{AreAccepted};
ghost use Rattle.text_core.specs.Lines.{Line, AreLines, line_at};
ghost use Rattle.text_core.specs.LineTexts.{Words, placed_lines, words_of_lines, lines_text};
ghost use Rattle.refutation_check.specs.LineWords.{IsReadableLine, IsLineOf, AreLinesAt, line_words};

use text_core::printed_lines_are_lines;

/// Printed lines are lines of words at any place of a text, and each is read as the line that was printed. Where the
/// words of printed lines stand in a text, these lines are read from there on. Words are at most one line of a
/// refutation. Accepted lines can be read back.
pub fn printed_lines_are_read_back()
    ensures lines { (place : ℕ) (lines : List Row)
        → All IsReadableLine lines
        → AreLines place (placed_lines place (map line_words lines)) (lines_text (map line_words lines)) }
    ensures each { (place : ℕ) (lines : List Row) (k : ℕ) (d : Row)
        → All IsReadableLine lines → k < length lines
        → IsLineOf (line_at (placed_lines place (map line_words lines)) k).words (slice_index_or lines k d) }
    ensures among { (text : List Line) (front back : List Words) (lines : List Row)
        → All IsReadableLine lines → words_of_lines text ≡ front ++ (map line_words lines ++ back)
        → AreLinesAt text (length front) (length lines) lines }
    ensures one { (words : Words) (line other : Row) → IsLineOf words line → IsLineOf words other → line ≡ other }
    ensures accepted { (f : Formula) (lines : List Row)
        → AreAccepted f lines → f.vars < 2 ^ 29 → length f.clauses + length lines < 2 ^ 31 → All IsReadableLine lines }
{
    printed_lines_are_lines();
}
