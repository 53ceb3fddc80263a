// What holds of all trimmed lines. The calls do nothing: their clauses are laws.
ghost use Rattle.std.specs.Prelude.{◌≡◌, ℕ, List, length};
ghost use Rattle.cnf_core.specs.Formula.{Formula};
ghost use Rattle.cnf_core.specs.Refutation.{AreAccepted, Refutes};
ghost use Rattle.cnf_core.specs.declared.line.Line.{Line as LineOf};
ghost use Rattle.refute_trim.specs.Trimmed.{AllButLastAreHints, AreTrimmed};

/// Trimmed lines are accepted where the lines were, refute what the lines refuted, and each of them but the last is a
/// hint of a later one.
pub fn trimmed_lines_refute()
    ensures accepted { (f : Formula) (lines new : List LineOf)
        → AreAccepted f lines → AreTrimmed (length f.clauses) lines new → AreAccepted f new }
    ensures refute { (f : Formula) (lines new : List LineOf)
        → Refutes f lines → AreTrimmed (length f.clauses) lines new → Refutes f new }
    ensures hints { (f : Formula) (lines new : List LineOf)
        → AreAccepted f lines → AreTrimmed (length f.clauses) lines new → AllButLastAreHints new }
{}

/// Lines of which each but the last is a hint of a later one stay as they are when they are trimmed. So trimming twice
/// gives what trimming once gives.
pub fn trimmed_lines_stay()
    ensures stay { (f : Formula) (lines more : List LineOf)
        → AreAccepted f lines → AllButLastAreHints lines → AreTrimmed (length f.clauses) lines more → more ≡ lines }
    ensures twice { (f : Formula) (lines new more : List LineOf)
        → AreAccepted f lines → AreTrimmed (length f.clauses) lines new → AreTrimmed (length f.clauses) new more
        → more ≡ new }
{}

/// Lines are trimmed in one way.
pub fn lines_are_trimmed_in_one_way()
    ensures { (n : ℕ) (lines new other : List LineOf)
        → AreTrimmed n lines new → AreTrimmed n lines other → new ≡ other }
{}
