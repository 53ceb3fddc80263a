// What holds of counters and refutations before any is built, for callers that speak of lists of clauses and lines.
ghost use Rattle.std.specs.Prelude.{◌≡◌, ℕ, ◌+◌, List, length};
ghost use Rattle.std.specs.List.{All};
ghost use Rattle.cnf_core.specs.declared.literal.Lit.{Lit};
ghost use Rattle.cnf_core.specs.declared.line.Line.{Line};
ghost use Rattle.cnf_core.specs.Formula.{Formula, IsLitOf, AreOver};
ghost use Rattle.cnf_core.specs.Counter.{at_most_clauses, at_most_size, at_most_vars, SayAtMost};
ghost use Rattle.cnf_core.specs.Refutation.{Refutes, HaveNoSolution};

/// The clauses of a counter say that at most `p` of its literals are true; they have only the old variables and those
/// that the counter adds; and their number is `at_most_size`.
pub fn counters_count()
    ensures say { (old p : ℕ) (lits : List Lit) → All (IsLitOf old) lits
        → SayAtMost old p lits (at_most_clauses old p lits) }
    ensures over { (old p : ℕ) (lits : List Lit) → All (IsLitOf old) lits
        → AreOver (old + at_most_vars p (length lits)) (at_most_clauses old p lits) }
    ensures size { (old p : ℕ) (lits : List Lit) → length (at_most_clauses old p lits) ≡ at_most_size p (length lits) }
{}

/// No assignment satisfies a formula that accepted lines refute, whoever wrote the lines.
pub fn refutations_leave_no_solution()
    ensures { (f : Formula) (lines : List Line) → Refutes f lines → HaveNoSolution f.clauses }
{}
