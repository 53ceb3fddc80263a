// Which lines are needed.
ghost use Rattle.std.specs.Prelude.{◌≡◌, ◌+◌, ◌≤◌, length, false, replicate};
ghost use Rattle.cnf_core.specs.Refutation.{AreAccepted, AreNames};
ghost use Rattle.refute_trim.specs.Marks.{AreMarked, AreNeededMarks};

use cnf_core::{Cnf, Line};

/// Marks the lemmas that hints name.
fn mark_hints(hints: &[u32], clauses: u32, needed: &mut [bool])
    requires { AreNames (clauses + length needed.old) hints.now }
    ensures { AreMarked clauses hints.now needed.old needed.new }
{
    for hint in hints {
        if *hint > clauses {
            needed[(*hint - clauses - 1) as usize] = true;
        }
    }
}

/// Marks the needed lines: the last line, and then, from the last line to the first, the hints of each marked one. Each
/// hint is looked at once at most.
pub(crate) fn mark_needed(cnf: &Cnf, lines: &[Line], needed: &mut [bool])
    requires some { 1 ≤ length lines.now }
    requires accepted { AreAccepted cnf.now lines.now }
    requires none { needed.old ≡ replicate (length lines.now) false }
    ensures { AreNeededMarks lines.now needed.new }
{
    let clauses = cnf.clauses();
    let count = lines.len();
    needed[count - 1] = true;
    for done in 0..count {
        let at = count - 1 - done;
        if needed[at] {
            mark_hints(lines[at].hints.as_slice(), clauses, needed);
        }
    }
}
