// What holds of all verdicts and refusals. The calls do nothing: their clauses are laws.
ghost use Rattle.std.specs.Prelude.{◌≡◌, ℕ, List};
ghost use Rattle.answer_check.specs.Verdicts.{IsVerdict};
ghost use Rattle.answer_check.specs.declared.verdicts.Verdict.{Verdict as VerdictOf};
ghost use Rattle.answer_texts.specs.WellFormed.{IsClaimed};
ghost use Rattle.answer_texts.specs.declared.answers.Claimed.{Claimed as ClaimedOf};
ghost use Rattle.cnf_core.specs.Formula.{Formula};
ghost use Rattle.cnf_core.specs.Refutation.{IsEmptyOnlyLast, IsFirstRefusal, Refutes};
ghost use Rattle.cnf_core.specs.declared.line.Line.{Line as LineOf};
ghost use Rattle.cycle_encoding.specs.declared.encodings.Encoding.{Encoding as EncodingOf};
ghost use Rattle.machine_table.specs.declared.tables.Table.{Table as TableOf};

use cycle_encoding::each_encoding_has_one_list;
use schedule_meaning::schedules_fit_or_break;

/// A claimed goal has one verdict at most.
pub fn one_verdict()
    ensures { (e : EncodingOf) (table : TableOf) (version : ℕ) (c : ClaimedOf) (v w : VerdictOf)
        → IsClaimed version c → IsVerdict e table c v → IsVerdict e table c w → v ≡ w }
{
    schedules_fit_or_break();
    each_encoding_has_one_list();
}

/// Lines that are to refute a formula have one first refused line at most, with one reason. Lines that refute it have
/// none.
pub fn one_first_refusal()
    ensures once { (f : Formula) (lines : List LineOf) (line other why because : ℕ)
        → IsFirstRefusal (IsEmptyOnlyLast lines) f lines line why
        → IsFirstRefusal (IsEmptyOnlyLast lines) f lines other because → (line ≡ other) × (why ≡ because) }
    ensures apart { (f : Formula) (lines : List LineOf) (line why : ℕ)
        → Refutes f lines → IsFirstRefusal (IsEmptyOnlyLast lines) f lines line why → ⊥ }
{}
