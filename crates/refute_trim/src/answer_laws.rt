// What holds of all trimmed answers. The calls do nothing: their clauses are laws.
ghost use Rattle.std.specs.Prelude.{◌≡◌, ℕ, List, false};
ghost use Rattle.answer_check.specs.Reports.{IsCheckReport};
ghost use Rattle.answer_texts.specs.ReadAnswers.{ReadsAnswer};
ghost use Rattle.answer_texts.specs.declared.answers.AnswerText.{AnswerText as Answer};
ghost use Rattle.reports.specs.declared.statuses.Status.{Status as Ending};
ghost use Rattle.reports.specs.declared.statuses.Status.TheVariants.{Done};
ghost use Rattle.refute_trim.specs.OtherLines.{DifferInRefutations};
ghost use Rattle.refute_trim.specs.TrimmedAnswers.{IsTrimmedAnswer, TrimsText};

use answer_check::one_first_refusal;
use answer_texts::{one_answer, printed_answers_are_read};
use cycle_encoding::each_encoding_has_one_list;

/// A text that is trimmed keeps all its lines, byte for byte, but those of refutations, of which the needed ones are
/// left.
pub fn only_refutations_change()
    ensures { (text bytes : List ℕ) → TrimsText text bytes Done → DifferInRefutations text bytes }
{}

/// What is written of a text that is trimmed reads as an answer: that of the text with its refutations trimmed.
pub fn trimmed_answers_are_read()
    ensures { (text bytes : List ℕ) → TrimsText text bytes Done
        → (answer : Answer) × (new : Answer) × ReadsAnswer text answer × IsTrimmedAnswer answer new
        × ReadsAnswer bytes new }
{
    printed_answers_are_read();
}

/// Where `check` accepts all that an answer claims, it accepts that of the trimmed one, with the same lines.
pub fn trimmed_answers_are_accepted()
    ensures { (answer new : Answer) (bytes : List ℕ) → IsTrimmedAnswer answer new
        → IsCheckReport answer bytes false → IsCheckReport new bytes false }
{}

/// A text has one report at most. So the line of a rejected goal is that of the first one, and where a goal is rejected
/// no answer is written.
pub fn one_trim_report()
    ensures { (text bytes others : List ℕ) (status other : Ending) → TrimsText text bytes status
        → TrimsText text others other → (bytes ≡ others) × (status ≡ other) }
{
    each_encoding_has_one_list();
    one_first_refusal();
    one_answer();
}

/// A text that was trimmed is written as it is when it is trimmed again.
pub fn trimmed_texts_stay()
    ensures { (text bytes more : List ℕ) → TrimsText text bytes Done → TrimsText bytes more Done → more ≡ bytes }
{
    one_answer();
    trimmed_answers_are_read();
}
