// What the replies are, said of each status and of each text.
ghost use Rattle.std.specs.Prelude.{◌≡◌, ◌<◌, ◌⊎◌, ◌↔◌, ℕ, List, length, Some};
ghost use Rattle.text_core.specs.declared.faults.Kind.{Kind};
ghost use Rattle.reports.specs.declared.statuses.Status.{Status as Ending};
ghost use Rattle.reports.specs.declared.statuses.Status.TheVariants.{ReadFault};
ghost use Rattle.denali_cli.specs.Commands.{Command as Asked};
ghost use Rattle.denali_cli.specs.Outcomes.{IsReported};
ghost use Rattle.denali_cli.specs.Replies.{IsFaultFor, IsPastLimit, IsReadFor, IsWithinLimit, Reply, Reports, fault_line, limit_of, too_long_line};

use answer_texts::one_answer;
use code_check::codes_have_one_reading;
use code_lift::lifts_have_one_reading;
use goal_reader::{texts_have_one_first_fault, texts_have_one_reading};
use least_launch::one_tailed_answer;
use proc_goal::procs_have_one_reading;
use run_texts::one_program;

/// Every reply is a fault or a report. It is a fault exactly where the text is longer than the limit or has a fault, and a
/// report exactly where the text is within the limit and has a reading. A text that is too long, a text with a fault and
/// one with a reading each have the one reply that is defined for them.
pub fn replies_are_exact()
    ensures fault { (command : Asked) (text written : List ℕ) (status : Ending) → Reply command text written status
        → (status ≡ ReadFault)
        ↔ (IsPastLimit command text ⊎ ((place : ℕ) × (kind : Kind) × IsFaultFor command text place kind)) }
    ensures reported { (command : Asked) (text written : List ℕ) (status : Ending)
        → Reply command text written status
        → IsReported status ↔ (IsWithinLimit command text × IsReadFor command text) }
    ensures either { (command : Asked) (text written : List ℕ) (status : Ending) → Reply command text written status
        → IsReported status ⊎ (status ≡ ReadFault) }
    ensures too_long { (command : Asked) (text written : List ℕ) (status : Ending) → Reply command text written status
        → (limit : ℕ) → limit_of command ≡ Some limit → limit < length text → written ≡ too_long_line limit }
    ensures faulty { (command : Asked) (text written : List ℕ) (status : Ending) → Reply command text written status
        → (place : ℕ) (kind : Kind) → IsWithinLimit command text → IsFaultFor command text place kind
        → written ≡ fault_line place kind }
    ensures answered { (command : Asked) (text written : List ℕ) (status : Ending)
        → Reply command text written status → IsWithinLimit command text → IsReadFor command text
        → Reports command text written status }
{
    texts_have_one_reading();
    texts_have_one_first_fault();
    one_answer();
    codes_have_one_reading();
    one_tailed_answer();
    procs_have_one_reading();
    one_program();
    lifts_have_one_reading();
}
