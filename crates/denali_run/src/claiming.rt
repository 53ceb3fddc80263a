// The text of an answer, from the results of goals.
ghost use Rattle.std.specs.Prelude.{◌≡◌, IfOk, length, option_copied};
ghost use Rattle.goal_meaning.specs.Views.{input_view};
ghost use Rattle.answer_texts.specs.Lent.{lent_claim, lent_claimed};
ghost use Rattle.denali_run.specs.ClaimedResults as format;
ghost use Rattle.denali_run.specs.TextAnswers as texts;

use crate::results::{Answered, Matched};
use crate::settings::Settings;
use crate::statuses::greatest_status;
use answer_texts::{ClaimRef, ClaimedRef, put_goal, put_head};
use cnf_core::Lines;
use cycle_encoding::Encoding;
use goal_meaning::Input;
use graph_meaning::Stop;
use items::NoMemory;
use reports::Report;
use std::alloc::Global;
use text_core::Name;

/// The version of the answers that name the encoding.
fn version_of(encoding: Encoding) -> u8
    ensures { result ≡ format.version_of encoding }
{
    match encoding {
        Encoding::Wide | Encoding::Narrow => 1,
        Encoding::Pinned => 2,
        Encoding::Live => 3,
    }
}

/// The number by which an answer names the encoding.
fn encoding_number(encoding: Encoding) -> u8
    ensures { result ≡ format.encoding_number encoding }
{
    match encoding {
        Encoding::Wide => 1,
        Encoding::Narrow => 2,
        Encoding::Pinned => 3,
        Encoding::Live => 4,
    }
}

/// A claim with the graph that it is about, and the lines that refute fewer cycles.
fn claimed_on<'a>(
    name: &'a Name,
    matched: &'a Matched,
    claim: ClaimRef<'a>,
    refute: Option<&'a Lines>,
) -> ClaimedRef<'a>
    ensures { lent_claimed result
        ≡ format.claimed_on name.now matched.now (lent_claim claim.entry) (option_copied refute.entry) }
{
    ClaimedRef {
        name,
        graph: Some(&matched.graph),
        rounds: matched.rounds,
        stop: matched.stop,
        claim,
        refute,
    }
}

/// What is claimed of the goal of this name with this result.
fn claimed<'a>(name: &'a Name, answered: &'a Answered) -> ClaimedRef<'a>
    ensures { lent_claimed result ≡ format.claimed name.now answered.now }
{
    match answered {
        Answered::Scheduled(found) => {
            let claim = ClaimRef::Scheduled {
                k: found.k,
                schedule: &found.schedule,
                words: &found.words,
                places: &found.listing.wheres,
            };
            claimed_on(name, &found.matched, claim, found.refutation.as_ref())
        }
        Answered::Nowhere(missing) => {
            let claim = ClaimRef::Missing { k: missing.k };
            claimed_on(name, &missing.matched, claim, Some(&missing.refutation))
        }
        Answered::SpentConflicts(tried) => {
            let claim = ClaimRef::SpentConflicts {
                k: tried.k,
                lemmas: &tried.lemmas,
            };
            claimed_on(name, &tried.matched, claim, tried.refutation.as_ref())
        }
        Answered::SpentSize(large) => {
            let claim = ClaimRef::SpentSize {
                k: large.k,
                vars: large.vars,
                clauses: large.clauses,
            };
            claimed_on(name, &large.matched, claim, large.refutation.as_ref())
        }
        Answered::NoWorld { class, a, b } => ClaimedRef {
            name,
            graph: None,
            rounds: 0,
            stop: Stop::Quiet,
            claim: ClaimRef::NoWorld {
                class: *class,
                a: *a,
                b: *b,
            },
            refute: None,
        },
    }
}

/// The bytes of the answer to an input with these results.
fn print(
    alloc: Global,
    settings: &Settings,
    input: &Input,
    results: &[Answered],
) -> Result<Vec<u8>, NoMemory>
    requires { length results.now ≡ length input.now.goals }
    ensures { IfOk result (λ text. text.items
        ≡ format.answer_text settings.now (input_view input.now) results.now) }
{
    let encoding = settings.encoding();
    let mut text = Vec::new(alloc);
    put_head(
        alloc,
        &mut text,
        version_of(encoding),
        encoding_number(encoding),
        &input.table,
        input.builtin,
        settings.library,
    )?;
    let goals = input.goals.as_slice();
    for (at, answered) in results.iter().enumerate() {
        let goal = claimed(&goals[at].name, answered);
        put_goal(alloc, &mut text, &input.table, &goal)?;
    }
    Ok(text)
}

/// The answer to an input, of which each goal has a result that was found with these settings, and the status that the
/// results ask for.
pub fn answer_text(
    alloc: Global,
    settings: &Settings,
    input: &Input,
    results: &[Answered],
) -> Result<Report, NoMemory>
    requires { length results.now ≡ length input.now.goals }
    ensures bytes { IfOk result (λ report. report.bytes.items
        ≡ format.answer_text settings.now (input_view input.now) results.now) }
    ensures status { IfOk result (λ report. report.status ≡ texts.greatest_status results.now) }
{
    Ok(Report {
        bytes: print(alloc, settings, input, results)?,
        status: greatest_status(results),
    })
}
