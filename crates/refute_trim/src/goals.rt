// The refutation of one goal, trimmed.
ghost use Rattle.std.specs.Prelude.{◌≡◌, ◌≤◌, ◌<◌, ◌^◌, ℕ, length, IfOk, Some};
ghost use Rattle.schedule_meaning.specs.Limits.{most_cycles};
ghost use Rattle.answer_texts.specs.AnswerLines as format;
ghost use Rattle.answer_texts.specs.WellFormed.{IsClaimed};
ghost use Rattle.answer_texts.specs.declared.answers.Claimed.{Claimed as ClaimedOf};
ghost use Rattle.graph_meaning.specs.WellFormed.{IsLaunchGraph};
ghost use Rattle.machine_table.specs.Tables.{IsTable};
ghost use Rattle.refute_trim.specs.Outcomes.{IsOutcomeFor};

use crate::trim;
use answer_check::{Verdict, refuted_cycles};
use answer_texts::Claimed;
use cnf_core::Lines;
use cycle_encoding::{EncodeFault, Encoding};
use graph_meaning::LaunchGraph;
use items::NoMemory;
use machine_table::Table;
use order_encoding::full_as;
use refutation_check::{Marks, check};
use std::alloc::{AllocError, Global};

/// What comes of a goal's refutation: the lines that are needed, if there are some, or what is wrong with it.
#[derive(Drop)]
pub(crate) enum Outcome {
    Kept(Option<Lines>),
    Rejected(Verdict),
}

/// Trims lines that are to refute the clauses for k cycles. Clauses that are too large are an outcome for the goal,
/// unlike running out of memory.
fn trim_lines(
    alloc: Global,
    encoding: Encoding,
    table: &Table,
    graph: &LaunchGraph,
    k: u32,
    lines: &Lines,
) -> Result<Outcome, NoMemory>
    requires cycles { k ≤ most_cycles }
    requires table { IsTable table.now }
    requires graph { IsLaunchGraph graph.now }
    requires few { length lines.now.lines < 2 ^ 29 }
    ensures { IfOk result (λ outcome. (c : ClaimedOf) → c.graph ≡ Some graph.now → c.refute ≡ Some lines.now
        → format.refuted_cycles c.claim ≡ k → IsOutcomeFor encoding table.now c outcome) }
{
    let encoded = match full_as(alloc, encoding, graph, table, k) {
        Ok(encoded) => encoded,
        Err(EncodeFault::Size { vars, clauses }) => {
            return Ok(Outcome::Rejected(Verdict::Size { vars, clauses }));
        }
        Err(EncodeFault::Memory) => return Err(AllocError),
    };
    let mut marks = Marks::new(alloc, encoded.cnf.vars())?;
    match check(&encoded.cnf, lines, &mut marks) {
        Ok(()) => Ok(Outcome::Kept(Some(trim(alloc, &encoded.cnf, lines)?))),
        Err(rejected) => Ok(Outcome::Rejected(Verdict::Refutation {
            k,
            line: rejected.line,
            why: rejected.why,
        })),
    }
}

/// Trims the refutation of a goal. The clauses for one number of cycles are built, from the printed graph and table.
pub(crate) fn trim_goal(
    alloc: Global,
    encoding: Encoding,
    table: &Table,
    goal: &Claimed,
) -> Result<Outcome, NoMemory>
    requires table { IsTable table.now }
    requires goal { (version : ℕ) × IsClaimed version goal.now }
    ensures { IfOk result (IsOutcomeFor encoding table.now goal.now) }
{
    let Some(graph) = &goal.graph else {
        return Ok(Outcome::Kept(None));
    };
    let Some(lines) = &goal.refute else {
        return Ok(Outcome::Kept(None));
    };
    let k = refuted_cycles(&goal.claim);
    trim_lines(alloc, encoding, table, graph, k, lines)
}
