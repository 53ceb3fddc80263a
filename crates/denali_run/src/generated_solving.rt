// The work of `gen`, from a number to the line of the goal that is made from it.
ghost use Rattle.std.specs.Prelude.{◌≡◌, ◌≤◌, IfOk, length};
ghost use Rattle.generated_goals.specs.Generated.{generated_goal, generated_input};
ghost use Rattle.denali_run.specs.GeneratedAnswers as lines;
ghost use Rattle.denali_run.specs.GeneratedAnswers.{AnswersGenerated, IsGeneratedLine};
ghost use Rattle.denali_run.specs.MatchedGoals.{IsSettings};
ghost use Rattle.denali_run.specs.Right.{Right};

use crate::results::{Answered, Found};
use crate::settings::Settings;
use crate::text_solving::solve_input;
use axiom_library::Library;
use generated_goals::{
    generated, generated_goals_can_be_scheduled, generated_goals_have_a_world,
    generated_inputs_are_well_formed,
};
use items::NoMemory;
use pick_rule::Pick;
use reports::{Report, Status};
use schedule_meaning::{Allocation, MOST_CYCLES};
use std::alloc::Global;
use text_core::{put, put_number, put_word};

/// What the work on each generated goal may take.
fn generated_settings() -> Settings
    ensures value { result ≡ lines.generated_settings }
    ensures within { IsSettings result }
{
    Settings {
        rounds: 0,
        nodes: 4096,
        cycles: MOST_CYCLES,
        conflicts: 20000,
        pick: Pick::First,
        library: Library::none(),
        allocation: Allocation::Block,
    }
}

/// `gen SIZE rows ROWS cycles CYCLES`
fn report_scheduled(alloc: Global, size: u32, found: &Found) -> Result<Report, NoMemory>
    ensures { IfOk result (λ r. (r.bytes.items
        ≡ lines.scheduled_line size (length found.now.matched.graph.rows) found.now.k) × (r.status ≡ Status.Done)) }
{
    let mut text = Vec::new(alloc);
    put(&mut text, b"gen")?;
    put_number(&mut text, u64::from(size))?;
    put_word(&mut text, b"rows")?;
    put_number(&mut text, found.matched.graph.rows.len() as u64)?;
    put_word(&mut text, b"cycles")?;
    put_number(&mut text, u64::from(found.k))?;
    put(&mut text, b"\n")?;
    Ok(Report {
        bytes: text,
        status: Status::Done,
    })
}

/// `gen SIZE spent CYCLES`
fn report_spent(alloc: Global, size: u32, cycles: u32) -> Result<Report, NoMemory>
    ensures { IfOk result (λ r. (r.bytes.items ≡ lines.spent_line size cycles) × (r.status ≡ Status.Spent)) }
{
    let mut text = Vec::new(alloc);
    put(&mut text, b"gen")?;
    put_number(&mut text, u64::from(size))?;
    put_word(&mut text, b"spent")?;
    put_number(&mut text, u64::from(cycles))?;
    put(&mut text, b"\n")?;
    Ok(Report {
        bytes: text,
        status: Status::Spent,
    })
}

/// The line of a result. A schedule fits in as many cycles as there are operators, and a world meets the goal, so the
/// other two results don't come.
fn report_generated(alloc: Global, size: u32, answered: &Answered) -> Result<Report, NoMemory>
    requires few { size ≤ 20 }
    requires right { Right (generated_input size) (generated_goal size) lines.generated_settings answered.now }
    ensures { IfOk result (λ r. IsGeneratedLine size answered.now r.bytes.items r.status) }
{
    generated_goals_have_a_world();
    generated_goals_can_be_scheduled();
    match answered {
        Answered::Scheduled(found) => report_scheduled(alloc, size, found),
        Answered::SpentConflicts(tried) => report_spent(alloc, size, tried.k),
        Answered::SpentSize(large) => report_spent(alloc, size, large.k),
        Answered::Nowhere(_) => unreachable!(),
        Answered::NoWorld { .. } => unreachable!(),
    }
}

/// Makes the goal with `size` operators, 1 to 20, solves it, and reports the result in one line.
pub fn gen_text(alloc: Global, size: u32) -> Result<Report, NoMemory>
    requires size { (1 ≤ size) × (size ≤ 20) }
    ensures answered { IfOk result (λ report. AnswersGenerated size report.bytes.items report.status) }
{
    generated_inputs_are_well_formed();
    let settings = generated_settings();
    let input = generated(alloc, size)?;
    let results = solve_input(alloc, &input, &settings)?;
    report_generated(alloc, size, &results[0])
}
