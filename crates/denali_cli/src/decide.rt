// What is to be written, before any of it is.
ghost use Rattle.std.specs.Prelude.{◌≡◌, ◌≢◌, ◌≤◌, None, Some, IfOk, OnOk, length, IsErrOf, IfErr, IfSome};
ghost use Rattle.code_check.specs.CodeGrammar.{IsFirstCodesFault};
ghost use Rattle.outside_io.specs.Causes.{IsCounted};
ghost use Rattle.reports.specs.Errors.{IsErrorBy};
ghost use Rattle.denali_cli.specs.Commands.{Command as Asked, HasValuesInRange};
ghost use Rattle.denali_cli.specs.Said.{asked_by};
ghost use Rattle.denali_cli.specs.Replies as replies;
ghost use Rattle.denali_cli.specs.Replies.{IsFaultFor, IsWithinLimit, Reply, Reports, fault_line, too_long_line};
ghost use Rattle.denali_cli.specs.VerifiedTexts.{VerifiesText, told_status};
ghost use Rattle.denali_cli.specs.declared.decide.Stop.TheVariants as stops;
ghost use Rattle.denali_cli.specs.Outcomes.{Decides, IsReader, IsUnread, IsWhole, Takes};

use crate::commands::Command;
use crate::words::asked;
use code_check::{Told, verify_text};
use code_improve::{cycles_text, improve_least_text, improve_text, lift_text};
use denali_run::{check_text, gen_text, run_text, solve_text};
use dimacs::clauses_text;
use items::NoMemory;
use itoa::Buffer;
use least_launch::{check_least_text, solve_least_text};
use outside_io::{ReadAllFault, Source, read_all};
use proc_link::proc_text;
use refute_trim::trim_text;
use reports::{Report, Status, TextError};
use std::alloc::Global;
use text_core::Fault;

/// `fault LIMIT TooLong`, for an input of more bytes.
fn too_long(alloc: Global, limit: u32) -> Result<Report, Stop>
    ensures ok { IfOk result (λ r. (r.bytes.items ≡ too_long_line limit) × (r.status ≡ Status.ReadFault)) }
    ensures err { IfErr result (λ e. e ≡ Stop.Memory) }
{
    let mut buffer = Buffer::new();
    let mut line = Vec::from_slice(alloc, b"fault ")?;
    line.extend_from_slice(buffer.format(limit).as_bytes())?;
    line.extend_from_slice(b" TooLong\n")?;
    Ok(Report {
        bytes: line,
        status: Status::ReadFault,
    })
}

/// Why nothing is to be written.
#[derive(Clone, Copy, PartialEq, Eq)]
pub(crate) enum Stop {
    SourceFault,
    Memory,
}

impl From<NoMemory> for Stop {
    ghost from_gives = { λ _ stop. stop ≡ stops.Memory };

    fn from(_: NoMemory) -> Stop {
        Stop::Memory
    }
}

fn report(alloc: Global, line: &[u8], status: Status) -> Result<Report, Stop>
    ensures ok { IfOk result (λ r. (r.bytes.items ≡ line.now) × (r.status ≡ status)) }
    ensures err { IfErr result (λ e. e ≡ Stop.Memory) }
{
    Ok(Report {
        bytes: Vec::from_slice(alloc, line)?,
        status,
    })
}

/// The line of a text's first fault.
fn faulty(alloc: Global, fault: Fault) -> Result<Report, Stop>
    ensures ok { IfOk result (λ r. (r.bytes.items ≡ fault_line fault.place fault.kind) ×
        (r.status ≡ Status.ReadFault)) }
    ensures err { IfErr result (λ e. e ≡ Stop.Memory) }
{
    let mut line = fault.print(alloc)?;
    line.extend_from_slice(b"\n")?;
    Ok(Report {
        bytes: line,
        status: Status::ReadFault,
    })
}

/// How many bytes a command reads at most, if it reads.
fn limit_of(command: Command) -> Option<u32>
    ensures limit { result ≡ replies.limit_of command }
    ensures small { IfSome result (λ limit. limit ≤ 268435456) }
{
    match command.format() {
        Some(format) => Some(format.limit()),
        None => None,
    }
}

/// The lines of codes, with the status that they ask for.
fn told(told: Told) -> Report
    ensures bytes { result.bytes.items ≡ told.bytes }
    ensures status { result.status ≡ told_status told.unknown told.noworld }
{
    let status = if told.noworld {
        Status::NoWorld
    } else if told.unknown {
        Status::Missing
    } else {
        Status::Done
    };
    Report {
        bytes: told.bytes.into_vec(),
        status,
    }
}

/// The command's report on a text.
fn report_on(alloc: Global, command: Command, text: &[u8]) -> Result<Report, TextError>
    requires command { HasValuesInRange command }
    requires few { length text.now ≤ 268435456 }
    ensures reports { IfOk result (λ r. Reports command text.now r.bytes.items r.status) }
    ensures error { IfErr result (IsErrorBy (IsFaultFor command text.now)) }
{
    match command {
        Command::Solve(settings) => solve_text(alloc, text, &settings),
        Command::SolveLeast(settings) => solve_least_text(alloc, text, &settings),
        Command::Proc(settings) => proc_text(alloc, text, &settings),
        Command::Check => check_text(alloc, text),
        Command::CheckLeast => check_least_text(alloc, text),
        Command::Trim => trim_text(alloc, text),
        Command::Verify {
            rounds,
            nodes,
            library,
        } => Ok(told(verify_text(alloc, text, rounds, nodes, library)?)),
        Command::Run => run_text(alloc, text),
        Command::Gen(size) => Ok(gen_text(alloc, size)?),
        Command::Cnf { goal, cycles } => clauses_text(alloc, text, goal - 1, cycles),
        Command::Lift => lift_text(alloc, text),
        Command::Improve(settings) => improve_text(alloc, text, &settings),
        Command::ImproveLeast(settings) => improve_least_text(alloc, text, &settings),
        Command::Cycles { cycles, conflicts } => cycles_text(alloc, text, cycles, conflicts),
    }
}

/// The command's report on a text within its limit, or the line of the text's first fault.
fn answer(alloc: Global, command: Command, text: &[u8]) -> Result<Report, Stop>
    requires command { HasValuesInRange command }
    requires few { length text.now ≤ 268435456 }
    requires within { IsWithinLimit command text.now }
    ensures reply { IfOk result (λ r. Reply command text.now r.bytes.items r.status) }
    ensures whole { IfOk result (λ r. IsWhole r.status) }
    ensures not_usage { IfOk result (λ r. r.status ≢ Status.Usage) }
    ensures err { IfErr result (λ e. e ≡ Stop.Memory) }
{
    match report_on(alloc, command, text) {
        Ok(report) => Ok(report),
        Err(TextError::Read(fault)) => faulty(alloc, fault),
        Err(TextError::Memory) => Err(Stop::Memory),
    }
}

/// Reading, text and work of a command that reads so many bytes at most, in this order. The first that fails decides.
fn work_on_input<S: Source>(
    alloc: Global,
    command: Command,
    limit: u32,
    source: &mut S,
) -> Result<Report, Stop>
    requires command { HasValuesInRange command }
    requires limit { replies.limit_of command ≡ Some limit }
    requires small { limit ≤ 268435456 }
    ensures decided { IfOk result (λ r. Decides (Some command) (S.left source.old) (S.left source.new)
        r.bytes.items r.status) }
    ensures whole { IfOk result (λ r. IsWhole r.status) }
    ensures not_usage { IfOk result (λ r. r.status ≢ Status.Usage) }
    ensures taken { Takes (Some command) (S.left source.old) (S.left source.new) }
    ensures no_fault { OnOk result (S.faults source.new ≡ S.faults source.old) }
    ensures memory { IsErrOf result Stop.Memory → S.faults source.new ≡ S.faults source.old }
    ensures fault { IsErrOf result Stop.SourceFault → IsCounted (S.faults source.old) (S.faults source.new) }
{
    let text = match read_all(alloc, source, limit) {
        Ok(text) => text,
        Err(ReadAllFault::SourceFault) => return Err(Stop::SourceFault),
        Err(ReadAllFault::TooLong) => return too_long(alloc, limit),
        Err(ReadAllFault::Memory) => return Err(Stop::Memory),
    };
    answer(alloc, command, &text)
}

/// The work of a command, which reads first where it reads at all.
fn work<S: Source>(alloc: Global, command: Command, source: &mut S) -> Result<Report, Stop>
    requires command { HasValuesInRange command }
    ensures decided { IfOk result (λ r. Decides (Some command) (S.left source.old) (S.left source.new)
        r.bytes.items r.status) }
    ensures whole { IfOk result (λ r. IsWhole r.status) }
    ensures not_usage { IfOk result (λ r. r.status ≢ Status.Usage) }
    ensures taken { Takes (Some command) (S.left source.old) (S.left source.new) }
    ensures unread { replies.limit_of command ≡ None
        → IsUnread (S.left source.old) (S.left source.new) (S.faults source.old) (S.faults source.new) }
    ensures asked { IsErrOf result Stop.SourceFault → IsReader (Some command) }
    ensures no_fault { OnOk result (S.faults source.new ≡ S.faults source.old) }
    ensures memory { IsErrOf result Stop.Memory → S.faults source.new ≡ S.faults source.old }
    ensures fault { IsErrOf result Stop.SourceFault → IsCounted (S.faults source.old) (S.faults source.new) }
{
    match limit_of(command) {
        Some(limit) => work_on_input(alloc, command, limit, source),
        None => answer(alloc, command, b""),
    }
}

/// What the words ask for, and then that command's work.
pub(crate) fn decide<S: Source>(
    alloc: Global,
    words: &[&str],
    source: &mut S,
) -> Result<Report, Stop>
    ensures decided { IfOk result (λ r. Decides (asked_by words.now)
        (S.left source.old) (S.left source.new) r.bytes.items r.status) }
    ensures whole { IfOk result (λ r. IsWhole r.status) }
    ensures usage { IfOk result (λ r. r.status ≡ Status.Usage → asked_by words.now ≡ None) }
    ensures words_first { asked_by words.now ≡ None
        → IsUnread (S.left source.old) (S.left source.new) (S.faults source.old) (S.faults source.new) }
    ensures unread { (command : Asked) → asked_by words.now ≡ Some command → replies.limit_of command ≡ None
        → IsUnread (S.left source.old) (S.left source.new) (S.faults source.old) (S.faults source.new) }
    ensures taken { Takes (asked_by words.now) (S.left source.old) (S.left source.new) }
    ensures asked { IsErrOf result Stop.SourceFault → IsReader (asked_by words.now) }
    ensures no_fault { OnOk result (S.faults source.new ≡ S.faults source.old) }
    ensures memory { IsErrOf result Stop.Memory → S.faults source.new ≡ S.faults source.old }
    ensures fault { IsErrOf result Stop.SourceFault → IsCounted (S.faults source.old) (S.faults source.new) }
{
    let Some(command) = asked(alloc, words)? else {
        return report(alloc, b"usage\n", Status::Usage);
    };
    work(alloc, command, source)
}
