// The top call.
ghost use Rattle.std.specs.Prelude.{◌≡◌, None, Some};
ghost use Rattle.std.specs.Io.KnownBytes.{Keeps};
ghost use Rattle.outside_io.specs.Causes.{IsCounted};
ghost use Rattle.denali_cli.specs.Commands.{Command as Asked};
ghost use Rattle.denali_cli.specs.Said.{asked_by};
ghost use Rattle.denali_cli.specs.Outcomes.{IsReader, IsReported, IsUnread, IsWhole, Takes, Works, WritesAll, WritesFront};
ghost use Rattle.denali_cli.specs.Replies.{limit_of};

use crate::decide::{Stop, decide};
use outside_io::{Sink, SinkFault, Source, write_all};
use reports::Status;
use std::alloc::Global;

/// Does what the words ask for. All that is to be written is known before any of it is written.
#[tactic(auto, using(crate::proofs::DoneWork::work_done))]
pub fn run<S: Source, T: Sink>(
    alloc: Global,
    words: &[&str],
    source: &mut S,
    sink: &mut T,
) -> Status
    // The bytes appended and the status are what the words and the input decide.
    ensures reply { IsWhole result → WritesAll (asked_by words.now)
        (S.left source.old) (S.left source.new) (T.written sink.old) (T.written sink.new) result }
    ensures usage { result ≡ Status.Usage → asked_by words.now ≡ None }

    // The headline: where the status reports, the command's report on the input was written. For `solve` the input
    // reads as goals, and the report is the lines of their results. Where a goal is scheduled, the printed words leave
    // its values where the answer says, in each world in which the axioms and its assumptions hold and from any
    // registers and memory, within the printed cycles of the table's slots and latencies; the printed graph holds every
    // equality that the printed rounds derive, and no schedule of it fits in fewer cycles, as the printed lines show
    // for one cycle less. Where none is found, lines show that none fits in the most cycles that were asked for. For
    // `solve --least` the same holds, and what is said behind the answer of each schedule's number of launches is true.
    // For `proc` the input reads as a proc, and the report is the results of the goals of its blocks, and their words in
    // one list that goes with the blocks for any number of steps.
    // For `check` the input reads as an answer, whoever wrote it, and the report is a line for each of its goals: `ok` only
    // where what it claims of the printed graph is true; with `--least` also what is said behind it. For `trim` the input
    // reads as an answer too, and the report is that answer with its refutations trimmed, or the line of the first goal
    // whose refutation is too large or refused. For `cnf` it does so, and the report is the clauses of one of its goals for
    // so many cycles, those that `check` builds, or a line that says why there are none.
    // For `verify` the input reads as goals and codes for them, and the report is a line for each code: `yes` only where
    // the code does what its goal says in each world in which the axioms and assumptions hold. For `run` the input reads
    // as a program, and the report is how it ends. For `gen` the report is the line of a right result of the goal that is
    // made from the size.
    // For `lift`, `improve` and `cycles` the input reads as lifts. For `lift` the report is their goals. For `improve` it is
    // that of `solve` on these goals, and where one is scheduled, the printed words leave the same memory and the same
    // words in the registers that count as the given ones, from all registers and memory from which those don't trap.
    // For `cycles` it is a line for each lift: the fewest cycles of the schedules of its own words.
    ensures right { (command : Asked) → asked_by words.now ≡ Some command → IsReported result → Works command
        (S.left source.old) (S.left source.new) (T.written sink.old) (T.written sink.new) result }

    // Words come first: where they ask for nothing, or for a command that doesn't read, nothing is read.
    ensures words_first { asked_by words.now ≡ None
        → IsUnread (S.left source.old) (S.left source.new) (S.faults source.old) (S.faults source.new) }
    ensures unread { (command : Asked) → asked_by words.now ≡ Some command → limit_of command ≡ None
        → IsUnread (S.left source.old) (S.left source.new) (S.faults source.old) (S.faults source.new) }
    ensures taken { Takes (asked_by words.now) (S.left source.old) (S.left source.new) }
    ensures asked { result ≡ Status.SourceFault → IsReader (asked_by words.now) }

    // Refusals for memory and for a source or a sink that failed, and what they leave.
    ensures memory { result ≡ Status.Memory → Keeps (T.written sink.old) (T.written sink.new) }
    ensures source_fault { result ≡ Status.SourceFault
        → IsCounted (S.faults source.old) (S.faults source.new) × Keeps (T.written sink.old) (T.written sink.new) }
    ensures sink_fault { result ≡ Status.SinkFault
        → IsCounted (T.faults sink.old) (T.faults sink.new)
        × WritesFront (asked_by words.now)
        (S.left source.old) (S.left source.new) (T.written sink.old) (T.written sink.new) }

    // No failed read or write is answered by another status.
    ensures reads { (result ≡ Status.SourceFault → ⊥) → S.faults source.new ≡ S.faults source.old }
    ensures writes { (result ≡ Status.SinkFault → ⊥) → T.faults sink.new ≡ T.faults sink.old }
{
    let report = match decide(alloc, words, source) {
        Ok(report) => report,
        Err(Stop::SourceFault) => return Status::SourceFault,
        Err(Stop::Memory) => return Status::Memory,
    };
    match write_all(sink, &report.bytes) {
        Ok(()) => report.status,
        Err(SinkFault) => Status::SinkFault,
    }
}
