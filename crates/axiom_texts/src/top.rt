// The top call.
ghost use Rattle.std.specs.Prelude.{◌≡◌, None, IfOk};
ghost use Rattle.std.specs.Io.KnownBytes.{Keeps};
ghost use Rattle.outside_io.specs.Causes.{IsCounted};
ghost use Rattle.outside_io.specs.Putting.{AppendsFront};
ghost use Rattle.axiom_texts.specs.Asked.{families_asked_by};
ghost use Rattle.axiom_texts.specs.Outcomes.{IsEndStatus, EndsWritten, WritesReply, output_of, status_for};

use crate::asked::asked;
use crate::texts::library_text;
use items::NoMemory;
use outside_io::{Sink, SinkFault, write_all};
use reports::{Report, Status};
use std::alloc::Global;

/// What is to be written, and the status with which all of it is.
fn decide(alloc: Global, words: &[&str]) -> Result<Report, NoMemory>
    ensures bytes { IfOk result (λ r. r.bytes.items ≡ output_of (families_asked_by words.now)) }
    ensures status { IfOk result (λ r. r.status ≡ status_for (families_asked_by words.now)) }
{
    let Some(families) = asked(alloc, words)? else {
        return Ok(Report {
            bytes: Vec::from_slice(alloc, b"usage\n")?,
            status: Status::Usage,
        });
    };
    Ok(Report {
        bytes: library_text(alloc, families.as_slice())?,
        status: Status::Done,
    })
}

/// Writes the axioms of the families that the words name. All that is to be written is known before any of it is
/// written.
pub fn run<T: Sink>(alloc: Global, words: &[&str], sink: &mut T) -> Status
    // The bytes appended and the status are what the words ask for: the families' text, or the line `usage` where they
    // aren't names of families, one or more and no two the same.
    ensures reply { EndsWritten result → WritesReply (families_asked_by words.now) (T.written sink.old) (T.written sink.new) result }
    ensures usage { result ≡ Status.Usage → families_asked_by words.now ≡ None }

    // Refusals for memory and for a sink that failed, and what they leave.
    ensures memory { result ≡ Status.Memory → Keeps (T.written sink.old) (T.written sink.new) }
    ensures sink_fault { result ≡ Status.SinkFault
        → IsCounted (T.faults sink.old) (T.faults sink.new)
        × AppendsFront (T.written sink.old) (T.written sink.new) (output_of (families_asked_by words.now)) }

    // No failed write is answered by another status, and there is no other end.
    ensures writes { (result ≡ Status.SinkFault → ⊥) → T.faults sink.new ≡ T.faults sink.old }
    ensures ends { IsEndStatus result }
{
    let Ok(report) = decide(alloc, words) else {
        return Status::Memory;
    };
    match write_all(sink, &report.bytes) {
        Ok(()) => report.status,
        Err(SinkFault) => Status::SinkFault,
    }
}
