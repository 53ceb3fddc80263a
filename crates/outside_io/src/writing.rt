// Writing all of some bytes.
ghost use Rattle.std.specs.Prelude.{OnOk, OnErr};
ghost use Rattle.std.specs.Io.KnownBytes.{Appends};
ghost use Rattle.outside_io.specs.Causes.{HasCause};
ghost use Rattle.outside_io.specs.Putting.{AppendsFront};

use crate::Sink;
use thiserror::Error;

/// The sink failed, and has counted it.
#[derive(Clone, Copy, Debug, Error)]
#[error("a write failed")]
pub struct SinkFault;

/// Appends the bytes, or after a fault a front of them. Each write is handed the whole rest.
pub fn write_all<T: Sink>(sink: &mut T, bytes: &[u8]) -> Result<(), SinkFault>
    ensures whole { OnOk result (Appends (T.written sink.old) (T.written sink.new) bytes.now) }
    ensures front { OnErr result (AppendsFront (T.written sink.old) (T.written sink.new) bytes.now) }
    ensures cause { HasCause (T.faults sink.old) (T.faults sink.new) result }
{
    let mut rest = bytes;
    while !rest.is_empty() {
        match sink.write(rest) {
            Ok(count) => rest = &rest[count..],
            Err(_) => return Err(SinkFault),
        }
    }
    Ok(())
}
