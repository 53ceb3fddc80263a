//! Where bytes come from and where they go, with a count of the calls that failed.
//!
//! Contracts can speak of a `Source` or a `Sink` byte by byte where it tells its bytes; those in memory do. Standard
//! input and output tell none, and are the trusted edge.
//!
//! Proved: `read_all` gives all that a source had left, or says that it was too long, failed by the source's own count,
//! or found no memory, and what it took in each case; it takes at most one turn more than the limit (`turns` of
//! `read_counted`). `write_all` appends all of the bytes, or after a counted failure a front of them. The sources and
//! sinks in memory move what their step and room allow, and fail at the calls that they are told. Those over std's
//! streams pass the stream's bytes on and fail only with a counted failure; that they fail only where the stream does
//! is tested. So is that `read_all` asks for a piece that isn't empty at each turn, and that `write_all` hands over the
//! whole rest.
//!
//! What nothing forced, and why:
//! - A source or sink may fail only if its count of failures goes up or stands at 2 ^ 64 - 1. A call that succeeds
//!   leaves the count as it was, and a count after a failure is below 2 ^ 64. So 'status 6 exactly if a read failed' is
//!   a clause of the top call, and a failed read that is answered otherwise is refused. Where a count stands at its
//!   last value, no clause can see one more failure.
//! - A bound on steps needs a counter, so the work of `read_all` is `read_counted`, which takes a counter of turns
//!   (`Turns`, tokens that take no bytes). `read_all` counts for nobody.
//! - A read may give fewer bytes than there is room for, as a pipe does, so nothing follows from a short piece. An `Ok`
//!   of 0 for a piece with room is the end: a source that tells its bytes can't answer so before it (`ReadConsumes`);
//!   of one that tells none, as standard input, what comes after is another input, and isn't read.
//! - A read that fails gives no byte, and `read_all` doesn't try again, so a failing source is never a fault of the
//!   text. A sink takes at least one byte of a piece that isn't empty, so `write_all` ends.
//! - Standard streams tell no bytes, since no contract can know them. `StdSource` and `StdSink` say instead that the
//!   stream's own bytes pass through, so that a body that drops some is refused.
#![tactic(auto)]

mod failing_sink;
mod failing_source;
mod mem_sink;
mod mem_source;
mod reading;
mod sink;
mod source;
mod std_sink;
mod std_source;
mod turns;
mod writing;

pub use failing_sink::FailingSink;
pub use failing_source::FailingSource;
pub use mem_sink::MemSink;
pub use mem_source::MemSource;
pub use reading::{ReadAllFault, read_all, read_counted};
pub use sink::Sink;
pub use source::{Failed, Source};
pub use std_sink::StdSink;
pub use std_source::StdSource;
pub use turns::Turns;
pub use writing::{SinkFault, write_all};
