// A sink in memory, with so much room.
ghost use Rattle.std.specs.Prelude.{◌≡◌, ◌↔◌, ◌<◌, ◌≤◌, [], Some, IfOk, IsErr, length};
ghost use Rattle.std.specs.Io.{WritesAtMost};
ghost use Rattle.std.specs.Io.KnownBytes.{WriteAppends};
ghost use Rattle.outside_io.specs.Causes.{HasCause};
ghost use Rattle.outside_io.specs.InMemory.{written_count};

use crate::{Failed, Sink};
use items::NoMemory;
use std::alloc::Global;
use std::marker::Model;

/// Bytes in memory, at most `step` more for each write. The memory is taken when the sink is made.
#[derive(Drop)]
pub struct MemSink {
    held: Vec<u8>,
    room: usize,
    step: usize,
    faults: u64,
}

impl Model for MemSink {
    ghost use Rattle.std.specs.Prelude.{◌≤◌, vec_len, vec_capacity};
    ghost use Rattle.outside_io.specs.InMemory.{SinkBytes};

    ghost Value = { SinkBytes };

    ghost view = { λ s. record { held = s.held.items; room = s.room; step = s.step; faults = s.faults } };

    ghost invariant = { λ s. (vec_len s.held ≤ s.room) × (s.room ≤ vec_capacity s.held) × (1 ≤ s.step) };
}

impl MemSink {
    pub fn new(alloc: Global, room: usize, step: usize) -> Result<MemSink, NoMemory>
        requires { 1 ≤ step }
        ensures { IfOk result (λ s. s ≡ record { held = []; room = room; step = step; faults = 0 }) }
    {
        let held = Vec::with_capacity(alloc, room)?;
        Ok(MemSink {
            held,
            room,
            step,
            faults: 0,
        })
    }

    pub fn written(&self) -> &[u8]
        ensures { result.now ≡ self.now.held }
    {
        self.held.as_slice()
    }
}

impl Sink for MemSink {
    ghost written = { λ s. Some s.held };

    ghost faults = { λ s. s.faults };

    fn write(&mut self, bytes: &[u8]) -> Result<usize, Failed>
        ensures bound { WritesAtMost result bytes.now }
        ensures some { IfOk result (λ n. 0 < length bytes.now → 0 < n) }
        ensures bytes { WriteAppends (Some self.old.held) (Some self.new.held) result bytes.now }
        ensures cause { HasCause self.old.faults self.new.faults result }
        ensures full { IsErr result ↔ ((0 < length bytes.now) × (self.old.room ≤ length self.old.held)) }
        ensures count { IfOk result (λ n. n ≡ written_count self.old (length bytes.now)) }
        ensures keeps { (self.new.room ≡ self.old.room) × (self.new.step ≡ self.old.step) }
    {
        let free = self.room - self.held.len();
        if free == 0 && !bytes.is_empty() {
            self.faults = self.faults.saturating_add(1);
            return Err(Failed);
        }
        let count = self.step.min(bytes.len()).min(free);
        self.held.extend_from_slice(&bytes[..count]).unwrap();
        Ok(count)
    }
}
