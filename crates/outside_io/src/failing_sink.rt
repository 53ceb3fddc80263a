// A sink in memory, some of whose writes fail.
ghost use Rattle.std.specs.Prelude.{◌≡◌, ◌⊎◌, ◌<◌, ◌≤◌, [], Some, Contains, IfOk, IsErr, length};
ghost use Rattle.std.specs.Io.{WritesAtMost};
ghost use Rattle.std.specs.Io.KnownBytes.{WriteAppends};
ghost use Rattle.outside_io.specs.Causes.{HasCause, next_count};
ghost use Rattle.outside_io.specs.InMemory.{written_count};

use crate::{Failed, MemSink, Sink};
use items::NoMemory;
use std::alloc::Global;
use std::marker::Model;

/// A `MemSink` of which the writes whose numbers, from 1, are listed fail too. These append nothing.
#[derive(Drop)]
pub struct FailingSink {
    inner: MemSink,
    fails: Vec<u64>,
    calls: u64,
    faults: u64,
}

impl Model for FailingSink {
    ghost use Rattle.outside_io.specs.InMemory.{FailingSinkBytes};

    ghost Value = { FailingSinkBytes };

    ghost view = { λ s. record { inner = s.inner; fails = s.fails.items; calls = s.calls; faults = s.faults } };
}

impl FailingSink {
    pub fn new(
        alloc: Global,
        room: usize,
        step: usize,
        fails: Vec<u64>,
    ) -> Result<FailingSink, NoMemory>
        requires { 1 ≤ step }
        ensures { IfOk result (λ s. s ≡ record {
          inner = record { held = []; room = room; step = step; faults = 0 };
          fails = fails.items;
          calls = 0;
          faults = 0;
        }) }
    {
        let inner = MemSink::new(alloc, room, step)?;
        Ok(FailingSink {
            inner,
            fails,
            calls: 0,
            faults: 0,
        })
    }

    pub fn written(&self) -> &[u8]
        ensures { result.now ≡ self.now.inner.held }
    {
        self.inner.written()
    }
}

impl Sink for FailingSink {
    ghost written = { λ s. Some s.inner.held };

    ghost faults = { λ s. s.faults };

    fn write(&mut self, bytes: &[u8]) -> Result<usize, Failed>
        ensures bound { WritesAtMost result bytes.now }
        ensures some { IfOk result (λ n. 0 < length bytes.now → 0 < n) }
        ensures bytes { WriteAppends (Some self.old.inner.held) (Some self.new.inner.held) result bytes.now }
        ensures cause { HasCause self.old.faults self.new.faults result }
        ensures listed { Contains self.old.fails (next_count self.old.calls) → IsErr result }
        ensures full { (0 < length bytes.now) × (self.old.inner.room ≤ length self.old.inner.held) → IsErr result }
        ensures failed { IsErr result → Contains self.old.fails (next_count self.old.calls)
            ⊎ ((0 < length bytes.now) × (self.old.inner.room ≤ length self.old.inner.held)) }
        ensures count { IfOk result (λ n. n ≡ written_count self.old.inner (length bytes.now)) }
        ensures calls { self.new.calls ≡ next_count self.old.calls }
        ensures keeps { (self.new.fails ≡ self.old.fails)
            × (self.new.inner.room ≡ self.old.inner.room) × (self.new.inner.step ≡ self.old.inner.step) }
    {
        self.calls = self.calls.saturating_add(1);
        let listed = self.fails.contains(&self.calls);
        if !listed {
            let result = self.inner.write(bytes);
            if result.is_ok() {
                return result;
            }
        }
        self.faults = self.faults.saturating_add(1);
        Err(Failed)
    }
}
