// A source over bytes in memory, some of whose reads fail.
ghost use Rattle.std.specs.Prelude.{◌≡◌, ◌↔◌, ◌≤◌, Some, Contains, IfOk, IsErr, length};
ghost use Rattle.std.specs.Io.{ReadsAtMost};
ghost use Rattle.std.specs.Io.KnownBytes.{ReadConsumes};
ghost use Rattle.outside_io.specs.Causes.{HasCause, next_count};
ghost use Rattle.outside_io.specs.InMemory.{given_count};

use crate::{Failed, MemSource, Source};
use std::marker::Model;

/// A `MemSource` of which exactly the reads whose numbers, from 1, are listed fail. These give nothing.
#[derive(Drop)]
pub struct FailingSource {
    inner: MemSource,
    fails: Vec<u64>,
    calls: u64,
    faults: u64,
}

impl Model for FailingSource {
    ghost use Rattle.outside_io.specs.InMemory.{FailingSourceBytes};

    ghost Value = { FailingSourceBytes };

    ghost view = { λ s. record { inner = s.inner; fails = s.fails.items; calls = s.calls; faults = s.faults } };
}

impl FailingSource {
    pub fn new(bytes: Vec<u8>, step: usize, fails: Vec<u64>) -> FailingSource
        requires { 1 ≤ step }
        ensures { result ≡ record {
          inner = record { left = bytes.items; step = step };
          fails = fails.items;
          calls = 0;
          faults = 0;
        } }
    {
        FailingSource {
            inner: MemSource::new(bytes, step),
            fails,
            calls: 0,
            faults: 0,
        }
    }
}

impl Source for FailingSource {
    ghost left = { λ s. Some s.inner.left };

    ghost faults = { λ s. s.faults };

    fn read(&mut self, into: &mut [u8]) -> Result<usize, Failed>
        ensures bound { ReadsAtMost result into.new }
        ensures bytes { ReadConsumes (Some self.old.inner.left) (Some self.new.inner.left) result into.new }
        ensures cause { HasCause self.old.faults self.new.faults result }
        ensures listed { IsErr result ↔ Contains self.old.fails (next_count self.old.calls) }
        ensures count { IfOk result (λ n. n ≡ given_count self.old.inner (length into.old)) }
        ensures calls { self.new.calls ≡ next_count self.old.calls }
        ensures keeps { (self.new.fails ≡ self.old.fails) × (self.new.inner.step ≡ self.old.inner.step) }
    {
        self.calls = self.calls.saturating_add(1);
        if self.fails.contains(&self.calls) {
            self.faults = self.faults.saturating_add(1);
            return Err(Failed);
        }
        self.inner.read(into)
    }
}
