// A source over bytes in memory.
ghost use Rattle.std.specs.Prelude.{◌≡◌, ◌≤◌, length, Some, Ok};
ghost use Rattle.std.specs.Io.{ReadsAtMost};
ghost use Rattle.std.specs.Io.KnownBytes.{ReadConsumes};
ghost use Rattle.outside_io.specs.Causes.{HasCause};
ghost use Rattle.outside_io.specs.InMemory.{given_count};

use crate::{Failed, Source};
use std::marker::Model;

/// Bytes in memory, at most `step` of them for each read. No read fails.
#[derive(Drop)]
pub struct MemSource {
    bytes: Vec<u8>,
    at: usize,
    step: usize,
}

impl Model for MemSource {
    ghost use Rattle.std.specs.Prelude.{◌≤◌, vec_len, drop};
    ghost use Rattle.outside_io.specs.InMemory.{SourceBytes};

    ghost Value = { SourceBytes };

    ghost view = { λ s. record { left = drop s.at s.bytes.items; step = s.step } };

    ghost invariant = { λ s. (s.at ≤ vec_len s.bytes) × (1 ≤ s.step) };
}

impl MemSource {
    pub fn new(bytes: Vec<u8>, step: usize) -> MemSource
        requires { 1 ≤ step }
        ensures { result ≡ record { left = bytes.items; step = step } }
    {
        MemSource { bytes, at: 0, step }
    }
}

impl Source for MemSource {
    ghost left = { λ s. Some s.left };

    ghost faults = { λ _. 0 };

    fn read(&mut self, into: &mut [u8]) -> Result<usize, Failed>
        ensures bound { ReadsAtMost result into.new }
        ensures bytes { ReadConsumes (Some self.old.left) (Some self.new.left) result into.new }
        ensures cause { HasCause 0 0 result }
        ensures count { result ≡ Ok (given_count self.old (length into.old)) }
        ensures step { self.new.step ≡ self.old.step }
    {
        let count = self.step.min(into.len()).min(self.bytes.len() - self.at);
        let end = self.at + count;
        into[..count].copy_from_slice(&self.bytes[self.at..end]);
        self.at = end;
        Ok(count)
    }
}
