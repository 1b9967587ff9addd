ghost use Rattle.std.specs.Prelude.{◌≡◌, ◌↔◌, ◌+◌, ◌^◌, ◌<◌, ◌≤◌, ◌++◌, max, length, take, drop, Contains, IsErr, IfOk, Some, vec_len};
ghost use Rattle.std.specs.Io.{ReadsAtMost};
ghost use Rattle.std.specs.Io.KnownBytes.{ReadConsumes};
ghost use Rattle.outside_io.specs.Counts.{HasCause, RisesAtMost};
ghost use Rattle.outside_io.specs.Memory.{read_len, after_read};

use crate::{Failed, Source};
use std::marker::Model;

/// A source over bytes in memory, which fails where it is told to (own rule).
///
/// It tells what is left. A contract sees what is left, the chunk, the numbers of the reads that fail, and how many
/// reads and faults there were.
#[derive(Debug, Drop)]
pub struct MemSource {
    bytes: Vec<u8>,
    at: usize,
    chunk: usize,
    fails: Vec<u64>,
    reads: u64,
    faults: u64,
}

impl Model for MemSource {
    ghost use Rattle.std.specs.Prelude.{◌<◌, ◌≤◌, drop, vec_len};
    ghost use Rattle.outside_io.specs.Memory.{SourceState};

    ghost Value = { SourceState };

    ghost view = { λ s. record { left = drop s.at s.bytes.items; chunk = s.chunk; fails = s.fails.items; reads = s.reads; faults = s.faults } };

    ghost invariant = { λ s. (0 < s.chunk) × (s.at ≤ vec_len s.bytes) };
}

impl MemSource {
    /// A source of these bytes, of which a read gives at most `chunk`. The k-th read, counted from 0, fails exactly
    /// where `fails` has k.
    pub fn new(bytes: Vec<u8>, chunk: usize, fails: Vec<u64>) -> MemSource
        requires { 0 < chunk }
        ensures { result ≡ record { left = bytes.items; chunk = chunk; fails = fails.items; reads = 0; faults = 0 } }
    {
        MemSource {
            bytes,
            at: 0,
            chunk,
            fails,
            reads: 0,
            faults: 0,
        }
    }
}

impl Source for MemSource {
    ghost left = { λ s. Some s.left };

    ghost faults = { λ s. s.faults };

    ghost highest_count = { λ s. max s.reads s.faults };

    /// Reads as many bytes as the chunk, `into` and what is left allow.
    fn read(&mut self, into: &mut [u8]) -> Result<usize, Failed>
        requires { max self.old.reads self.old.faults + 1 < 2 ^ 63 }

        // What every source ensures.
        ensures within { ReadsAtMost result into.new }
        ensures bytes { ReadConsumes (Some self.old.left) (Some self.new.left) result into.new }
        ensures cause { HasCause self.old.faults self.new.faults result }
        ensures counts { RisesAtMost 1 (max self.old.reads self.old.faults) (max self.new.reads self.new.faults) }

        ensures fails { IsErr result ↔ Contains self.old.fails self.old.reads }
        ensures count { IfOk result (λ n. n ≡ read_len self.old (length into.old)) }
        ensures copied { IfOk result (λ n. into.new ≡ take n self.old.left ++ drop n into.old) }
        ensures after { self.new ≡ after_read self.old result }
    {
        let number = self.reads;
        self.reads += 1;
        if self.fails.contains(&number) {
            self.faults += 1;
            return Err(Failed);
        }
        let rest = &self.bytes[self.at..];
        let count = self.chunk.min(into.len()).min(rest.len());
        into[..count].copy_from_slice(&rest[..count]);
        self.at += count;
        Ok(count)
    }
}
