ghost use Rattle.std.specs.Prelude.{◌≡◌, ◌+◌, ◌^◌, ◌<◌, length, None, Ok};
ghost use Rattle.std.specs.Io.{WritesAtMost};
ghost use Rattle.std.specs.Io.KnownBytes.{WriteAppends};
ghost use Rattle.outside_io.specs.Counts.{HasCause, RisesAtMost, TakesSome, taken_count};

use crate::{Failed, Sink};
use std::marker::Model;

/// A sink that takes all and keeps only the number of bytes (own rule).
///
/// It never fails and doesn't tell what has gone. A contract sees the number.
#[derive(Debug, Drop)]
pub struct CountSink {
    count: u64,
}

impl Model for CountSink {
    ghost use Rattle.std.specs.Prelude.{ℕ};

    ghost Value = { ℕ };

    ghost view = { λ s. s.count };
}

impl CountSink {
    /// A sink to which nothing has gone.
    pub fn new() -> CountSink
        ensures { result ≡ 0 }
    {
        CountSink { count: 0 }
    }

    /// How many bytes have gone to the sink.
    pub fn count(&self) -> u64
        ensures { result ≡ self.now }
    {
        self.count
    }
}

impl Sink for CountSink {
    ghost gone = { λ _. None };

    ghost faults = { λ _. 0 };

    ghost highest_count = { λ s. s };

    /// Takes all of `from`.
    fn write(&mut self, from: &[u8]) -> Result<usize, Failed>
        requires { self.old + length from.now + 1 < 2 ^ 63 }
        ensures all { result ≡ Ok (length from.now) }
        ensures count { self.new ≡ self.old + length from.now }
    {
        self.count += from.len() as u64;
        Ok(from.len())
    }
}
