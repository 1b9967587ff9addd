ghost use Rattle.std.specs.Prelude.{◌≡◌, ◌↔◌, ◌⊎◌, ◌+◌, ◌^◌, ◌<◌, [], max, length, Contains, IsErr, IfOk, Some};
ghost use Rattle.std.specs.Io.{WritesAtMost};
ghost use Rattle.std.specs.Io.KnownBytes.{WriteAppends};
ghost use Rattle.outside_io.specs.Counts.{HasCause, RisesAtMost, TakesSome, taken_count};
ghost use Rattle.outside_io.specs.Memory.{IsFullFor, write_len, after_write};

use crate::{Failed, Sink};
use std::alloc::{AllocError, Global};
use std::marker::Model;

/// A sink in memory, which fails where it is told to (own rule).
///
/// It tells what has gone. A contract sees what has gone, the room, the chunk, the numbers of the writes that fail,
/// and how many writes and faults there were.
#[derive(Debug, Drop)]
pub struct MemSink {
    kept: Vec<u8>,
    room: usize,
    chunk: usize,
    fails: Vec<u64>,
    writes: u64,
    faults: u64,
}

impl Model for MemSink {
    ghost use Rattle.std.specs.Prelude.{◌<◌, ◌≤◌, vec_len, vec_capacity};
    ghost use Rattle.outside_io.specs.Memory.{SinkState};

    ghost Value = { SinkState };

    ghost view = { λ s. record { gone = s.kept.items; room = s.room; chunk = s.chunk; fails = s.fails.items; writes = s.writes; faults = s.faults } };

    ghost invariant = { λ s. (0 < s.chunk) × (vec_len s.kept ≤ s.room) × (s.room ≤ vec_capacity s.kept) };
}

impl MemSink {
    /// A sink with room for `room` bytes, of which a write takes at most `chunk`. The k-th write, counted from 0,
    /// fails exactly where `fails` has k, or where bytes are written and no room is left.
    ///
    /// It takes the memory for `room` bytes at once, and answers `Err` where that is refused. No later call takes
    /// memory.
    pub fn new(
        alloc: Global,
        room: usize,
        chunk: usize,
        fails: Vec<u64>,
    ) -> Result<MemSink, AllocError>
        requires { 0 < chunk }
        ensures { IfOk result (λ sink. sink ≡ record { gone = []; room = room; chunk = chunk; fails = fails.items; writes = 0; faults = 0 }) }
    {
        let kept = Vec::with_capacity(alloc, room)?;
        Ok(MemSink {
            kept,
            room,
            chunk,
            fails,
            writes: 0,
            faults: 0,
        })
    }

    /// What has gone to the sink.
    pub fn bytes(&self) -> &[u8]
        ensures { result.now ≡ self.now.gone }
    {
        &self.kept
    }
}

impl Sink for MemSink {
    ghost gone = { λ s. Some s.gone };

    ghost faults = { λ s. s.faults };

    ghost highest_count = { λ s. max s.writes s.faults };

    /// Takes as many bytes as the chunk, `from` and the room that is left allow.
    fn write(&mut self, from: &[u8]) -> Result<usize, Failed>
        requires { max self.old.writes self.old.faults + length from.now + 1 < 2 ^ 63 }

        // What every sink ensures.
        ensures within { WritesAtMost result from.now }
        ensures progress { TakesSome result from.now }
        ensures bytes { WriteAppends (Some self.old.gone) (Some self.new.gone) result from.now }
        ensures cause { HasCause self.old.faults self.new.faults result }
        ensures counts { RisesAtMost (taken_count result + 1) (max self.old.writes self.old.faults) (max self.new.writes self.new.faults) }

        ensures fails { IsErr result ↔ (Contains self.old.fails self.old.writes ⊎ IsFullFor self.old from.now) }
        ensures count { IfOk result (λ n. n ≡ write_len self.old from.now) }
        ensures after { self.new ≡ after_write self.old from.now result }
    {
        let number = self.writes;
        self.writes += 1;
        let room_left = self.room - self.kept.len();
        if self.fails.contains(&number) || (room_left == 0 && !from.is_empty()) {
            self.faults += 1;
            return Err(Failed);
        }
        let count = self.chunk.min(from.len()).min(room_left);
        self.kept.extend_from_slice(&from[..count]).unwrap();
        Ok(count)
    }
}
