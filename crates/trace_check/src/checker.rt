// The checker.
ghost use Rattle.std.specs.Prelude.{◌++◌, ◌+◌, ◌<◌, ◌^◌, ◌≡◌, ◌≤◌, ◌↔◌, [], IfOk, IsErr, IsOk, List, OnOk, length, ℕ};
ghost use Rattle.trace_stream.specs.Items.{event_count};
ghost use Rattle.trace_stream.specs.Readings.{fed_count};
ghost use Rattle.trace_check.specs.Judged.{HasChecked, IsLost, IsSettled};
ghost use Rattle.trace_check.specs.Verdicts.{IsVerdict};

use crate::judging::Judging;
use crate::reading::read_piece;
use crate::verdicts::Verdict;
use std::alloc::{AllocError, Global};
use std::marker::Model;
use trace_stream::{Room, TraceReader};

/// A checker of a trace of either version that comes in any pieces. It keeps no event, but the machine that judges them (own rule).
///
/// A contract sees what was read, and how far the judging is: `HasChecked` says of which bytes they are.
#[derive(Drop)]
pub struct Checker {
    alloc: Global,
    reader: TraceReader,
    room: Room,
    judging: Judging,
}

impl Model for Checker {
    ghost use Rattle.trace_check.specs.Judged.{Checking, HasCheckedSome};

    ghost Value = { Checking };

    ghost view = { λ c. record { reading = c.reader; judging = c.judging } };

    ghost invariant = { λ c. HasCheckedSome (record { reading = c.reader; judging = c.judging }) };
}

impl Checker {
    /// A checker that was fed nothing. `Err` is want of memory.
    pub fn new(alloc: Global) -> Result<Checker, AllocError>
        ensures checked { IfOk result (λ checker. HasChecked [] checker) }
        ensures fed { IfOk result (λ checker. fed_count checker.reading ≡ 0) }
    {
        let reader = TraceReader::new(alloc)?;
        Ok(Checker {
            alloc,
            reader,
            room: Room::new(),
            judging: Judging::Start,
        })
    }

    /// Reads and judges one more piece of the bytes. `Err` is want of memory, and then every later call answers it. Openings take
    /// memory, and so does the first event; once an event was judged, neither this call nor `finish` takes any.
    pub fn feed(&mut self, piece: &[u8]) -> Result<(), AllocError>
        requires { fed_count self.old.reading + length piece.now < 2 ^ 63 }
        ensures checked { (bytes : List ℕ) → HasChecked bytes self.old → OnOk result (HasChecked (bytes ++ piece.now) self.new) }
        ensures memory { IsErr result ↔ IsLost self.new.judging }
        ensures lost { IsLost self.old.judging → IsErr result }
        ensures begins { OnOk result (1 ≤ event_count self.new.reading.stage → IsSettled self.new.judging) }
        ensures settled { IsSettled self.old.judging → IsOk result }
        ensures stays { IsSettled self.old.judging → IsSettled self.new.judging }
        ensures fed { fed_count self.new.reading ≤ fed_count self.old.reading + length piece.now }
    {
        if self.judging.is_lost() {
            return Err(AllocError);
        }
        let read = read_piece(
            self.alloc,
            &mut self.reader,
            &mut self.room,
            &mut self.judging,
            piece,
        );
        if read.is_err() {
            self.judging = Judging::NoMemory;
        }
        read
    }

    /// Says that no byte follows, and answers the verdict on all that were fed, however they were cut into pieces: BadBytes exactly
    /// where they aren't a trace, at the first place where they aren't; else Broken at the first event that isn't allowed, with the
    /// rule that it breaks; else Run with the numbers of events and commits. `Err` is answered exactly where `feed` answered it before.
    pub fn finish(self) -> Result<Verdict, AllocError>
        ensures verdict { (bytes : List ℕ) → HasChecked bytes self → IfOk result (λ verdict. IsVerdict bytes verdict) }
        ensures memory { IsErr result ↔ IsLost self.judging }
        ensures settled { IsSettled self.judging → IsOk result }
    {
        if self.judging.is_lost() {
            return Err(AllocError);
        }
        match self.reader.finish() {
            Ok(_) => Ok(self.judging.verdict()),
            Err(fault) => Ok(Verdict::BadBytes {
                at: fault.at,
                reason: fault.reason,
            }),
        }
    }
}
