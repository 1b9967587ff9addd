// The items of whole bytes, one after the other.
ghost use Rattle.std.specs.Prelude.{◌≡◌, ◌∷◌, ◌++◌, ◌^◌, ◌<◌, [], IfErr, IfOk, IfSome, List, None, length, ℕ};
ghost use Rattle.trace_stream.specs.Items.{item_of};
ghost use Rattle.trace_stream.specs.Readings.{IsDrained};
ghost use Rattle.trace_stream.specs.Runs.{HasFault, IsTraceOf};
ghost use Rattle.trace_stream.specs.declared.items.Item.{Item};
ghost use Rattle.trace_migration.specs.Walks.{IsAt, IsOver, left};

use std::alloc::{AllocError, Global};
use std::marker::Model;
use trace_stream::{Found, Room, TraceFault, TraceReader};

/// A walk over the items of whole bytes, each read where it stands.
#[derive(Drop)]
pub struct Walk<'a> {
    reader: TraceReader,
    rest: &'a [u8],
}

impl<'a> Model for Walk<'a> {
    ghost use Rattle.trace_migration.specs.Walks.{Walking};

    ghost Value = { Walking };

    ghost view = { λ w. record { reading = w.reader; rest = w.rest.now } };
}

impl<'a> Walk<'a> {
    /// A walk that begins at the first byte; the error is want of memory for the reader.
    pub fn over(alloc: Global, bytes: &'a [u8]) -> Result<Walk<'a>, AllocError>
        ensures { IfOk result (λ walk. IsAt bytes.now [] walk) }
    {
        let reader = TraceReader::new(alloc)?;
        Ok(Walk {
            reader,
            rest: bytes,
        })
    }

    /// The next item, which is written to `room`; `None` where there is no other, since the bytes end or have a fault.
    pub fn next(&mut self, room: &mut Room) -> Option<Found>
        requires { (bytes : List ℕ) × (items : List Item) × IsAt bytes items self.old × (length bytes < 2 ^ 63) }
        ensures item { IfSome result (λ found. (bytes : List ℕ) (items : List Item) → IsAt bytes items self.old → IsAt bytes (items ++ item_of room.new found ∷ []) self.new) }
        ensures fewer { IfSome result (λ _. left self.new < left self.old) }
        ensures over { result ≡ None → (bytes : List ℕ) (items : List Item) → IsAt bytes items self.old → IsOver bytes items self.new }
    {
        match self.reader.next_from(self.rest, room) {
            Ok((found, count)) => match found {
                Found::More => None,
                _ => {
                    self.rest = &self.rest[count..];
                    Some(found)
                }
            },
            Err(_) => None,
        }
    }

    /// Says that the walk is over: the number of events of a trace, or the fault.
    pub fn finish(self) -> Result<u64, TraceFault>
        requires { (bytes : List ℕ) × (items : List Item) × IsOver bytes items self }
        ensures whole { (bytes : List ℕ) (items : List Item) → IsOver bytes items self.entry → IfOk result (λ count. IsTraceOf bytes items count) }
        ensures fault { (bytes : List ℕ) (items : List Item) → IsOver bytes items self.entry → IfErr result (λ fault. HasFault bytes fault) }
    {
        self.reader.finish()
    }
}
