// The viewer.
ghost use Rattle.std.specs.Prelude.{◌++◌, ◌+◌, ◌<◌, ◌^◌, ◌≡◌, ◌≤◌, [], IfOk, List, Ok, OnErr, OnOk, length, ℕ};
ghost use Rattle.trace_stream.specs.Readings.{fed_count};
ghost use Rattle.trace_stream.specs.declared.items.TraceFault.{TraceFault};
ghost use Rattle.trace_viewer.specs.Viewing.{AppendsSome, HasShown, IsSomeFront, IsViewed, IsViewing};
ghost use Rattle.trace_viewer.specs.declared.viewed.Viewed.{Viewed as WasViewed};

use crate::reading::read_piece;
use crate::viewed::Viewed;
use cxl_view::Tallies;
use std::alloc::{AllocError, Global};
use std::marker::Model;
use trace_stream::{Room, TraceReader};

/// A viewer of a trace of either version that comes in any pieces. It keeps no event and no text, but a count for each line that
/// operations name (own rule).
///
/// A contract sees what was read and what was counted, which has the number of events that were shown: `HasShown` says of which
/// bytes they are, and with which text. Once a call has answered `AllocError` the viewer isn't used again.
#[derive(Drop)]
pub struct Viewer {
    alloc: Global,
    reader: TraceReader,
    room: Room,
    tallies: Tallies,
}

impl Model for Viewer {
    ghost use Rattle.trace_viewer.specs.Viewing.{Viewing};

    ghost Value = { Viewing };

    ghost view = { λ v. record { reading = v.reader; counted = v.tallies } };
}

impl Viewer {
    /// A viewer that was fed nothing. `Err` is want of memory.
    pub fn new(alloc: Global) -> Result<Viewer, AllocError>
        ensures shown { IfOk result (λ viewer. HasShown [] [] viewer) }
        ensures viewing { IfOk result (λ viewer. IsViewing viewer) }
        ensures fed { IfOk result (λ viewer. fed_count viewer.reading ≡ 0) }
    {
        let reader = TraceReader::new(alloc)?;
        Ok(Viewer {
            alloc,
            reader,
            room: Room::new(),
            tallies: Tallies::new(alloc, 0),
        })
    }

    /// Reads one more piece of the bytes, and appends the lines of each item of which the last byte came: the header, names,
    /// openings and events, numbered from 0. Behind a fault nothing is shown any more. `Err` is want of memory; then `out` has
    /// the lines of some of the items, all of each.
    pub fn feed(&mut self, piece: &[u8], out: &mut Vec<u8>) -> Result<(), AllocError>
        requires fits { fed_count self.old.reading + length piece.now < 2 ^ 63 }
        requires viewing { IsViewing self.old }
        ensures shown { (bytes text : List ℕ) → HasShown bytes text self.old → OnOk result (AppendsSome out.old.items out.new.items (λ more. HasShown (bytes ++ piece.now) (text ++ more) self.new)) }
        ensures front { (bytes text : List ℕ) → HasShown bytes text self.old → OnErr result (AppendsSome out.old.items out.new.items (λ more. IsSomeFront (bytes ++ piece.now) (text ++ more))) }
        ensures viewing { OnOk result (IsViewing self.new) }
        ensures fed { fed_count self.new.reading ≤ fed_count self.old.reading + length piece.now }
    {
        read_piece(
            self.alloc,
            &mut self.reader,
            &mut self.room,
            &mut self.tallies,
            piece,
            out,
        )
    }

    /// Says that no byte follows, and answers whether all that were fed are a trace. Where they are, what was counted of its events
    /// is appended, and so all of its text was shown. Else it is the first fault, nothing is appended, and what was shown is the
    /// text of what stands before the fault. `Err` is want of memory, and `out` is then as before.
    pub fn finish(self, out: &mut Vec<u8>) -> Result<Viewed, AllocError>
        requires viewing { IsViewing self }
        ensures viewed { (bytes text : List ℕ) → HasShown bytes text self → IfOk result (λ viewed. AppendsSome out.old.items out.new.items (λ more. IsViewed bytes (text ++ more) viewed)) }
        ensures nothing { (fault : TraceFault) → result ≡ Ok (WasViewed.Fault fault) → out.new.items ≡ out.old.items }
        ensures err { OnErr result (out.new.items ≡ out.old.items) }
    {
        match self.reader.finish() {
            Ok(_) => {
                self.tallies.render(out)?;
                Ok(Viewed::Whole)
            }
            Err(fault) => Ok(Viewed::Fault(fault)),
        }
    }
}
