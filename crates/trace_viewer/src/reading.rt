// Reading a piece, and showing what it has.
ghost use Rattle.std.specs.Prelude.{◌++◌, ◌+◌, ◌<◌, ◌^◌, ◌≤◌, List, OnErr, OnOk, length, ℕ};
ghost use Rattle.trace_stream.specs.Readings.{fed_count};
ghost use Rattle.trace_viewer.specs.Viewing.{AppendsSome, HasShown, IsSomeFront, IsViewing};

use crate::showing::show_item;
use cxl_view::Tallies;
use std::alloc::{AllocError, Global};
use trace_stream::{Found, Room, TraceReader};

/// Reads the items of the bytes that wait and of a piece behind them, and shows each. What comes behind a fault isn't shown.
pub fn read_piece(
    alloc: Global,
    reader: &mut TraceReader,
    room: &mut Room,
    tallies: &mut Tallies,
    piece: &[u8],
    out: &mut Vec<u8>,
) -> Result<(), AllocError>
    requires fits { fed_count reader.old + length piece.now < 2 ^ 63 }
    requires viewing { IsViewing (record { reading = reader.old; counted = tallies.old }) }
    ensures shown { (bytes text : List ℕ) → HasShown bytes text (record { reading = reader.old; counted = tallies.old }) → OnOk result (AppendsSome out.old.items out.new.items (λ more. HasShown (bytes ++ piece.now) (text ++ more) (record { reading = reader.new; counted = tallies.new }))) }
    ensures front { (bytes text : List ℕ) → HasShown bytes text (record { reading = reader.old; counted = tallies.old }) → OnErr result (AppendsSome out.old.items out.new.items (λ more. IsSomeFront (bytes ++ piece.now) (text ++ more))) }
    ensures fed { fed_count reader.new ≤ fed_count reader.old + length piece.now }
{
    let mut rest = piece;
    loop {
        match reader.next_from(rest, room) {
            Ok((found, count)) => match found {
                Found::More => return Ok(()),
                _ => {
                    show_item(alloc, found, room, tallies, out)?;
                    rest = rest.split_at(count).1;
                }
            },
            Err(_) => return Ok(()),
        }
    }
}
