// A trace is read in pieces, or its records are decoded alone.
ghost use Rattle.std.specs.Prelude.{◌+◌, ◌^◌, ◌<◌, ◌≤◌, length};
ghost use Rattle.trace_stream.specs.Readings.{fed_count};

use crate::work::Tally;
use cxl_codec::{decode_header, decode_room};
use event_room::EventRoom;
use std::alloc::{AllocError, Global};
use trace_stream::{Found, Room, TraceReader};

/// More bytes than a trace has.
const LIMIT: u64 = 1 << 62;

/// More items than stand in the bytes that a reader keeps.
const ITEMS: usize = 365;

/// Decodes the event records of a trace from the front, each into the same room.
pub fn decode(trace: &[u8], room: &mut EventRoom, tally: &mut Tally) {
    let Ok((_, length)) = decode_header(trace) else {
        return;
    };
    let mut rest = trace.get(length..).unwrap_or(&[]);
    for _ in 0..trace.len() {
        let Ok(length) = decode_room(rest, room) else {
            break;
        };
        tally.add_event(room);
        rest = rest.get(length..).unwrap_or(&[]);
    }
    tally.add_bytes(trace.len());
}

/// Reads a trace in pieces of so many bytes, each item into the same room.
pub fn read(alloc: Global, trace: &[u8], piece: u32, tally: &mut Tally) -> Result<(), AllocError> {
    if trace.len() as u64 >= LIMIT {
        return Ok(());
    }
    let mut reader = TraceReader::new(alloc)?;
    let mut room = Room::new();
    let mut ended = false;
    let mut rest = trace;
    while !rest.is_empty() {
        let (first, more) = rest.split_at(rest.len().min((piece as usize).max(1)));
        ended = feed(&mut reader, first, &mut room, tally);
        rest = more;
    }
    tally.same = tally.same && ended;
    tally.add_bytes(trace.len());
    Ok(())
}

/// Reads the items of the bytes that wait and of a piece behind them. It answers whether the last one of them was the end
/// record.
fn feed(reader: &mut TraceReader, piece: &[u8], room: &mut Room, tally: &mut Tally) -> bool
    requires { fed_count reader.old + length piece.now < 2 ^ 63 }
    ensures { fed_count reader.new ≤ fed_count reader.old + length piece.now }
{
    let mut ended = false;
    let mut rest = piece;
    for _ in 0..piece.len() + ITEMS {
        match reader.next_from(rest, room) {
            Ok((Found::More, _)) => return ended,
            Ok((found, count)) => {
                ended = is_end(found, room, tally);
                rest = &rest[count..];
            }
            Err(_) => return false,
        }
    }
    ended
}

/// Counts an item that is an event. It answers whether the item is the end record.
fn is_end(found: Found, room: &Room, tally: &mut Tally) -> bool {
    match found {
        Found::Event => {
            tally.add_event(&room.event);
            false
        }
        Found::End { .. } => true,
        _ => false,
    }
}
