// The events of a trace, encoded alone.
use bench_events::Recorded;
use cxl_codec::{decode_header, decode_opening, decode_room};
use event_room::EventRoom;
use std::alloc::{AllocError, Global};

/// How many events are in rooms at once, so that they stay in the cache.
const CHUNK: usize = 32;

/// How many bytes wait at most.
const FULL: usize = 65000;

/// What was encoded.
#[derive(Clone, Copy)]
pub struct Tally {
    pub events: u64,
    pub bytes: u64,
}

/// Encodes the events of a trace so many rounds, each chunk of them as often in turn, into one buffer that is emptied where it is
/// full. The bytes of all rounds are counted, and the events once.
pub fn encode_events(alloc: Global, trace: &[u8], rounds: u32) -> Result<Tally, AllocError> {
    let mut tally = Tally {
        events: 0,
        bytes: 0,
    };
    let mut out = Vec::new(alloc);
    let mut rest = events_of(trace);
    for _ in 0..trace.len() {
        let (records, more) = take_chunk(alloc, rest)?;
        if records.is_empty() {
            break;
        }
        tally.events = tally.events.wrapping_add(records.len() as u64);
        for _ in 0..rounds {
            tally.bytes = tally.bytes.wrapping_add(encode_chunk(&records, &mut out)?);
        }
        rest = more;
    }
    Ok(tally)
}

/// Encodes some events, and answers how many bytes they have.
fn encode_chunk(records: &[Recorded], out: &mut Vec<u8>) -> Result<u64, AllocError> {
    if out.len() >= FULL {
        out.clear();
    }
    let before = out.len() as u64;
    for record in records {
        record.encode(out)?;
    }
    Ok((out.len() as u64).wrapping_sub(before))
}

/// The bytes of a trace behind its header and its openings; none, where it doesn't begin with a header.
fn events_of(trace: &[u8]) -> &[u8] {
    let Ok((_, length)) = decode_header(trace) else {
        return &[];
    };
    let mut rest = trace.get(length..).unwrap_or(&[]);
    for _ in 0..trace.len() {
        let Ok((_, _, length)) = decode_opening(rest) else {
            break;
        };
        rest = rest.get(length..).unwrap_or(&[]);
    }
    rest
}

/// The first events of some bytes, at most a chunk of them, each in a room of its own, and the bytes behind them.
fn take_chunk(alloc: Global, bytes: &[u8]) -> Result<(Vec<Recorded>, &[u8]), AllocError> {
    let mut records = Vec::with_capacity(alloc, CHUNK)?;
    let mut rest = bytes;
    for _ in 0..CHUNK {
        let mut room = EventRoom::new();
        let Ok(length) = decode_room(rest, &mut room) else {
            break;
        };
        let Some(record) = Recorded::new(room) else {
            break;
        };
        records.push(record)?;
        rest = rest.get(length..).unwrap_or(&[]);
    }
    Ok((records, rest))
}
