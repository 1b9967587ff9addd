// Worked examples: one load, and records of openings.
use cxl_message::{
    Act, Bytes64, Cause, Commit, Event, Line, Message, Meta, NdrOp, Op, Out, ReqOp, Sends, SnpType,
    Tag,
};
use std::alloc::{AllocError, Global};
use trace_stream::*;

const ZEROS: Bytes64 = Bytes64([0; 64]);

const LOAD: Op = Op::Load { line: Line(0) };

const READ: Message = Message::Req {
    op: ReqOp::MemRd,
    meta: Meta::Shared,
    snp: SnpType::SnpData,
    tag: Tag(0),
    line: Line(0),
};

const GRANT: Message = Message::Ndr {
    op: NdrOp::CmpE,
    tag: Tag(0),
};

const DATA: Message = Message::MemData {
    tag: Tag(0),
    bytes: ZEROS,
};

// Some parts, one after the other.
pub fn joined(alloc: Global, parts: &[&[u8]]) -> Result<Vec<u8>, AllocError> {
    let mut all = Vec::new(alloc);
    for part in parts {
        all.extend_from_slice(part)?;
    }
    Ok(all)
}

// An event that sends and commits nothing.
fn quiet(agent: u8, cause: Cause) -> Event {
    Event {
        agent,
        cause,
        sends: Sends::Nothing,
        commit: None,
    }
}

// A message to or from host 0.
fn out(message: Message) -> Out {
    Out { host: 0, message }
}

// A take of a message of host 0.
fn take(message: Message) -> Cause {
    Cause::Take { host: 0, message }
}

// The events of the example 'One load'.
pub fn one_load() -> [Event; 6] {
    let operation = Cause::Op {
        stream: 0,
        index: 0,
        op: LOAD,
    };
    let start = Act::Start {
        host: 0,
        tag: Tag(0),
    };
    let mut begins = quiet(0, operation);
    begins.sends = Sends::One(out(READ));
    let mut grants = quiet(16, Cause::Act(Act::Finish(Line(0))));
    grants.sends = Sends::Two(out(GRANT), out(DATA));
    let mut ends = quiet(0, take(DATA));
    ends.commit = Some(Commit {
        stream: 0,
        index: 0,
        op: LOAD,
        value: ZEROS,
    });
    [
        begins,
        quiet(16, take(READ)),
        quiet(16, Cause::Act(start)),
        grants,
        quiet(0, take(GRANT)),
        ends,
    ]
}

// The header of the example 'One load'.
pub const HEADER: &[u8] = b"CXLT\x01\x01\x00\x03\x00\x03\x03\x02\x02\x01\x00";

// The bytes of the example 'One load'.
pub fn one_load_bytes(alloc: Global) -> Result<Vec<u8>, AllocError> {
    joined(
        alloc,
        &[
            HEADER,
            b"\x00\x01\x00\x00\x00\x00\x00\x01\x00\x00\x00\x00\x01\x00\x01\x02\x01\x00\x00\x00\x00\x00\x00\x00",
            b"\x10\x02\x00\x01\x02\x01\x00\x00\x00\x00\x00\x00\x00\x00",
            b"\x10\x03\x13\x00\x00\x00\x00\x00",
            b"\x10\x03\x16\x00\x00\x00\x00\x02\x00\x33\x00\x00\x00\x41\x00\x00",
            &[0; 64],
            b"\x00",
            b"\x00\x02\x00\x33\x00\x00\x00\x00",
            b"\x00\x02\x00\x41\x00\x00",
            &[0; 64],
            b"\x00\x01\x00\x00\x00\x00\x00\x01\x00\x00\x00\x00",
            &[0; 64],
            b"\xff\x00\x00\x00\x00\x00\x00\x00\x06",
        ],
    )
}

// What was read, and how it ends.
#[derive(Drop)]
pub struct Outcome {
    pub items: Vec<Item>,
    pub end: Result<u64, TraceFault>,
}

// The items of bytes that are fed in two parts, each in pieces of so many bytes.
pub fn read(
    alloc: Global,
    first: &[u8],
    second: &[u8],
    chunk: usize,
) -> Result<Outcome, AllocError> {
    let mut reader = TraceReader::new(alloc)?;
    let mut items = Vec::new(alloc);
    let mut left = first;
    let mut behind = second;
    for _ in 0..100_000 {
        match reader.next() {
            Ok(Item::More) => {
                if left.is_empty() {
                    left = behind;
                    behind = &[];
                }
                let piece = left.get(..chunk).unwrap_or(left);
                if piece.is_empty() {
                    let end = reader.finish();
                    return Ok(Outcome { items, end });
                }
                if reader.fed() < 1_000_000_000 && piece.len() < 1_000_000_000 {
                    let count = reader.feed(piece);
                    left = left.get(count..).unwrap_or(&[]);
                }
            }
            Ok(item) => items.push(item)?,
            Err(_) => {
                let end = reader.finish();
                return Ok(Outcome { items, end });
            }
        }
    }
    Ok(Outcome {
        items,
        end: Err(TraceFault {
            at: 0,
            reason: Reason::Trailing,
        }),
    })
}
