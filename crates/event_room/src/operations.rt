// Operations as a head and a payload.
ghost use Rattle.std.specs.Prelude.{◌≡◌};
ghost use Rattle.cxl_message.specs.Opening.{zero_bytes};
ghost use Rattle.event_room.specs.Heads.{op_has_payload, op_head_of, op_with};
ghost use Rattle.event_room.specs.Parts.{op_of};

use crate::messages::NO_PAYLOAD;
use cxl_message::{Bytes64, Line, Op};

/// An operation without the 64 bytes of a Whole (own rule).
#[derive(Clone, Copy, PartialEq, Eq, Debug)]
pub enum OpHead {
    /// Reads the line.
    Load { line: Line },
    /// Stores a word of the line.
    Word { line: Line, place: u8, value: u64 },
    /// Stores the whole line, whose bytes are its payload.
    Whole { line: Line },
}

impl OpHead {
    /// Whether the operation has a payload: it is a Whole.
    #[inline(always)]
    pub fn has_payload(self) -> bool
        ensures { result ≡ op_has_payload self }
    {
        match self {
            OpHead::Whole { .. } => true,
            _ => false,
        }
    }
}

/// An operation as its head and its payload, which counts where the head has one.
#[derive(Clone, Copy)]
pub struct OpRef<'a> {
    /// The operation, but for its payload.
    pub head: OpHead,
    /// The 64 bytes, which count where the head has a payload.
    pub payload: &'a [u8; 64],
}

impl<'a> OpRef<'a> {
    /// An operation that is a head alone, without a payload.
    #[inline(always)]
    pub fn plain(head: OpHead) -> OpRef<'a>
        ensures head { result.head ≡ head }
        ensures whole { op_of result ≡ op_with head zero_bytes }
    {
        OpRef {
            head,
            payload: &NO_PAYLOAD,
        }
    }

    /// An operation that was made by value.
    #[inline(always)]
    pub fn of(op: &'a Op) -> OpRef<'a>
        ensures whole { op_of result ≡ op.now }
        ensures head { result.head ≡ op_head_of op.now }
    {
        match op {
            Op::Load { line } => OpRef::plain(OpHead::Load { line: *line }),
            Op::Word { line, place, value } => OpRef::plain(OpHead::Word {
                line: *line,
                place: *place,
                value: *value,
            }),
            Op::Whole { line, bytes } => OpRef {
                head: OpHead::Whole { line: *line },
                payload: &bytes.0,
            },
        }
    }

    /// The operation by value.
    pub fn op(self) -> Op
        ensures { result ≡ op_of self.entry }
    {
        match self.head {
            OpHead::Load { line } => Op::Load { line },
            OpHead::Word { line, place, value } => Op::Word { line, place, value },
            OpHead::Whole { line } => Op::Whole {
                line,
                bytes: Bytes64(*self.payload),
            },
        }
    }
}
