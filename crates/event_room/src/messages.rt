// Messages as a head and a payload.
ghost use Rattle.std.specs.Prelude.{◌≡◌};
ghost use Rattle.cxl_message.specs.Opening.{zero_bytes};
ghost use Rattle.event_room.specs.Heads.{has_payload as head_has_payload, head_of, with_payload};
ghost use Rattle.event_room.specs.Parts.{message_of};

use cxl_message::{
    BiTag, Bytes64, Channel, Line, Message, Meta, NdrOp, ReqOp, RspOp, SnpOp, SnpType, Span, Tag,
};

/// The payload of what has none.
pub static NO_PAYLOAD: [u8; 64] = [0; 64];

/// A message without the 64 bytes of a MemWr or a MemData (own rule). A BIConflict has 64 bytes on its channel too, all
/// of them zero, which neither the message nor its head has.
#[derive(Clone, Copy, PartialEq, Eq, Debug)]
pub enum MessageHead {
    /// M2S Req.
    Req {
        op: ReqOp,
        meta: Meta,
        snp: SnpType,
        tag: Tag,
        line: Line,
    },
    /// M2S RwD: a write, whose bytes are its payload.
    MemWr {
        meta: Meta,
        snp: SnpType,
        tag: Tag,
        line: Line,
    },
    /// M2S RwD: a conflict.
    BiConflict {
        tag: Tag,
    },
    /// M2S BIRsp.
    BiRsp {
        op: RspOp,
        bitag: BiTag,
        low: u8,
    },
    /// S2M NDR.
    Ndr {
        op: NdrOp,
        tag: Tag,
    },
    /// S2M DRS: the line's bytes are its payload.
    MemData {
        tag: Tag,
    },
    /// S2M BISnp.
    BiSnp {
        op: SnpOp,
        bitag: BiTag,
        line: Line,
        span: Span,
    },
    /// One credit for a channel (own rule).
    Credit {
        channel: Channel,
    },
}

impl MessageHead {
    /// Whether the message has a payload: it is a MemWr or a MemData.
    #[inline(always)]
    pub fn has_payload(self) -> bool
        ensures { result ≡ head_has_payload self }
    {
        match self {
            MessageHead::MemWr { .. } => true,
            MessageHead::MemData { .. } => true,
            _ => false,
        }
    }

    /// All of a message but its payload.
    #[inline(always)]
    pub fn of(message: &Message) -> MessageHead
        ensures { result ≡ head_of message.now }
    {
        match message {
            Message::Req {
                op,
                meta,
                snp,
                tag,
                line,
            } => MessageHead::Req {
                op: *op,
                meta: *meta,
                snp: *snp,
                tag: *tag,
                line: *line,
            },
            Message::MemWr {
                meta,
                snp,
                tag,
                line,
                ..
            } => MessageHead::MemWr {
                meta: *meta,
                snp: *snp,
                tag: *tag,
                line: *line,
            },
            Message::BiConflict { tag } => MessageHead::BiConflict { tag: *tag },
            Message::BiRsp { op, bitag, low } => MessageHead::BiRsp {
                op: *op,
                bitag: *bitag,
                low: *low,
            },
            Message::Ndr { op, tag } => MessageHead::Ndr { op: *op, tag: *tag },
            Message::MemData { tag, .. } => MessageHead::MemData { tag: *tag },
            Message::BiSnp {
                op,
                bitag,
                line,
                span,
            } => MessageHead::BiSnp {
                op: *op,
                bitag: *bitag,
                line: *line,
                span: *span,
            },
            Message::Credit { channel } => MessageHead::Credit { channel: *channel },
        }
    }
}

/// A message as its head and its payload, which counts where the head has one.
#[derive(Clone, Copy)]
pub struct MessageRef<'a> {
    /// The message, but for its payload.
    pub head: MessageHead,
    /// The 64 bytes, which count where the head has a payload.
    pub payload: &'a [u8; 64],
}

impl<'a> MessageRef<'a> {
    /// A message that is a head alone, without a payload.
    #[inline(always)]
    pub fn plain(head: MessageHead) -> MessageRef<'a>
        ensures head { result.head ≡ head }
        ensures whole { message_of result ≡ with_payload head zero_bytes }
    {
        MessageRef {
            head,
            payload: &NO_PAYLOAD,
        }
    }

    /// A message that was made by value.
    #[inline(always)]
    pub fn of(message: &'a Message) -> MessageRef<'a>
        ensures whole { message_of result ≡ message.now }
        ensures head { result.head ≡ head_of message.now }
    {
        let head = MessageHead::of(message);
        match message {
            Message::MemWr { bytes, .. } => MessageRef {
                head,
                payload: &bytes.0,
            },
            Message::MemData { bytes, .. } => MessageRef {
                head,
                payload: &bytes.0,
            },
            _ => MessageRef::plain(head),
        }
    }

    /// The message by value.
    pub fn message(self) -> Message
        ensures { result ≡ message_of self.entry }
    {
        match self.head {
            MessageHead::Req {
                op,
                meta,
                snp,
                tag,
                line,
            } => Message::Req {
                op,
                meta,
                snp,
                tag,
                line,
            },
            MessageHead::MemWr {
                meta,
                snp,
                tag,
                line,
            } => Message::MemWr {
                meta,
                snp,
                tag,
                line,
                bytes: Bytes64(*self.payload),
            },
            MessageHead::BiConflict { tag } => Message::BiConflict { tag },
            MessageHead::BiRsp { op, bitag, low } => Message::BiRsp { op, bitag, low },
            MessageHead::Ndr { op, tag } => Message::Ndr { op, tag },
            MessageHead::MemData { tag } => Message::MemData {
                tag,
                bytes: Bytes64(*self.payload),
            },
            MessageHead::BiSnp {
                op,
                bitag,
                line,
                span,
            } => Message::BiSnp {
                op,
                bitag,
                line,
                span,
            },
            MessageHead::Credit { channel } => Message::Credit { channel },
        }
    }
}
