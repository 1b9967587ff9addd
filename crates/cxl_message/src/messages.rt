// The messages between hosts and the device.
ghost use Rattle.std.specs.Prelude.{◌≡◌};

use crate::channels::Channel;
use crate::identifiers::{BiTag, Bytes64, Line, Tag};
use crate::opcodes::{Meta, NdrOp, ReqOp, RspOp, SnpOp, SnpType, Span};

/// A message on one of a host's channels (CXL 3.1, chapter 3; own rule: `Credit`).
#[derive(Clone, Copy, PartialEq, Eq, Debug)]
pub enum Message {
    /// M2S Req: MemRd, MemInv or MemClnEvct.
    Req {
        /// Which request it is.
        op: ReqOp,
        /// The Meta0-State value.
        meta: Meta,
        /// The snoop type.
        snp: SnpType,
        /// The Tag.
        tag: Tag,
        /// The line.
        line: Line,
    },
    /// M2S RwD: a write of a whole line.
    MemWr {
        /// The Meta0-State value.
        meta: Meta,
        /// The snoop type.
        snp: SnpType,
        /// The Tag.
        tag: Tag,
        /// The line.
        line: Line,
        /// The line's bytes.
        bytes: Bytes64,
    },
    /// M2S RwD: the host has a request or an eviction with this Tag pending for a line that is snooped.
    BiConflict {
        /// The Tag.
        tag: Tag,
    },
    /// M2S BIRsp: an answer for the line `low` lines after the first of the snoop, or for the whole block.
    BiRsp {
        /// Which answer it is.
        op: RspOp,
        /// The BITag of the snoop.
        bitag: BiTag,
        /// How many lines after the first of the snoop, 0 to 3.
        low: u8,
    },
    /// S2M NDR: Cmp, Cmp-S, Cmp-E or BI-ConflictAck.
    Ndr {
        /// Which completion it is.
        op: NdrOp,
        /// The Tag.
        tag: Tag,
    },
    /// S2M DRS: the bytes of a line that was read.
    MemData {
        /// The Tag.
        tag: Tag,
        /// The line's bytes.
        bytes: Bytes64,
    },
    /// S2M BISnp: a back-invalidate snoop of one line or of a block.
    BiSnp {
        /// Which snoop it is.
        op: SnpOp,
        /// The BITag of the snoop.
        bitag: BiTag,
        /// The first line that it is for.
        line: Line,
        /// How many lines it is for.
        span: Span,
    },
    /// One credit for a channel, back to the channel's sender (own rule).
    Credit {
        /// The channel that the credit is for.
        channel: Channel,
    },
}

impl Message {
    ghost use Rattle.std.specs.Prelude.{option_map};
    ghost use Rattle.cxl_message.specs.Messages.{channel_of, has_tag as message_has_tag, line_in, tag_of};

    /// The channel that the message goes on. A Credit for Req, RwD or BIRsp goes on CreditDown, and each other
    /// one on CreditUp.
    pub fn channel(&self) -> Channel
        ensures { result ≡ channel_of self.now }
    {
        match self {
            Message::Req { .. } => Channel::Req,
            Message::MemWr { .. } => Channel::Rwd,
            Message::BiConflict { .. } => Channel::Rwd,
            Message::BiRsp { .. } => Channel::BiRsp,
            Message::Ndr { .. } => Channel::Ndr,
            Message::MemData { .. } => Channel::Drs,
            Message::BiSnp { .. } => Channel::BiSnp,
            Message::Credit { channel } => match channel {
                Channel::Req | Channel::Rwd | Channel::BiRsp => Channel::CreditDown,
                _ => Channel::CreditUp,
            },
        }
    }

    /// The Tag of the message: that of a Req, RwD, NDR or DRS message. A message of another kind has none.
    pub fn tag(&self) -> Option<Tag>
        ensures { option_map (λ tag. tag.0) result ≡ tag_of self.now }
    {
        match self {
            Message::Req { tag, .. }
            | Message::MemWr { tag, .. }
            | Message::BiConflict { tag }
            | Message::Ndr { tag, .. }
            | Message::MemData { tag, .. } => Some(*tag),
            Message::BiRsp { .. } | Message::BiSnp { .. } | Message::Credit { .. } => None,
        }
    }

    /// Whether the message has this Tag.
    pub fn has_tag(&self, tag: Tag) -> bool
        ensures { result ≡ message_has_tag tag.0 self.now }
    {
        match self.tag() {
            Some(own) => own.0 == tag.0,
            None => false,
        }
    }

    /// The line that a request, an eviction or a write is for. A message of another kind has none here: a snoop names
    /// the first line of its span.
    pub fn line(&self) -> Option<Line>
        ensures { option_map (λ line. line.0) result ≡ line_in self.now }
    {
        match self {
            Message::Req { line, .. } | Message::MemWr { line, .. } => Some(*line),
            _ => None,
        }
    }
}
