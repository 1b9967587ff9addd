// What a row of the device sends, as a small value.
use cxl_message::{BiTag, Channel, Line, NdrOp, SnpOp, Span, Tag};

/// What a row of the device sends, without the 64 bytes of a MemData (own rule). A contract sees what it emits with the
/// bytes of memory as `emission_by`.
#[derive(Clone, Copy)]
pub enum Decision {
    /// Nothing is sent.
    Nothing,
    /// S2M NDR: a completion.
    Completion {
        host: u8,
        op: NdrOp,
        tag: Tag,
    },
    /// S2M NDR and then S2M DRS: a completion, and the data of a line.
    Grant {
        host: u8,
        op: NdrOp,
        tag: Tag,
        line: Line,
    },
    /// S2M BISnp.
    Snoop {
        host: u8,
        op: SnpOp,
        bitag: BiTag,
        line: Line,
        span: Span,
    },
    /// One credit for a channel.
    Credit {
        host: u8,
        channel: Channel,
    },
}
