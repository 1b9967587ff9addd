// Whether two messages in parts are the same, and which message of a list in parts is meant.
ghost use Rattle.std.specs.Prelude.{◌≡◌, ◌<◌, Some, length, slice_get};
ghost use Rattle.std.specs.Option.{option_map_or};
ghost use Rattle.cxl_message.specs.Messages.{has_tag as message_has_tag, is_conflict_ack as message_is_ack, message_eq, tag_of};
ghost use Rattle.coherence_model.specs.Flight.{shares_tag as message_shares_tag};
ghost use Rattle.event_room.specs.Heads.{with_payload};
ghost use Rattle.event_room.specs.Parts.{message_of};
ghost use Rattle.link_queues.specs.Queues.{joined};

use cxl_message::{Bytes64, NdrOp, Tag};
use event_room::{MessageHead, MessageRef, same_message};

/// Whether two messages are the same.
pub fn is_same(first: MessageRef<'_>, second: MessageRef<'_>) -> bool
    ensures { result ≡ message_eq (message_of first.entry) (message_of second.entry) }
{
    same_message(first, second)
}

/// Whether a message is a BI-ConflictAck.
pub fn is_ack(message: MessageRef<'_>) -> bool
    ensures { result ≡ message_is_ack (message_of message.entry) }
{
    match message.head {
        MessageHead::Ndr { op, .. } => match op {
            NdrOp::ConflictAck => true,
            NdrOp::Cmp => false,
            NdrOp::CmpS => false,
            NdrOp::CmpE => false,
        },
        MessageHead::Req { .. } => false,
        MessageHead::MemWr { .. } => false,
        MessageHead::BiConflict { .. } => false,
        MessageHead::BiRsp { .. } => false,
        MessageHead::MemData { .. } => false,
        MessageHead::BiSnp { .. } => false,
        MessageHead::Credit { .. } => false,
    }
}

ghost use Rattle.std.specs.Prelude.{option_map};

/// The Tag of a message that has one.
fn tag_in(message: MessageRef<'_>) -> Option<Tag>
    ensures { option_map (λ tag. tag.0) result ≡ tag_of (message_of message.entry) }
{
    match message.head {
        MessageHead::Req { tag, .. } => Some(tag),
        MessageHead::MemWr { tag, .. } => Some(tag),
        MessageHead::BiConflict { tag } => Some(tag),
        MessageHead::BiRsp { .. } => None,
        MessageHead::Ndr { tag, .. } => Some(tag),
        MessageHead::MemData { tag } => Some(tag),
        MessageHead::BiSnp { .. } => None,
        MessageHead::Credit { .. } => None,
    }
}

/// Whether the second message has the first one's Tag.
pub fn shares_tag(message: MessageRef<'_>, other: MessageRef<'_>) -> bool
    ensures { result ≡ message_shares_tag (message_of message.entry) (message_of other.entry) }
{
    match tag_in(message) {
        Some(tag) => match tag_in(other) {
            Some(own) => own.0 == tag.0,
            None => false,
        },
        None => false,
    }
}

/// The message at a place of a list in parts.
pub fn message_at<'a>(
    heads: &'a [MessageHead],
    payloads: &'a [Bytes64],
    at: usize,
) -> MessageRef<'a>
    requires { at < length heads.now }
    ensures { slice_get (joined heads.now payloads.now) at ≡ Some (message_of result) }
{
    let head = heads[at];
    match payloads.get(at) {
        Some(payload) => MessageRef {
            head,
            payload: &payload.0,
        },
        None => MessageRef::plain(head),
    }
}
