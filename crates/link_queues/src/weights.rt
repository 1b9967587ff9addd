// What a message in flight adds to the weight.
ghost use Rattle.std.specs.Prelude.{◌≡◌, ◌≤◌};
ghost use Rattle.coherence_model.specs.Weight.{message_weight, request_flight_weight};
ghost use Rattle.event_room.specs.Parts.{message_of};
ghost use Rattle.link_queues.specs.Queues.{IsHostCount};

use cxl_message::{ReqOp, Span};
use event_room::{MessageHead, MessageRef};

/// What a Req message in flight adds, in a setup with so many hosts.
fn request_weight(op: ReqOp, hosts: u8) -> u64
    requires { IsHostCount hosts }
    ensures weight { result ≡ request_flight_weight hosts op }
    ensures most { result ≤ 1717 }
{
    match op {
        ReqOp::MemRd => 108 * u64::from(hosts) - 11,
        ReqOp::MemInv => 108 * u64::from(hosts) - 11,
        ReqOp::MemClnEvct => 7,
    }
}

/// What a message in flight adds, in a setup with so many hosts.
pub fn weight_of(message: MessageRef<'_>, hosts: u8) -> u64
    requires { IsHostCount hosts }
    ensures weight { result ≡ message_weight hosts (message_of message.entry) }
    ensures most { result ≤ 1717 }
{
    match message.head {
        MessageHead::Req { op, .. } => request_weight(op, hosts),
        MessageHead::MemWr { .. } => 7,
        MessageHead::BiConflict { .. } => 7,
        MessageHead::BiRsp { .. } => 3,
        MessageHead::Ndr { .. } => 3,
        MessageHead::MemData { .. } => 3,
        MessageHead::BiSnp { span, .. } => snoop_weight(span),
        MessageHead::Credit { .. } => 1,
    }
}

ghost use Rattle.std.specs.Prelude.{◌+◌, ◌*◌};
ghost use Rattle.cxl_message.specs.Codes.{span_len};

/// What a snoop in flight adds.
fn snoop_weight(span: Span) -> u64
    ensures weight { result ≡ 3 + 20 * span_len span }
    ensures most { result ≤ 83 }
{
    match span {
        Span::One => 23,
        Span::Two => 43,
        Span::Four => 83,
    }
}
