// The profile: which combinations of opcode and fields hosts and the device may send.
ghost use Rattle.std.specs.Prelude.{◌≡◌};
ghost use Rattle.cxl_message.specs.Profile.{in_profile as is_in_profile, request_in_profile as is_request_in_profile, write_in_profile as is_write_in_profile, response_in_profile as is_response_in_profile, snoop_in_profile as is_snoop_in_profile};

use crate::limits::MAX_SPAN;
use crate::messages::Message;
use crate::opcodes::{Meta, ReqOp, RspOp, SnpOp, SnpType, Span};

/// Whether a message is in the profile, without the parts that need a setup: the numbers of tags, lines and hosts.
/// The opcodes are those of CXL 3.1, chapter 3; which of their fields are allowed is this project's own.
pub fn in_profile(message: &Message) -> bool
    ensures { result ≡ is_in_profile message.now }
{
    match message {
        Message::Req { op, meta, snp, .. } => request_in_profile(*op, *meta, *snp),
        Message::MemWr { meta, snp, .. } => write_in_profile(*meta, *snp),
        Message::BiConflict { .. } => true,
        Message::BiRsp { op, low, .. } => response_in_profile(*op, *low),
        Message::Ndr { .. } => true,
        Message::MemData { .. } => true,
        Message::BiSnp {
            op,
            bitag,
            line,
            span,
        } => snoop_in_profile(*op, *span) && u32::from(bitag.0) == line.0,
        Message::Credit { channel } => channel.has_credits(),
    }
}

/// Whether a Req may have these values: MemRd Shared SnpData, MemRd Any SnpInv, MemInv Any SnpInv and
/// MemClnEvct Invalid No-Op.
fn request_in_profile(op: ReqOp, meta: Meta, snp: SnpType) -> bool
    ensures { result ≡ is_request_in_profile op meta snp }
{
    match (op, meta, snp) {
        (ReqOp::MemRd, Meta::Shared, SnpType::SnpData) => true,
        (ReqOp::MemRd, Meta::Any, SnpType::SnpInv) => true,
        (ReqOp::MemInv, Meta::Any, SnpType::SnpInv) => true,
        (ReqOp::MemClnEvct, Meta::Invalid, SnpType::NoOp) => true,
        _ => false,
    }
}

/// Whether a MemWr may have these values: Invalid or Shared, and No-Op.
fn write_in_profile(meta: Meta, snp: SnpType) -> bool
    ensures { result ≡ is_write_in_profile meta snp }
{
    match (meta, snp) {
        (Meta::Invalid | Meta::Shared, SnpType::NoOp) => true,
        _ => false,
    }
}

/// Whether a BIRsp may have this opcode and `low`.
fn response_in_profile(op: RspOp, low: u8) -> bool
    ensures { result ≡ is_response_in_profile op low }
{
    match op {
        RspOp::I | RspOp::S => low < MAX_SPAN,
        RspOp::IBlk => low == 0,
        RspOp::E | RspOp::SBlk | RspOp::EBlk => false,
    }
}

/// Whether a BISnp may have this opcode and span.
fn snoop_in_profile(op: SnpOp, span: Span) -> bool
    ensures { result ≡ is_snoop_in_profile op span }
{
    match (op, span) {
        (SnpOp::Dat | SnpOp::Inv, Span::One) => true,
        (SnpOp::InvBlk, Span::Two | Span::Four) => true,
        _ => false,
    }
}
