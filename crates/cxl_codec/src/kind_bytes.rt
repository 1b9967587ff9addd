// The kind bytes of an event record, read at the front of some bytes.
ghost use Rattle.std.specs.Prelude.{◌≡◌, ◌==◌, find};
ghost use Rattle.cxl_codec.specs.Reading.{Gives, kind_of};
ghost use Rattle.cxl_codec.specs.Kinds.{cause_kind_code, cause_kinds, op_kind_code, op_kinds, act_kind_code, act_kinds, message_kind_code, message_kinds};

use crate::faults::Fault;
use crate::kinds::{
    ActKind, CauseKind, MessageKind, OpKind, act_kind, cause_kind, message_kind, op_kind,
};

/// The kind byte of a cause.
#[inline(always)]
pub fn read_cause_kind(bytes: &[u8]) -> Result<(CauseKind, &[u8]), Fault>
    ensures { Gives (λ x. (x.0, x.1.now)) result (kind_of (λ b. find (λ k. cause_kind_code k == b) cause_kinds) bytes.now) }
{
    match bytes {
        [] => Err(Fault::Short),
        [code, rest @ ..] => match cause_kind(*code) {
            Some(kind) => Ok((kind, rest)),
            None => Err(Fault::Kind { left: bytes.len() }),
        },
    }
}

/// The kind byte of an operation.
#[inline(always)]
pub fn read_op_kind(bytes: &[u8]) -> Result<(OpKind, &[u8]), Fault>
    ensures { Gives (λ x. (x.0, x.1.now)) result (kind_of (λ b. find (λ k. op_kind_code k == b) op_kinds) bytes.now) }
{
    match bytes {
        [] => Err(Fault::Short),
        [code, rest @ ..] => match op_kind(*code) {
            Some(kind) => Ok((kind, rest)),
            None => Err(Fault::Kind { left: bytes.len() }),
        },
    }
}

/// The kind byte of an act.
#[inline(always)]
pub fn read_act_kind(bytes: &[u8]) -> Result<(ActKind, &[u8]), Fault>
    ensures { Gives (λ x. (x.0, x.1.now)) result (kind_of (λ b. find (λ k. act_kind_code k == b) act_kinds) bytes.now) }
{
    match bytes {
        [] => Err(Fault::Short),
        [code, rest @ ..] => match act_kind(*code) {
            Some(kind) => Ok((kind, rest)),
            None => Err(Fault::Kind { left: bytes.len() }),
        },
    }
}

/// The kind byte of a message.
#[inline(always)]
pub fn read_message_kind(bytes: &[u8]) -> Result<(MessageKind, &[u8]), Fault>
    ensures { Gives (λ x. (x.0, x.1.now)) result (kind_of (λ b. find (λ k. message_kind_code k == b) message_kinds) bytes.now) }
{
    match bytes {
        [] => Err(Fault::Short),
        [code, rest @ ..] => match message_kind(*code) {
            Some(kind) => Ok((kind, rest)),
            None => Err(Fault::Kind { left: bytes.len() }),
        },
    }
}
