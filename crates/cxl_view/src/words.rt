// The words by which opcodes and fields are shown.
ghost use Rattle.std.specs.Prelude.{◌≡◌, ◌≤◌, length};
ghost use Rattle.cxl_view.specs.Words as spec;

use cxl_message::{Channel, Meta, NdrOp, ReqOp, RspOp, SnpOp, SnpType};

/// How many bytes each of these words has at most.
pub const LONGEST_WORD: usize = 14;

/// The Meta0-State value of a request or a write.
#[inline(always)]
pub fn meta_word(meta: Meta) -> &'static [u8]
    ensures word { result.now ≡ spec.meta_word meta }
    ensures short { length result.now ≤ LONGEST_WORD }
{
    match meta {
        Meta::Invalid => b"Invalid",
        Meta::Any => b"Any",
        Meta::Shared => b"Shared",
    }
}

/// The snoop type of a request or a write.
#[inline(always)]
pub fn snoop_type_word(snp: SnpType) -> &'static [u8]
    ensures word { result.now ≡ spec.snoop_type_word snp }
    ensures short { length result.now ≤ LONGEST_WORD }
{
    match snp {
        SnpType::NoOp => b"No-Op",
        SnpType::SnpData => b"SnpData",
        SnpType::SnpCur => b"SnpCur",
        SnpType::SnpInv => b"SnpInv",
    }
}

/// An opcode of M2S Req.
#[inline(always)]
pub fn request_word(op: ReqOp) -> &'static [u8]
    ensures word { result.now ≡ spec.request_word op }
    ensures short { length result.now ≤ LONGEST_WORD }
{
    match op {
        ReqOp::MemRd => b"MemRd",
        ReqOp::MemInv => b"MemInv",
        ReqOp::MemClnEvct => b"MemClnEvct",
    }
}

/// An opcode of M2S BIRsp.
#[inline(always)]
pub fn response_word(op: RspOp) -> &'static [u8]
    ensures word { result.now ≡ spec.response_word op }
    ensures short { length result.now ≤ LONGEST_WORD }
{
    match op {
        RspOp::I => b"BIRspI",
        RspOp::S => b"BIRspS",
        RspOp::E => b"BIRspE",
        RspOp::IBlk => b"BIRspIBlk",
        RspOp::SBlk => b"BIRspSBlk",
        RspOp::EBlk => b"BIRspEBlk",
    }
}

/// An opcode of S2M NDR.
#[inline(always)]
pub fn completion_word(op: NdrOp) -> &'static [u8]
    ensures word { result.now ≡ spec.completion_word op }
    ensures short { length result.now ≤ LONGEST_WORD }
{
    match op {
        NdrOp::Cmp => b"Cmp",
        NdrOp::CmpS => b"Cmp-S",
        NdrOp::CmpE => b"Cmp-E",
        NdrOp::ConflictAck => b"BI-ConflictAck",
    }
}

/// An opcode of S2M BISnp.
#[inline(always)]
pub fn snoop_word(op: SnpOp) -> &'static [u8]
    ensures word { result.now ≡ spec.snoop_word op }
    ensures short { length result.now ≤ LONGEST_WORD }
{
    match op {
        SnpOp::Cur => b"BISnpCur",
        SnpOp::Dat => b"BISnpData",
        SnpOp::Inv => b"BISnpInv",
        SnpOp::CurBlk => b"BISnpCurBlk",
        SnpOp::DatBlk => b"BISnpDataBlk",
        SnpOp::InvBlk => b"BISnpInvBlk",
    }
}

/// A channel. A well formed event names none of the last two.
#[inline(always)]
pub fn channel_word(channel: Channel) -> &'static [u8]
    ensures word { result.now ≡ spec.channel_word channel }
    ensures short { length result.now ≤ LONGEST_WORD }
{
    match channel {
        Channel::Req => b"Req",
        Channel::Rwd => b"RwD",
        Channel::BiRsp => b"BIRsp",
        Channel::Ndr => b"NDR",
        Channel::Drs => b"DRS",
        Channel::BiSnp => b"BISnp",
        Channel::CreditUp => b"CreditUp",
        Channel::CreditDown => b"CreditDown",
    }
}
