//! What stands at the kind bytes of an event record: one table for each place (own rule).
ghost use Rattle.std.specs.Prelude.{◌≡◌, ◌==◌, find};
ghost use Rattle.cxl_codec.specs.Kinds.{cause_kind_code, cause_kinds, op_kind_code, op_kinds, act_kind_code, act_kinds, message_kind_code, message_kinds};

use cxl_message::codes::{
    BI_CONFLICT, BI_CONFLICT_ACK, BI_RSP_E, BI_RSP_E_BLK, BI_RSP_I, BI_RSP_I_BLK, BI_RSP_S,
    BI_RSP_S_BLK, BI_SNP_CUR, BI_SNP_CUR_BLK, BI_SNP_DATA, BI_SNP_DATA_BLK, BI_SNP_INV,
    BI_SNP_INV_BLK, CMP, CMP_E, CMP_S, CREDIT, MEM_CLN_EVCT, MEM_DATA, MEM_INV, MEM_RD, MEM_WR,
};
use cxl_message::{NdrOp, ReqOp, RspOp, SnpOp};

/// The kinds of cause.
#[derive(Clone, Copy)]
pub enum CauseKind {
    Op,
    Take,
    Act,
}

/// The kinds of operation.
#[derive(Clone, Copy)]
pub enum OpKind {
    Load,
    Word,
    Whole,
}

/// The kinds of act, with those that share their fields together.
#[derive(Clone, Copy)]
pub enum ActKind {
    Line(LineActKind),
    Tagged(TaggedActKind),
    HostReturn,
    Snoop,
    DeviceReturn,
}

/// The acts that name a line.
#[derive(Clone, Copy)]
pub enum LineActKind {
    Conflict,
    WriteBack,
    Answer,
    AnswerBlock,
    Finish,
}

/// The acts that name a host and a tag.
#[derive(Clone, Copy)]
pub enum TaggedActKind {
    Serve,
    Clean,
    Start,
    Evict,
}

/// The kinds of message, with the opcodes of those that share their fields.
#[derive(Clone, Copy)]
pub enum MessageKind {
    Req(ReqOp),
    MemWr,
    BiConflict,
    BiRsp(RspOp),
    Ndr(NdrOp),
    MemData,
    BiSnp(SnpOp),
    Credit,
}

/// The kind of cause of this number, if there is one.
#[inline(always)]
pub fn cause_kind(code: u8) -> Option<CauseKind>
    ensures { result ≡ find (λ k. cause_kind_code k == code) cause_kinds }
{
    match code {
        0x01 => Some(CauseKind::Op),
        0x02 => Some(CauseKind::Take),
        0x03 => Some(CauseKind::Act),
        _ => None,
    }
}

/// The kind of operation of this number, if there is one.
#[inline(always)]
pub fn op_kind(code: u8) -> Option<OpKind>
    ensures { result ≡ find (λ k. op_kind_code k == code) op_kinds }
{
    match code {
        0x01 => Some(OpKind::Load),
        0x02 => Some(OpKind::Word),
        0x03 => Some(OpKind::Whole),
        _ => None,
    }
}

/// The kind of act of this number, if there is one.
#[inline(always)]
pub fn act_kind(code: u8) -> Option<ActKind>
    ensures { result ≡ find (λ k. act_kind_code k == code) act_kinds }
{
    match code {
        0x01 => Some(ActKind::Line(LineActKind::Conflict)),
        0x02 => Some(ActKind::Line(LineActKind::WriteBack)),
        0x03 => Some(ActKind::Line(LineActKind::Answer)),
        0x04 => Some(ActKind::Line(LineActKind::AnswerBlock)),
        0x05 => Some(ActKind::HostReturn),
        0x11 => Some(ActKind::Tagged(TaggedActKind::Serve)),
        0x12 => Some(ActKind::Tagged(TaggedActKind::Clean)),
        0x13 => Some(ActKind::Tagged(TaggedActKind::Start)),
        0x14 => Some(ActKind::Tagged(TaggedActKind::Evict)),
        0x15 => Some(ActKind::Snoop),
        0x16 => Some(ActKind::Line(LineActKind::Finish)),
        0x17 => Some(ActKind::DeviceReturn),
        _ => None,
    }
}

/// The kind of message of this number, if there is one.
#[inline(always)]
pub fn message_kind(code: u8) -> Option<MessageKind>
    ensures { result ≡ find (λ k. message_kind_code k == code) message_kinds }
{
    match code {
        MEM_RD => Some(MessageKind::Req(ReqOp::MemRd)),
        MEM_INV => Some(MessageKind::Req(ReqOp::MemInv)),
        MEM_CLN_EVCT => Some(MessageKind::Req(ReqOp::MemClnEvct)),
        MEM_WR => Some(MessageKind::MemWr),
        BI_CONFLICT => Some(MessageKind::BiConflict),
        BI_RSP_I => Some(MessageKind::BiRsp(RspOp::I)),
        BI_RSP_S => Some(MessageKind::BiRsp(RspOp::S)),
        BI_RSP_E => Some(MessageKind::BiRsp(RspOp::E)),
        BI_RSP_I_BLK => Some(MessageKind::BiRsp(RspOp::IBlk)),
        BI_RSP_S_BLK => Some(MessageKind::BiRsp(RspOp::SBlk)),
        BI_RSP_E_BLK => Some(MessageKind::BiRsp(RspOp::EBlk)),
        CMP => Some(MessageKind::Ndr(NdrOp::Cmp)),
        CMP_S => Some(MessageKind::Ndr(NdrOp::CmpS)),
        CMP_E => Some(MessageKind::Ndr(NdrOp::CmpE)),
        BI_CONFLICT_ACK => Some(MessageKind::Ndr(NdrOp::ConflictAck)),
        MEM_DATA => Some(MessageKind::MemData),
        BI_SNP_CUR => Some(MessageKind::BiSnp(SnpOp::Cur)),
        BI_SNP_DATA => Some(MessageKind::BiSnp(SnpOp::Dat)),
        BI_SNP_INV => Some(MessageKind::BiSnp(SnpOp::Inv)),
        BI_SNP_CUR_BLK => Some(MessageKind::BiSnp(SnpOp::CurBlk)),
        BI_SNP_DATA_BLK => Some(MessageKind::BiSnp(SnpOp::DatBlk)),
        BI_SNP_INV_BLK => Some(MessageKind::BiSnp(SnpOp::InvBlk)),
        CREDIT => Some(MessageKind::Credit),
        _ => None,
    }
}
