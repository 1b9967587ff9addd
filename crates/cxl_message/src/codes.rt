//! The number of each opcode and of each value of a field: those that traces write, and by which the model compares
//! messages. Each stands here alone; every number is this project's own and no bit pattern of the standard.
ghost use Rattle.std.specs.Prelude.{◌≡◌};
ghost use Rattle.cxl_message.specs.Codes.{channel_code, completion_code, meta_code, request_code, response_code, snoop_code, snoop_type_code, span_len};

use crate::channels::Channel;
use crate::opcodes::{Meta, NdrOp, ReqOp, RspOp, SnpOp, SnpType, Span};

/// MemRd.
pub const MEM_RD: u8 = 0x01;
/// MemInv.
pub const MEM_INV: u8 = 0x02;
/// MemClnEvct.
pub const MEM_CLN_EVCT: u8 = 0x03;
/// MemWr.
pub const MEM_WR: u8 = 0x11;
/// BIConflict.
pub const BI_CONFLICT: u8 = 0x12;
/// BIRspI.
pub const BI_RSP_I: u8 = 0x21;
/// BIRspS.
pub const BI_RSP_S: u8 = 0x22;
/// BIRspE.
pub const BI_RSP_E: u8 = 0x23;
/// BIRspIBlk.
pub const BI_RSP_I_BLK: u8 = 0x24;
/// BIRspSBlk.
pub const BI_RSP_S_BLK: u8 = 0x25;
/// BIRspEBlk.
pub const BI_RSP_E_BLK: u8 = 0x26;
/// Cmp.
pub const CMP: u8 = 0x31;
/// Cmp-S.
pub const CMP_S: u8 = 0x32;
/// Cmp-E.
pub const CMP_E: u8 = 0x33;
/// BI-ConflictAck.
pub const BI_CONFLICT_ACK: u8 = 0x34;
/// MemData.
pub const MEM_DATA: u8 = 0x41;
/// BISnpCur.
pub const BI_SNP_CUR: u8 = 0x51;
/// BISnpData.
pub const BI_SNP_DATA: u8 = 0x52;
/// BISnpInv.
pub const BI_SNP_INV: u8 = 0x53;
/// BISnpCurBlk.
pub const BI_SNP_CUR_BLK: u8 = 0x54;
/// BISnpDataBlk.
pub const BI_SNP_DATA_BLK: u8 = 0x55;
/// BISnpInvBlk.
pub const BI_SNP_INV_BLK: u8 = 0x56;
/// A Credit.
pub const CREDIT: u8 = 0x61;

impl ReqOp {
    /// The opcode's number.
    #[inline(always)]
    pub fn code(self) -> u8
        ensures { result ≡ request_code self }
    {
        match self {
            ReqOp::MemRd => MEM_RD,
            ReqOp::MemInv => MEM_INV,
            ReqOp::MemClnEvct => MEM_CLN_EVCT,
        }
    }
}

impl RspOp {
    /// The opcode's number.
    #[inline(always)]
    pub fn code(self) -> u8
        ensures { result ≡ response_code self }
    {
        match self {
            RspOp::I => BI_RSP_I,
            RspOp::S => BI_RSP_S,
            RspOp::E => BI_RSP_E,
            RspOp::IBlk => BI_RSP_I_BLK,
            RspOp::SBlk => BI_RSP_S_BLK,
            RspOp::EBlk => BI_RSP_E_BLK,
        }
    }
}

impl NdrOp {
    /// The opcode's number.
    #[inline(always)]
    pub fn code(self) -> u8
        ensures { result ≡ completion_code self }
    {
        match self {
            NdrOp::Cmp => CMP,
            NdrOp::CmpS => CMP_S,
            NdrOp::CmpE => CMP_E,
            NdrOp::ConflictAck => BI_CONFLICT_ACK,
        }
    }
}

impl SnpOp {
    /// The opcode's number.
    #[inline(always)]
    pub fn code(self) -> u8
        ensures { result ≡ snoop_code self }
    {
        match self {
            SnpOp::Cur => BI_SNP_CUR,
            SnpOp::Dat => BI_SNP_DATA,
            SnpOp::Inv => BI_SNP_INV,
            SnpOp::CurBlk => BI_SNP_CUR_BLK,
            SnpOp::DatBlk => BI_SNP_DATA_BLK,
            SnpOp::InvBlk => BI_SNP_INV_BLK,
        }
    }
}

impl Meta {
    /// The number of the Meta0-State value.
    #[inline(always)]
    pub fn code(self) -> u8
        ensures { result ≡ meta_code self }
    {
        match self {
            Meta::Invalid => 0,
            Meta::Any => 1,
            Meta::Shared => 2,
        }
    }
}

impl SnpType {
    /// The number of the snoop type.
    #[inline(always)]
    pub fn code(self) -> u8
        ensures { result ≡ snoop_type_code self }
    {
        match self {
            SnpType::NoOp => 0,
            SnpType::SnpData => 1,
            SnpType::SnpCur => 2,
            SnpType::SnpInv => 3,
        }
    }
}

impl Channel {
    /// The number of the channel, 1 to 8.
    #[inline(always)]
    pub fn code(self) -> u8
        ensures { result ≡ channel_code self }
    {
        match self {
            Channel::Req => 1,
            Channel::Rwd => 2,
            Channel::BiRsp => 3,
            Channel::Ndr => 4,
            Channel::Drs => 5,
            Channel::BiSnp => 6,
            Channel::CreditUp => 7,
            Channel::CreditDown => 8,
        }
    }
}

impl Span {
    /// How many lines the span has: 1, 2 or 4.
    #[inline(always)]
    pub fn lines(self) -> u8
        ensures { result ≡ span_len self }
    {
        match self {
            Span::One => 1,
            Span::Two => 2,
            Span::Four => 4,
        }
    }
}
