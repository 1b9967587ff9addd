// The names of fields as they stand in the lines of rows.
use cxl_message::{Channel, Meta, NdrOp, ReqOp, RspOp, SnpOp, SnpType};

pub fn req_name(op: ReqOp) -> &'static str {
    match op {
        ReqOp::MemRd => "MemRd",
        ReqOp::MemInv => "MemInv",
        ReqOp::MemClnEvct => "MemClnEvct",
    }
}

pub fn meta_name(meta: Meta) -> &'static str {
    match meta {
        Meta::Invalid => "Invalid",
        Meta::Any => "Any",
        Meta::Shared => "Shared",
    }
}

pub fn snp_name(snp: SnpType) -> &'static str {
    match snp {
        SnpType::NoOp => "No-Op",
        SnpType::SnpData => "SnpData",
        SnpType::SnpCur => "SnpCur",
        SnpType::SnpInv => "SnpInv",
    }
}

pub fn rsp_name(op: RspOp) -> &'static str {
    match op {
        RspOp::I => "BIRspI",
        RspOp::S => "BIRspS",
        RspOp::E => "BIRspE",
        RspOp::IBlk => "BIRspIBlk",
        RspOp::SBlk => "BIRspSBlk",
        RspOp::EBlk => "BIRspEBlk",
    }
}

pub fn ndr_name(op: NdrOp) -> &'static str {
    match op {
        NdrOp::Cmp => "Cmp",
        NdrOp::CmpS => "Cmp-S",
        NdrOp::CmpE => "Cmp-E",
        NdrOp::ConflictAck => "BI-ConflictAck",
    }
}

pub fn snoop_name(op: SnpOp) -> &'static str {
    match op {
        SnpOp::Cur => "BISnpCur",
        SnpOp::Dat => "BISnpData",
        SnpOp::Inv => "BISnpInv",
        SnpOp::CurBlk => "BISnpCurBlk",
        SnpOp::DatBlk => "BISnpDataBlk",
        SnpOp::InvBlk => "BISnpInvBlk",
    }
}

pub fn channel_name(channel: Channel) -> &'static str {
    match channel {
        Channel::Req => "Req",
        Channel::Rwd => "RwD",
        Channel::BiRsp => "BIRsp",
        Channel::Ndr => "NDR",
        Channel::Drs => "DRS",
        Channel::BiSnp => "BISnp",
        Channel::CreditUp => "CreditUp",
        Channel::CreditDown => "CreditDown",
    }
}
