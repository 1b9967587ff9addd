// Which messages are in the profile: each row of the table, and what differs from a row in one field.
use crate::*;

// Requests: opcode, Meta0-State and snoop type.
const REQUESTS: [(ReqOp, Meta, SnpType, bool); 27] = [
    (ReqOp::MemRd, Meta::Shared, SnpType::SnpData, true),
    (ReqOp::MemInv, Meta::Shared, SnpType::SnpData, false),
    (ReqOp::MemClnEvct, Meta::Shared, SnpType::SnpData, false),
    (ReqOp::MemRd, Meta::Invalid, SnpType::SnpData, false),
    (ReqOp::MemRd, Meta::Any, SnpType::SnpData, false),
    (ReqOp::MemRd, Meta::Shared, SnpType::NoOp, false),
    (ReqOp::MemRd, Meta::Shared, SnpType::SnpCur, false),
    (ReqOp::MemRd, Meta::Shared, SnpType::SnpInv, false),
    (ReqOp::MemRd, Meta::Any, SnpType::SnpInv, true),
    (ReqOp::MemClnEvct, Meta::Any, SnpType::SnpInv, false),
    (ReqOp::MemRd, Meta::Invalid, SnpType::SnpInv, false),
    (ReqOp::MemRd, Meta::Any, SnpType::NoOp, false),
    (ReqOp::MemRd, Meta::Any, SnpType::SnpCur, false),
    (ReqOp::MemInv, Meta::Any, SnpType::SnpInv, true),
    (ReqOp::MemInv, Meta::Invalid, SnpType::SnpInv, false),
    (ReqOp::MemInv, Meta::Shared, SnpType::SnpInv, false),
    (ReqOp::MemInv, Meta::Any, SnpType::NoOp, false),
    (ReqOp::MemInv, Meta::Any, SnpType::SnpData, false),
    (ReqOp::MemInv, Meta::Any, SnpType::SnpCur, false),
    (ReqOp::MemClnEvct, Meta::Invalid, SnpType::NoOp, true),
    (ReqOp::MemRd, Meta::Invalid, SnpType::NoOp, false),
    (ReqOp::MemInv, Meta::Invalid, SnpType::NoOp, false),
    (ReqOp::MemClnEvct, Meta::Any, SnpType::NoOp, false),
    (ReqOp::MemClnEvct, Meta::Shared, SnpType::NoOp, false),
    (ReqOp::MemClnEvct, Meta::Invalid, SnpType::SnpData, false),
    (ReqOp::MemClnEvct, Meta::Invalid, SnpType::SnpCur, false),
    (ReqOp::MemClnEvct, Meta::Invalid, SnpType::SnpInv, false),
];

// Writes: Meta0-State and snoop type.
const WRITES: [(Meta, SnpType, bool); 9] = [
    (Meta::Invalid, SnpType::NoOp, true),
    (Meta::Shared, SnpType::NoOp, true),
    (Meta::Any, SnpType::NoOp, false),
    (Meta::Invalid, SnpType::SnpData, false),
    (Meta::Invalid, SnpType::SnpCur, false),
    (Meta::Invalid, SnpType::SnpInv, false),
    (Meta::Shared, SnpType::SnpData, false),
    (Meta::Shared, SnpType::SnpCur, false),
    (Meta::Shared, SnpType::SnpInv, false),
];

// Answers to snoops: opcode and `low`.
const ANSWERS: [(RspOp, u8, bool); 11] = [
    (RspOp::I, 0, true),
    (RspOp::I, 3, true),
    (RspOp::I, 4, false),
    (RspOp::S, 0, true),
    (RspOp::S, 3, true),
    (RspOp::S, 4, false),
    (RspOp::IBlk, 0, true),
    (RspOp::IBlk, 1, false),
    (RspOp::E, 0, false),
    (RspOp::SBlk, 0, false),
    (RspOp::EBlk, 0, false),
];

// Snoops: opcode, span and BITag, for line 4.
const SNOOPS: [(SnpOp, Span, u16, bool); 18] = [
    (SnpOp::Dat, Span::One, 4, true),
    (SnpOp::Dat, Span::One, 5, false),
    (SnpOp::Dat, Span::Two, 4, false),
    (SnpOp::Dat, Span::Four, 4, false),
    (SnpOp::Inv, Span::One, 4, true),
    (SnpOp::Inv, Span::One, 0, false),
    (SnpOp::Inv, Span::Two, 4, false),
    (SnpOp::Inv, Span::Four, 4, false),
    (SnpOp::InvBlk, Span::Two, 4, true),
    (SnpOp::InvBlk, Span::Two, 6, false),
    (SnpOp::InvBlk, Span::Four, 4, true),
    (SnpOp::InvBlk, Span::Four, 3, false),
    (SnpOp::InvBlk, Span::One, 4, false),
    (SnpOp::Cur, Span::One, 4, false),
    (SnpOp::CurBlk, Span::Two, 4, false),
    (SnpOp::CurBlk, Span::Four, 4, false),
    (SnpOp::DatBlk, Span::Two, 4, false),
    (SnpOp::DatBlk, Span::Four, 4, false),
];

// Channels for which a Credit may be.
const CREDITS: [(Channel, bool); 8] = [
    (Channel::Req, true),
    (Channel::Rwd, true),
    (Channel::BiRsp, true),
    (Channel::Ndr, true),
    (Channel::Drs, true),
    (Channel::BiSnp, true),
    (Channel::CreditUp, false),
    (Channel::CreditDown, false),
];

const BYTES: Bytes64 = Bytes64([9; 64]);

// Whether a message is in the profile exactly where the table says so.
fn agrees(message: Message, is_in: bool) -> bool {
    in_profile(&message) == is_in
}

#[test]
fn each_row_of_the_profile_and_its_neighbours(rt: HostRuntime) {
    let (tag, line, bytes) = (Tag(1), Line(4), BYTES);
    for (op, meta, snp, is_in) in REQUESTS {
        let request = Message::Req {
            op,
            meta,
            snp,
            tag,
            line,
        };
        assert!(rt; agrees(request, is_in), "at {request:?}");
    }
    for (meta, snp, is_in) in WRITES {
        let write = Message::MemWr {
            meta,
            snp,
            tag,
            line,
            bytes,
        };
        assert!(rt; agrees(write, is_in), "at {write:?}");
    }
    for op in [NdrOp::Cmp, NdrOp::CmpS, NdrOp::CmpE, NdrOp::ConflictAck] {
        assert!(rt; agrees(Message::Ndr { op, tag }, true), "at {op:?}");
    }
    assert!(rt; agrees(Message::BiConflict { tag }, true));
    assert!(rt; agrees(Message::MemData { tag, bytes }, true));
}

#[test]
fn each_snoop_answer_and_credit_of_the_profile_and_its_neighbours(rt: HostRuntime) {
    let line = Line(4);
    for (op, low, is_in) in ANSWERS {
        let bitag = BiTag(4);
        let answer = Message::BiRsp { op, bitag, low };
        assert!(rt; agrees(answer, is_in), "at {answer:?}");
    }
    for (op, span, bitag, is_in) in SNOOPS {
        let bitag = BiTag(bitag);
        let snoop = Message::BiSnp {
            op,
            bitag,
            line,
            span,
        };
        assert!(rt; agrees(snoop, is_in), "at {snoop:?}");
    }
    for (channel, is_in) in CREDITS {
        assert!(rt;
            agrees(Message::Credit { channel }, is_in),
            "at {channel:?}"
        );
    }
}
