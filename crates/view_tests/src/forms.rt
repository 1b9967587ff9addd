// Every form of message, act and operation, one line each.
use crate::texts::{AB_DIGITS, ZERO_DIGITS, ZEROS, joined, quiet};
use cxl_message::{
    Act, BiTag, Bytes64, Cause, Channel, Commit, Line, Message, Meta, NdrOp, Op, Out, ReqOp, RspOp,
    Sends, SnpOp, SnpType, Span, Tag,
};
use cxl_view::render_event;
use std::test::Fail;

#[test]
fn messages_are_shown(rt: HostRuntime) -> Result<(), Fail> {
    let mut text = Vec::new(rt.alloc());
    for (message, wanted) in [
        (
            Message::Req {
                op: ReqOp::MemRd,
                meta: Meta::Any,
                snp: SnpType::SnpInv,
                tag: Tag(1),
                line: Line(65535),
            },
            b"7 h3 take h2 MemRd Any SnpInv tag=1 line=65535\n".as_slice(),
        ),
        (
            Message::Req {
                op: ReqOp::MemInv,
                meta: Meta::Shared,
                snp: SnpType::SnpCur,
                tag: Tag(4294967295),
                line: Line(4294967295),
            },
            b"7 h3 take h2 MemInv Shared SnpCur tag=4294967295 line=4294967295\n".as_slice(),
        ),
        (
            Message::Req {
                op: ReqOp::MemClnEvct,
                meta: Meta::Invalid,
                snp: SnpType::NoOp,
                tag: Tag(0),
                line: Line(10),
            },
            b"7 h3 take h2 MemClnEvct Invalid No-Op tag=0 line=10\n".as_slice(),
        ),
        (
            Message::BiConflict { tag: Tag(9) },
            b"7 h3 take h2 BIConflict tag=9\n".as_slice(),
        ),
        (
            Message::BiRsp {
                op: RspOp::I,
                bitag: BiTag(12),
                low: 3,
            },
            b"7 h3 take h2 BIRspI bitag=12 low=3\n".as_slice(),
        ),
        (
            Message::BiRsp {
                op: RspOp::S,
                bitag: BiTag(12),
                low: 3,
            },
            b"7 h3 take h2 BIRspS bitag=12 low=3\n".as_slice(),
        ),
        (
            Message::BiRsp {
                op: RspOp::E,
                bitag: BiTag(12),
                low: 3,
            },
            b"7 h3 take h2 BIRspE bitag=12 low=3\n".as_slice(),
        ),
        (
            Message::BiRsp {
                op: RspOp::IBlk,
                bitag: BiTag(12),
                low: 3,
            },
            b"7 h3 take h2 BIRspIBlk bitag=12 low=3\n".as_slice(),
        ),
        (
            Message::BiRsp {
                op: RspOp::SBlk,
                bitag: BiTag(12),
                low: 3,
            },
            b"7 h3 take h2 BIRspSBlk bitag=12 low=3\n".as_slice(),
        ),
        (
            Message::BiRsp {
                op: RspOp::EBlk,
                bitag: BiTag(12),
                low: 3,
            },
            b"7 h3 take h2 BIRspEBlk bitag=12 low=3\n".as_slice(),
        ),
        (
            Message::Ndr {
                op: NdrOp::Cmp,
                tag: Tag(2),
            },
            b"7 h3 take h2 Cmp tag=2\n".as_slice(),
        ),
        (
            Message::Ndr {
                op: NdrOp::CmpS,
                tag: Tag(2),
            },
            b"7 h3 take h2 Cmp-S tag=2\n".as_slice(),
        ),
        (
            Message::Ndr {
                op: NdrOp::CmpE,
                tag: Tag(2),
            },
            b"7 h3 take h2 Cmp-E tag=2\n".as_slice(),
        ),
        (
            Message::Ndr {
                op: NdrOp::ConflictAck,
                tag: Tag(2),
            },
            b"7 h3 take h2 BI-ConflictAck tag=2\n".as_slice(),
        ),
        (
            Message::BiSnp {
                op: SnpOp::Cur,
                bitag: BiTag(8),
                line: Line(8),
                span: Span::One,
            },
            b"7 h3 take h2 BISnpCur bitag=8 line=8\n".as_slice(),
        ),
        (
            Message::BiSnp {
                op: SnpOp::Dat,
                bitag: BiTag(8),
                line: Line(8),
                span: Span::One,
            },
            b"7 h3 take h2 BISnpData bitag=8 line=8\n".as_slice(),
        ),
        (
            Message::BiSnp {
                op: SnpOp::Inv,
                bitag: BiTag(8),
                line: Line(8),
                span: Span::One,
            },
            b"7 h3 take h2 BISnpInv bitag=8 line=8\n".as_slice(),
        ),
        (
            Message::BiSnp {
                op: SnpOp::CurBlk,
                bitag: BiTag(8),
                line: Line(8),
                span: Span::Two,
            },
            b"7 h3 take h2 BISnpCurBlk bitag=8 line=8 span=2\n".as_slice(),
        ),
        (
            Message::BiSnp {
                op: SnpOp::DatBlk,
                bitag: BiTag(8),
                line: Line(8),
                span: Span::Four,
            },
            b"7 h3 take h2 BISnpDataBlk bitag=8 line=8 span=4\n".as_slice(),
        ),
        (
            Message::BiSnp {
                op: SnpOp::InvBlk,
                bitag: BiTag(8),
                line: Line(8),
                span: Span::Four,
            },
            b"7 h3 take h2 BISnpInvBlk bitag=8 line=8 span=4\n".as_slice(),
        ),
        (
            Message::Credit {
                channel: Channel::Req,
            },
            b"7 h3 take h2 Credit Req\n".as_slice(),
        ),
        (
            Message::Credit {
                channel: Channel::Rwd,
            },
            b"7 h3 take h2 Credit RwD\n".as_slice(),
        ),
        (
            Message::Credit {
                channel: Channel::BiRsp,
            },
            b"7 h3 take h2 Credit BIRsp\n".as_slice(),
        ),
        (
            Message::Credit {
                channel: Channel::Ndr,
            },
            b"7 h3 take h2 Credit NDR\n".as_slice(),
        ),
        (
            Message::Credit {
                channel: Channel::Drs,
            },
            b"7 h3 take h2 Credit DRS\n".as_slice(),
        ),
        (
            Message::Credit {
                channel: Channel::BiSnp,
            },
            b"7 h3 take h2 Credit BISnp\n".as_slice(),
        ),
    ] {
        let event = quiet(3, Cause::Take { host: 2, message });
        text.clear();
        render_event(7, &event, &mut text)?;
        assert!(rt; text.as_slice() == wanted);
    }
    Ok(())
}

#[test]
fn acts_are_shown(rt: HostRuntime) -> Result<(), Fail> {
    let mut text = Vec::new(rt.alloc());
    for (act, wanted) in [
        (
            Act::Conflict(Line(5)),
            b"18446744073709551615 dev act Conflict line=5\n".as_slice(),
        ),
        (
            Act::WriteBack(Line(5)),
            b"18446744073709551615 dev act WriteBack line=5\n".as_slice(),
        ),
        (
            Act::Answer(Line(5)),
            b"18446744073709551615 dev act Answer line=5\n".as_slice(),
        ),
        (
            Act::AnswerBlock(Line(4)),
            b"18446744073709551615 dev act AnswerBlock line=4\n".as_slice(),
        ),
        (
            Act::HostReturn(Channel::Ndr),
            b"18446744073709551615 dev act Return NDR\n".as_slice(),
        ),
        (
            Act::Serve {
                host: 1,
                tag: Tag(2),
            },
            b"18446744073709551615 dev act Serve h1 tag=2\n".as_slice(),
        ),
        (
            Act::Clean {
                host: 1,
                tag: Tag(2),
            },
            b"18446744073709551615 dev act Clean h1 tag=2\n".as_slice(),
        ),
        (
            Act::Start {
                host: 15,
                tag: Tag(1024),
            },
            b"18446744073709551615 dev act Start h15 tag=1024\n".as_slice(),
        ),
        (
            Act::Evict {
                host: 1,
                tag: Tag(2),
            },
            b"18446744073709551615 dev act Evict h1 tag=2\n".as_slice(),
        ),
        (
            Act::Snoop {
                host: 1,
                line: Line(6),
            },
            b"18446744073709551615 dev act Snoop h1 line=6\n".as_slice(),
        ),
        (
            Act::Finish(Line(5)),
            b"18446744073709551615 dev act Finish line=5\n".as_slice(),
        ),
        (
            Act::DeviceReturn {
                host: 1,
                channel: Channel::Rwd,
            },
            b"18446744073709551615 dev act Return h1 RwD\n".as_slice(),
        ),
    ] {
        let event = quiet(16, Cause::Act(act));
        text.clear();
        render_event(u64::MAX, &event, &mut text)?;
        assert!(rt; text.as_slice() == wanted);
    }
    Ok(())
}

#[test]
fn stores_and_their_commits_are_shown(rt: HostRuntime) -> Result<(), Fail> {
    let word = Op::Word {
        line: Line(5),
        place: 7,
        value: 0x0123_4567_89ab_cdef,
    };
    let whole = Op::Whole {
        line: Line(6),
        bytes: Bytes64([0xab; 64]),
    };
    let write = Message::MemWr {
        meta: Meta::Invalid,
        snp: SnpType::NoOp,
        tag: Tag(2),
        line: Line(5),
        bytes: ZEROS,
    };
    let mut event = quiet(
        15,
        Cause::Op {
            stream: 63,
            index: 12,
            op: word,
        },
    );
    event.sends = Sends::One(Out {
        host: 15,
        message: write,
    });
    event.commit = Some(Commit {
        stream: 1,
        index: 2,
        op: whole,
        value: ZEROS,
    });
    let mut text = Vec::new(rt.alloc());
    render_event(10, &event, &mut text)?;
    let wanted = joined(
        rt.alloc(),
        &[
            b"10 h15 word s63.12 line=5 place=7 value=0123456789abcdef > h15 MemWr Invalid No-Op tag=2 line=5 bytes=",
            ZERO_DIGITS,
            b" = whole s1.2 line=6 bytes=",
            AB_DIGITS,
            b" gives ",
            ZERO_DIGITS,
            b"\n",
        ],
    )?;
    assert!(rt; text.as_slice() == wanted.as_slice());
    Ok(())
}
