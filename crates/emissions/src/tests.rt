use super::*;
use cxl_message::{Bytes64, Commit, Line, Message, NdrOp, Op, Out, Sends, Tag};

const GRANT: Message = Message::Ndr {
    op: NdrOp::CmpE,
    tag: Tag(1),
};

const DATA: Message = Message::MemData {
    tag: Tag(1),
    bytes: Bytes64([0x5a; 64]),
};

const LOAD: Op = Op::Load { line: Line(3) };

#[test]
fn messages_are_sent_in_their_order(rt: HostRuntime) {
    assert_eq!(rt; Emitted::nothing().sends, Sends::Nothing);
    assert_eq!(rt;
        Emitted::one_send(2, GRANT).sends,
        Sends::One(Out {
            host: 2,
            message: GRANT
        })
    );
    assert_eq!(rt;
        Emitted::two_sends(2, GRANT, DATA).sends,
        Sends::Two(
            Out {
                host: 2,
                message: GRANT
            },
            Out {
                host: 2,
                message: DATA
            }
        )
    );
    assert_eq!(rt; Emitted::two_sends(2, GRANT, DATA).commit, None);
}

#[test]
fn a_commit_sends_nothing(rt: HostRuntime) {
    let value = Bytes64([7; 64]);
    let emitted = Emitted::one_commit(4, 9, LOAD, value);
    assert_eq!(rt; emitted.sends, Sends::Nothing);
    assert_eq!(rt;
        emitted.commit,
        Some(Commit {
            stream: 4,
            index: 9,
            op: LOAD,
            value
        })
    );
}
