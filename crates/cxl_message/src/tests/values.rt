// What is asked of operations, acts and messages, and their equality.
use crate::codes::{BI_RSP_S_BLK, CMP_E};
use crate::*;

const LINE: Line = Line(7);

const TAG: Tag = Tag(70000);

const OLD: Bytes64 = Bytes64([1; 64]);

const NEW: Bytes64 = Bytes64([2; 64]);

const LOAD: Op = Op::Load { line: LINE };

const WORD: Op = Op::Word {
    line: LINE,
    place: 7,
    value: 0x0102_0304_0506_0708,
};

const WHOLE: Op = Op::Whole {
    line: LINE,
    bytes: NEW,
};

#[test]
fn operations_are_asked(rt: HostRuntime) {
    for (op, is_load, is_whole) in [
        (LOAD, true, false),
        (WORD, false, false),
        (WHOLE, false, true),
    ] {
        assert_eq!(rt; op.line(), LINE, "at {op:?}");
        assert_eq!(rt; op.is_load(), is_load, "at {op:?}");
        assert_eq!(rt; op.is_whole(), is_whole, "at {op:?}");
        assert!(rt; op.place_exists(), "at {op:?}");
    }
    let ninth = Op::Word {
        line: LINE,
        place: PLACES,
        value: 0,
    };
    assert!(rt; !ninth.place_exists());
}

#[test]
fn stores_change_the_bytes_of_their_line(rt: HostRuntime) {
    assert_eq!(rt; LOAD.line_after(&OLD), OLD);
    assert_eq!(rt; WHOLE.line_after(&OLD), NEW);
    let Bytes64(bytes) = WORD.line_after(&OLD);
    assert_eq!(rt; bytes.get(..56), OLD.0.get(..56));
    assert_eq!(rt; bytes.get(56..), Some([1, 2, 3, 4, 5, 6, 7, 8].as_slice()));
}

#[test]
fn messages_and_acts_give_their_tags_and_lines(rt: HostRuntime) {
    let request = Message::Req {
        op: ReqOp::MemInv,
        meta: Meta::Any,
        snp: SnpType::SnpInv,
        tag: TAG,
        line: LINE,
    };
    let conflict = Message::BiConflict { tag: TAG };
    let credit = Message::Credit {
        channel: Channel::Req,
    };
    for (message, tag, line) in [
        (request, Some(TAG), Some(LINE)),
        (conflict, Some(TAG), None),
        (credit, None, None),
    ] {
        assert_eq!(rt; message.tag(), tag, "at {message:?}");
        assert_eq!(rt; message.has_tag(TAG), tag.is_some(), "at {message:?}");
        assert_eq!(rt; message.line(), line, "at {message:?}");
    }
    let serve = Act::Serve { host: 0, tag: TAG };
    assert_eq!(rt; serve.tag(), Some(TAG));
    assert_eq!(rt; Act::Finish(LINE).tag(), None);
    assert_eq!(rt; NdrOp::CmpE.code(), CMP_E);
    assert_eq!(rt; RspOp::SBlk.code(), BI_RSP_S_BLK);
    assert_eq!(rt; Span::Four.lines(), 4);
}

#[test]
fn equality_looks_at_each_part(rt: HostRuntime) {
    let conflict = Message::BiConflict { tag: TAG };
    let other = Message::BiConflict { tag: Tag(4464) };
    assert!(rt; same_message(&conflict, &conflict));
    assert!(rt; !same_message(&conflict, &other));
    let sent = Out {
        host: 1,
        message: conflict,
    };
    assert!(rt; same_out(&sent, &sent));
    assert!(rt; !same_out(&sent, &Out { host: 2, ..sent }));
    assert!(rt; same_op(&WORD, &WORD));
    assert!(rt; !same_op(&WORD, &LOAD));
    let commit = Commit {
        stream: 0,
        index: 0,
        op: LOAD,
        value: OLD,
    };
    let changed = Commit {
        value: NEW,
        ..commit
    };
    assert!(rt; same_commit(&commit, &commit));
    assert!(rt; !same_commit(&commit, &changed));
    assert!(rt; same_commits(&None, &None));
    assert!(rt; !same_commits(&Some(commit), &None));
    assert!(rt; same_act(&Act::Finish(LINE), &Act::Finish(LINE)));
    let taken = Cause::Take {
        host: 1,
        message: conflict,
    };
    assert!(rt; same_cause(&taken, &taken));
}
