use super::*;
use cxl_message::{Bytes64, Line, Meta, NdrOp, Op, ReqOp, Tag};

/// A read of line 3 for a Word at place 1, with Tag 7.
fn open_word() -> Open {
    let op = Op::Word {
        line: Line(3),
        place: 1,
        value: 0x0102_0304_0506_0708,
    };
    Open::new(OpenKind::ReadAny, Tag(7), 2, 9, &op)
}

#[test]
fn a_conflict_ends_late_once_the_grant_came(rt: HostRuntime) {
    let open = open_word();
    assert!(rt; Open::end_of_conflict(Some(open)).is_early());
    assert!(rt; Open::end_of_conflict(Some(open.granted(NdrOp::CmpE))).is_new_or_late());
    assert!(rt; Open::end_of_conflict(None).is_new_or_late());
    assert!(rt; LineStage::NEW.is_new());
    assert!(rt; !LineStage::NEW.is_early_or_written());
    assert_eq!(rt; LineStage::NEW.weight(), 20);
}

#[test]
fn kinds_tell_what_answers_them(rt: HostRuntime) {
    let shared = OpenKind::of_request(ReqOp::MemRd, Meta::Shared);
    assert!(rt; shared.may_be_granted(NdrOp::CmpS));
    assert!(rt; shared.is_read() && shared.is_request() && shared.may_conflict());
    let clean = OpenKind::of_request(ReqOp::MemClnEvct, Meta::Invalid);
    assert!(rt; !clean.may_be_granted(NdrOp::CmpE) && !clean.is_request());
    assert!(rt; !OpenKind::DirtyEviction.may_conflict());
}

#[test]
fn a_word_is_stored_at_its_place(rt: HostRuntime) {
    let data = Bytes64([0xff; 64]);
    let open = open_word().with_data(&data);
    assert!(rt; open.bytes.is_some());
    let line = open.line_after(&data);
    assert!(rt; line.0.get(8..16) == Some([1, 2, 3, 4, 5, 6, 7, 8].as_slice()));
    assert_eq!(rt; line.0[16], 0xff);
}
