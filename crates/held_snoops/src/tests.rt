use super::*;
use cxl_message::{BiTag, Line, SnpOp, Span};
use std::test::Fail;

#[test]
fn a_block_is_answered_line_by_line(rt: HostRuntime) -> Result<(), Fail> {
    let mut held = HeldSnoops::open(rt.alloc(), 2)?;
    assert!(rt; held.is_empty());
    assert!(rt; held.has_none(Line(4), Span::Four));
    held.take(SnpOp::InvBlk, Line(4), Span::Four);
    assert!(rt; held.has(Line(7)));
    assert!(rt; !held.has(Line(8)));
    assert!(rt; !held.has_none(Line(6), Span::Two));
    assert!(rt; held.whole_block(Line(4)).is_some());
    held.answer_line(Line(5));
    assert!(rt; held.whole_block(Line(4)).is_none());
    assert!(rt; !held.has(Line(5)));
    held.answer_line(Line(4));
    held.answer_line(Line(7));
    assert_eq!(rt; held.len(), 1);
    held.answer_line(Line(6));
    assert_eq!(rt; held.len(), 0);
    Ok(())
}

#[test]
fn a_block_is_answered_at_once(rt: HostRuntime) -> Result<(), Fail> {
    let mut held = HeldSnoops::open(rt.alloc(), 2)?;
    held.take(SnpOp::InvBlk, Line(2), Span::Two);
    held.answer_block(Line(0));
    assert_eq!(rt; held.len(), 1);
    held.answer_block(Line(2));
    assert!(rt; held.is_empty());
    assert!(rt; !held.has(Line(3)));
    Ok(())
}

#[test]
fn a_snoop_tells_its_lines(rt: HostRuntime) -> Result<(), Fail> {
    let mut held = HeldSnoops::open(rt.alloc(), 2)?;
    held.take(SnpOp::Dat, Line(0), Span::One);
    held.take(SnpOp::InvBlk, Line(8), Span::Four);
    assert_eq!(rt; held.snoops().len(), 2);
    held.answer_line(Line(9));
    let snoop = held.of_line(Line(10)).expect(&rt, "a snoop");
    assert!(rt; matches!(snoop.op(), SnpOp::InvBlk));
    assert_eq!(rt; snoop.first(), Line(8));
    assert_eq!(rt; snoop.bitag(), BiTag(8));
    assert!(rt; matches!(snoop.span(), Span::Four));
    assert_eq!(rt; snoop.low(Line(10)), 2);
    assert_eq!(rt; snoop.left(), 3);
    assert!(rt; snoop.has(Line(11)));
    assert!(rt; !snoop.has(Line(9)));
    assert_eq!(rt; snoop.lines().as_slice(), [8, 10, 11].as_slice());
    assert!(rt; !snoop.has_no_other(Line(8)));
    Ok(())
}

#[test]
fn a_new_snoop_has_all_lines_of_its_span(rt: HostRuntime) {
    let snoop = HeldSnoop::new(SnpOp::InvBlk, Line(6), Span::Two);
    assert!(rt; snoop.is_whole_at(Line(6)));
    assert!(rt; !snoop.is_whole_at(Line(7)));
    assert_eq!(rt; snoop.lines().as_slice(), [6, 7].as_slice());
}
