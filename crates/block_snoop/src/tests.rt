use super::*;
use cxl_message::{Line, Listing, Span};
use snoop_filter::{Block, Filter};
use std::test::Fail;

fn block(first: u32, span: Span) -> Block {
    Block {
        first: Line(first),
        span,
    }
}

#[test]
fn a_block_begins_at_a_multiple_of_its_length(rt: HostRuntime) {
    assert_eq!(rt; span_of(Line(7), Span::One), Line(7));
    assert_eq!(rt; span_of(Line(7), Span::Two), Line(6));
    assert_eq!(rt; span_of(Line(7), Span::Four), Line(4));
    assert_eq!(rt; span_len(Span::Four), 4);
}

#[test]
fn hosts_are_asked_by_how_they_are_listed(rt: HostRuntime) -> Result<(), Fail> {
    let mut filter = Filter::open(rt.alloc(), 2, 3, 2)?;
    filter.hold(Line(0));
    filter.set(Line(0), 0, Listing::A);
    filter.hold(Line(1));
    filter.set(Line(1), 1, Listing::S);
    let first = Block {
        first: Line(0),
        span: Span::One,
    };
    let second = Block {
        first: Line(1),
        span: Span::One,
    };
    let both = Block {
        first: Line(0),
        span: Span::Two,
    };
    let asked = hosts_to_ask(&filter, first, Purpose::SharedFor(2));
    assert_eq!(rt; asked.as_slice(), [0].as_slice());
    let asked = hosts_to_ask(&filter, second, Purpose::SharedFor(2));
    assert!(rt; asked.is_empty());
    let asked = hosts_to_ask(&filter, second, Purpose::OwnedFor(2));
    assert_eq!(rt; asked.as_slice(), [1].as_slice());
    let asked = hosts_to_ask(&filter, both, Purpose::Evicting);
    assert_eq!(rt; asked.as_slice(), [0, 1].as_slice());
    assert!(rt; is_asked(&filter, second, Purpose::Evicting, 1));
    assert!(rt; !is_asked(&filter, second, Purpose::OwnedFor(1), 1));
    Ok(())
}

#[test]
fn each_line_is_answered_once(rt: HostRuntime) {
    let mut left = AnswersLeft::new(block(4, Span::Two));
    assert!(rt; !left.is_done());
    assert!(rt; left.answer_line(1));
    assert!(rt; !left.answer_line(1));
    assert!(rt; !left.answer_line(2));
    assert!(rt; !left.answer_all());
    assert!(rt; left.answer_line(0));
    assert!(rt; left.is_done());
}

#[test]
fn all_lines_are_answered_at_once(rt: HostRuntime) {
    let mut left = AnswersLeft::new(block(4, Span::Four));
    assert!(rt; left.answer_all());
    assert!(rt; left.is_done());
    assert!(rt; !left.answer_all());
}
