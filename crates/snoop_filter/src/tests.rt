use super::*;
use cxl_message::{Line, Listing, Span};
use std::test::Fail;

#[test]
fn a_new_filter_has_no_rows(rt: HostRuntime) -> Result<(), Fail> {
    let filter = Filter::open(rt.alloc(), 4, 2, 8)?;
    assert_eq!(rt; filter.hosts(), 2);
    assert_eq!(rt; filter.free_entries(), 4);
    assert_eq!(rt; filter.listed(Line(7), 1), Listing::I);
    assert!(rt; !filter.has_row(Line(0)));
    assert!(rt; !filter.held(Line(0)));
    assert_eq!(rt; filter.victim(), None);
    Ok(())
}

#[test]
fn a_row_stands_while_it_is_held_or_lists_a_host(rt: HostRuntime) -> Result<(), Fail> {
    let mut filter = Filter::open(rt.alloc(), 1, 2, 8)?;
    filter.hold(Line(3));
    assert!(rt; filter.held(Line(3)));
    assert_eq!(rt; filter.free_entries(), 0);
    filter.set(Line(3), 1, Listing::S);
    filter.let_go(Line(3));
    assert!(rt; !filter.held(Line(3)));
    assert_eq!(rt; filter.listed(Line(3), 0), Listing::I);
    assert_eq!(rt; filter.listed(Line(3), 1), Listing::S);
    filter.set(Line(3), 1, Listing::I);
    assert!(rt; !filter.has_row(Line(3)));
    assert_eq!(rt; filter.free_entries(), 1);
    Ok(())
}

#[test]
fn a_reservation_takes_an_entry(rt: HostRuntime) -> Result<(), Fail> {
    let mut filter = Filter::open(rt.alloc(), 2, 1, 2)?;
    filter.reserve();
    assert_eq!(rt; filter.free_entries(), 1);
    filter.hold(Line(0));
    assert_eq!(rt; filter.free_entries(), 0);
    filter.release();
    assert_eq!(rt; filter.free_entries(), 1);
    Ok(())
}

fn block(first: u32, span: Span) -> Option<Block> {
    Some(Block {
        first: Line(first),
        span,
    })
}

#[test]
fn the_victim_is_the_largest_block_around_the_oldest_free_row(rt: HostRuntime) -> Result<(), Fail> {
    let mut filter = Filter::open(rt.alloc(), 4, 1, 8)?;
    filter.hold(Line(6));
    filter.hold(Line(1));
    assert_eq!(rt; filter.victim(), None);
    filter.set(Line(1), 0, Listing::A);
    filter.let_go(Line(1));
    assert_eq!(rt; filter.victim(), block(1, Span::One));
    filter.hold(Line(0));
    filter.set(Line(0), 0, Listing::S);
    assert_eq!(rt; filter.victim(), block(1, Span::One));
    filter.let_go(Line(0));
    assert_eq!(rt; filter.victim(), block(0, Span::Two));
    Ok(())
}
