use super::*;
use cxl_message::{Bytes64, CopyState, Line};
use std::test::Fail;

#[test]
fn a_way_keeps_its_place_and_gives_its_bytes(rt: HostRuntime) -> Result<(), Fail> {
    let mut cache = HostCache::open(rt.alloc(), 2, 8)?;
    assert!(rt; !cache.full());
    assert!(rt; !cache.has_way(Line(5)));
    assert_eq!(rt; cache.copy(Line(5)), CopyState::I);
    cache.add(Line(5));
    assert!(rt; cache.has_way(Line(5)));
    assert_eq!(rt; cache.copy(Line(5)), CopyState::I);
    cache.put(Line(5), CopyState::E, &Bytes64([1; 64]));
    cache.add(Line(2));
    assert!(rt; cache.full());
    cache.put(Line(2), CopyState::S, &Bytes64([2; 64]));
    cache.put(Line(5), CopyState::M, &Bytes64([3; 64]));
    assert_eq!(rt; cache.way_at(0), Some(Line(5)));
    assert_eq!(rt; cache.way_at(1), Some(Line(2)));
    assert_eq!(rt; cache.way_at(2), None);
    assert_eq!(rt; cache.copy(Line(5)), CopyState::M);
    assert_eq!(rt; cache.bytes(Line(5)), Bytes64([3; 64]));
    assert_eq!(rt; cache.bytes(Line(2)), Bytes64([2; 64]));
    Ok(())
}

#[test]
fn a_copy_goes_and_its_way_stays_where_it_is_wanted(rt: HostRuntime) -> Result<(), Fail> {
    let mut cache = HostCache::open(rt.alloc(), 2, 8)?;
    cache.add(Line(5));
    cache.add(Line(2));
    cache.put(Line(5), CopyState::S, &Bytes64([1; 64]));
    cache.put(Line(2), CopyState::M, &Bytes64([2; 64]));
    cache.drop_copy(Line(5), true);
    assert_eq!(rt; cache.copy(Line(5)), CopyState::I);
    assert_eq!(rt; cache.bytes(Line(5)), Bytes64([0; 64]));
    assert_eq!(rt; cache.way_at(0), Some(Line(5)));
    cache.drop_copy(Line(5), false);
    assert!(rt; !cache.has_way(Line(5)));
    assert_eq!(rt; cache.way_at(0), Some(Line(2)));
    assert_eq!(rt; cache.bytes(Line(2)), Bytes64([2; 64]));
    assert!(rt; !cache.full());
    Ok(())
}

#[test]
fn the_oldest_way_whose_line_is_not_busy_is_found(rt: HostRuntime) -> Result<(), Fail> {
    let mut cache = HostCache::open(rt.alloc(), 3, 8)?;
    let mut busy = BusyLines::open(rt.alloc(), 8)?;
    assert_eq!(rt; cache.oldest_idle(&busy), None);
    cache.add(Line(5));
    cache.add(Line(2));
    assert_eq!(rt; cache.oldest_idle(&busy), Some(Line(5)));
    busy.mark(Line(5), true);
    assert!(rt; busy.has(Line(5)));
    assert!(rt; busy.any());
    assert_eq!(rt; cache.oldest_idle(&busy), Some(Line(2)));
    busy.mark(Line(2), true);
    assert_eq!(rt; cache.oldest_idle(&busy), None);
    busy.mark(Line(5), false);
    busy.mark(Line(2), false);
    assert!(rt; !busy.any());
    assert!(rt; !busy.has(Line(9)));
    Ok(())
}
