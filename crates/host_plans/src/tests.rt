use super::*;
use cxl_message::{Bytes64, CopyState, Line, Op, Setup, Tag};
use host_cache::{BusyLines, HostCache};
use line_states::{Open, OpenKind};
use std::test::Fail;

/// An eviction that is open with a Tag.
fn eviction(tag: u32) -> Option<Open> {
    let op = Op::Load { line: Line(3) };
    Some(Open::new(OpenKind::CleanEviction, Tag(tag), 0, 0, &op))
}

#[test]
fn an_operation_hits_or_takes_a_way_and_the_lowest_tags(rt: HostRuntime) -> Result<(), Fail> {
    let setup = Setup::new(1, 4, 4, 1, 2, 2, &[0]).expect(&rt, "a setup");
    let mut cache = HostCache::open(rt.alloc(), 1, 4)?;
    let mut busy = BusyLines::open(rt.alloc(), 4)?;
    let free = [None, None];
    let quiet = [false, false];
    let load = Op::Load { line: Line(1) };
    let requested = plan(&setup, &cache, &busy, &free, &quiet, &load);
    assert!(rt; requested == Ok(Plan::Request { tag: Tag(0) }));
    let held = plan(&setup, &cache, &busy, &[eviction(0), None], &quiet, &load);
    assert!(rt; held == Ok(Plan::Request { tag: Tag(1) }));
    cache.add(Line(0));
    cache.put(Line(0), CopyState::S, &Bytes64([7; 64]));
    let victim = Line(0);
    let dropped = plan(&setup, &cache, &busy, &free, &quiet, &load);
    assert!(rt;
        dropped
            == Ok(Plan::Drop {
                victim,
                tag: Tag(0)
            })
    );
    cache.put(Line(0), CopyState::M, &Bytes64([7; 64]));
    let replaced = plan(&setup, &cache, &busy, &free, &quiet, &load);
    let both = Plan::Replace {
        victim,
        lower: Tag(0),
        tag: Tag(1),
    };
    assert!(rt; replaced == Ok(both));
    let hit = Op::Word {
        line: Line(0),
        place: 0,
        value: 1,
    };
    assert!(rt; plan(&setup, &cache, &busy, &free, &quiet, &hit) == Ok(Plan::Hit));
    busy.mark(Line(0), true);
    assert!(rt; plan(&setup, &cache, &busy, &free, &quiet, &hit) == Err(Unplanned::Again));
    assert!(rt; plan(&setup, &cache, &busy, &free, &quiet, &load) == Err(Unplanned::NoWay));
    Ok(())
}

#[test]
fn refusals_come_in_their_order(rt: HostRuntime) -> Result<(), Fail> {
    let setup = Setup::new(1, 4, 4, 1, 2, 2, &[0]).expect(&rt, "a setup");
    let mut cache = HostCache::open(rt.alloc(), 1, 4)?;
    let busy = BusyLines::open(rt.alloc(), 4)?;
    let quiet = [false, false];
    let past = Op::Load { line: Line(4) };
    let full = [eviction(0), eviction(1)];
    assert!(rt; plan(&setup, &cache, &busy, &full, &quiet, &past) == Err(Unplanned::NoSuchLine));
    let load = Op::Load { line: Line(1) };
    assert!(rt; plan(&setup, &cache, &busy, &full, &quiet, &load) == Err(Unplanned::NoTag));
    let conflict = [false, true];
    cache.add(Line(0));
    cache.put(Line(0), CopyState::E, &Bytes64([7; 64]));
    assert!(rt;
        plan(&setup, &cache, &busy, &[None, None], &conflict, &load) == Err(Unplanned::NoTag)
    );
    Ok(())
}
