use super::*;
use std::test::Fail;

#[test]
fn one_slot_is_taken_given_back_and_taken_again(rt: HostRuntime) -> Result<(), Fail> {
    let mut pool = LinePool::open(rt.alloc(), 1)?;
    assert_eq!(rt; pool.spare(), 1);
    let slot = pool.take().expect(&rt, "a slot");
    assert_eq!(rt; pool.take(), None);
    assert_eq!(rt; pool.spare(), 0);
    pool.give(slot);
    assert_eq!(rt; pool.spare(), 1);
    assert_eq!(rt; pool.take(), Some(slot));
    Ok(())
}

#[test]
fn a_slot_that_is_taken_again_has_zero_bytes(rt: HostRuntime) -> Result<(), Fail> {
    let mut pool = LinePool::open(rt.alloc(), 1)?;
    let first = pool.take().expect(&rt, "a slot");
    assert_eq!(rt; pool.bytes(first), &[0; 64]);
    pool.bytes_mut(first)[63] = 7;
    assert_eq!(rt; pool.bytes(first)[63], 7);
    pool.give(first);
    let again = pool.take().expect(&rt, "a slot");
    assert_eq!(rt; pool.bytes(again), &[0; 64]);
    Ok(())
}

#[test]
fn slots_keep_their_own_bytes(rt: HostRuntime) -> Result<(), Fail> {
    let mut pool = LinePool::open(rt.alloc(), 3)?;
    let first = pool.take().expect(&rt, "a slot");
    let second = pool.take().expect(&rt, "a slot");
    *pool.bytes_mut(first) = [1; 64];
    *pool.bytes_mut(second) = [2; 64];
    assert_eq!(rt; pool.bytes(first), &[1; 64]);
    assert_eq!(rt; pool.bytes(second), &[2; 64]);
    pool.give(first);
    assert_eq!(rt; pool.bytes(second), &[2; 64]);
    assert_eq!(rt; pool.spare(), 2);
    Ok(())
}

#[test]
fn a_pool_of_no_slots_gives_none(rt: HostRuntime) -> Result<(), Fail> {
    let mut pool = LinePool::open(rt.alloc(), 0)?;
    assert_eq!(rt; pool.take(), None);
    assert_eq!(rt; pool.spare(), 0);
    Ok(())
}

#[test]
fn a_pool_of_the_most_slots_gives_them_all(rt: HostRuntime) -> Result<(), Fail> {
    let mut pool = LinePool::open(rt.alloc(), 131_072)?;
    for _ in 0..131_072 {
        assert!(rt; pool.take().is_some());
    }
    assert_eq!(rt; pool.take(), None);
    Ok(())
}
