// Rows from their first event to the last.
use crate::rows::{
    BLOCKS_OF_FOUR, CLEAN_EVICTION_CROSSES, DIRTY_EVICTION, DIRTY_EVICTION_CROSSES, EARLY_CONFLICT,
    FILTER_OF_ONE_ENTRY, LATE_CONFLICT, MODIFIED_LINE_IS_WANTED, SHARED_COPY_IS_DROPPED, SHARING,
    SILENT_UPGRADE, STORE_OVER_SHARED_COPIES, WHOLE_STORE_AND_HIT, WHOLE_STORES_IN_CONFLICT,
};
use crate::walks::{Walk, event_at, walked};
use std::test::Fail;

#[test]
fn rows_are_walked(rt: HostRuntime) -> Result<(), Fail> {
    for row in [
        SILENT_UPGRADE,
        SHARING,
        STORE_OVER_SHARED_COPIES,
        MODIFIED_LINE_IS_WANTED,
        WHOLE_STORE_AND_HIT,
        EARLY_CONFLICT,
        LATE_CONFLICT,
        WHOLE_STORES_IN_CONFLICT,
        DIRTY_EVICTION,
        DIRTY_EVICTION_CROSSES,
        CLEAN_EVICTION_CROSSES,
        FILTER_OF_ONE_ENTRY,
        BLOCKS_OF_FOUR,
        SHARED_COPY_IS_DROPPED,
    ] {
        walked(&rt, &row, row.events.len())?;
    }
    Ok(())
}

#[test]
fn a_load_is_pending_until_it_commits(rt: HostRuntime) -> Result<(), Fail> {
    let row = SILENT_UPGRADE;
    let mut walk = Walk::new(&rt, &row)?;
    for place in 0..row.events.len() {
        let event = event_at(&rt, &walk, &row, place)?;
        assert_eq!(rt; walk.apply(&event), Ok(()));
        assert_eq!(rt; walk.pending(), place < 5);
        assert!(rt; walk.apply(&event).is_err());
    }
    assert_eq!(rt; walk.choices(), 0);
    Ok(())
}

#[test]
fn next_steps_are_performed(rt: HostRuntime) -> Result<(), Fail> {
    let row = SILENT_UPGRADE;
    let mut walk = Walk::new(&rt, &row)?;
    for place in 0..row.events.len() {
        let event = event_at(&rt, &walk, &row, place)?;
        if row.operation_at(place).is_some() {
            assert_eq!(rt; walk.perform(0), None);
            assert_eq!(rt; walk.apply(&event), Ok(()));
        } else {
            assert_eq!(rt; walk.perform(0), Some(event));
        }
    }
    Ok(())
}
