// What the machine tells of itself after an event.
use crate::rows::SILENT_UPGRADE;
use crate::walks::{Walk, event_at};
use cxl_message::RuleNo;
use std::test::Fail;

#[test]
fn parts_are_read_after_an_event(rt: HostRuntime) -> Result<(), Fail> {
    let mut walk = Walk::new(&rt, &SILENT_UPGRADE)?;
    assert_eq!(rt; walk.hosts(), 1);
    assert_eq!(rt; walk.setup().lines(), 4);
    assert_eq!(rt; walk.flight_weight(), 0);
    let load = event_at(&rt, &walk, &SILENT_UPGRADE, 0)?;
    assert_eq!(rt; walk.judge(&load), Ok(()));
    assert_eq!(rt; walk.judge(&load), Err(RuleNo::S0));
    assert_eq!(rt; walk.flight_weight(), 108 - 11);
    assert_eq!(rt; walk.begun(0, 0), Some(1));
    assert!(rt; !walk.device_pends());
    Ok(())
}
