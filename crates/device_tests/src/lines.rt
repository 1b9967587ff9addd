use cxl_message::{Opening, Setup};
use device_lines::DeviceLines;
use std::test::Fail;

#[test]
fn a_region_of_the_most_lines_is_opened(rt: HostRuntime) -> Result<(), Fail> {
    let setup = Setup::new(16, 65_536, 4_096, 256, 64, 64, &[])?;
    let _lines = DeviceLines::open(rt.alloc(), &setup, &Opening::new(rt.alloc()))?;
    Ok(())
}
