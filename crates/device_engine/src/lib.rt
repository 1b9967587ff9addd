//! The device agent: what it answers to each cause, which acts it may do, and what is read of it.
#![tactic(auto)]

mod agents;
mod answers;

pub use agents::DeviceAgent;
pub use answers::OpenDeviceRefusal;
pub use device_rows::DeviceRefusal;
