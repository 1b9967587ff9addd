//! The machine of all rows: the home agents of a setup, the device and the messages in flight between them (CXL 3.1, chapter 3: the
//! flows of HDM-DB; own rule: the rows and the order of next steps).
#![tactic(auto)]

mod agents;
mod calls;
mod choosing;
mod following;
mod judging;
mod machine;
mod moving;
mod opening;
mod performing;
mod picking;
mod refusals;
mod rows;
mod steps;

pub use host_home::HostRefusal;
pub use machine::Machine;
pub use refusals::OpenMachineRefusal;
