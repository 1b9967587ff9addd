//! The home agent of a host: rows H1 to H10 (CXL 3.1, chapter 3: the flows of HDM-DB; own rule: the rows and the order of refusals).
#![tactic(auto)]

mod agent;
mod events;
mod readings;
mod stepping;

pub use agent::HostAgent;
pub use emissions::Emitted;
pub use event_room::EventRoom;
pub use host_rows::HostRefusal;
