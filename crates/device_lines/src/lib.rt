//! What the device keeps in a region of 64-byte lines: its memory, and the RwD messages that are buffered for each host.
//!
//! That a line of memory is a slot of a region, and that a served write only changes which slot that is, are the
//! project's own and no statement about the CXL standard.
#![tactic(auto)]

mod buffers;
mod lines;

pub use buffers::Served;
pub use lines::DeviceLines;
