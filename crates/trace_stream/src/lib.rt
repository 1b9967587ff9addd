//! Traces in pieces: a reader that takes bytes as they come and gives items, and a writer that gathers records. What
//! the writer has written when it ends is a trace, and the reader reads it as the same setup, openings and events.
//!
//! Every byte of a trace is this project's own and no statement about the CXL standard.
#![tactic(auto)]

mod buffers;
mod items;
mod laws;
mod progress;
mod readers;
mod records;
mod refusals;
mod rooms;
mod stages;
mod waiting;
mod writers;

pub use items::{Found, Item, Reason, TraceFault};
pub use laws::{one_reading, traces_are_read};
pub use progress::Progress;
pub use readers::TraceReader;
pub use refusals::TraceWriteRefusal;
pub use rooms::Room;
pub use writers::TraceWriter;
