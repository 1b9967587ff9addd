//! The viewer of traces: the text of a trace that comes in any pieces, shown while it is read, and at its end what was counted
//! of its events. Of bytes that aren't a trace it shows what stands before the first place where they aren't. Whether the events
//! are a run is not asked.
//!
//! What a trace is, and its text, are this project's own and no statement about the CXL standard.
#![tactic(auto)]

mod laws;
mod reading;
mod showing;
mod viewed;
mod viewer;

pub use laws::{items_are_shown, one_view, traces_are_shown};
pub use viewed::Viewed;
pub use viewer::Viewer;
