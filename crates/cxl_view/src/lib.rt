//! Traces as text, one line for each thing that a trace says: its setup, the host of each stream, names, openings, events,
//! and at the end what was counted of the events. Each call appends the lines of one of these. Whether the events are a run is
//! not asked.
//!
//! Opcodes have the standard's names (CXL 3.1, chapter 3); the rest of the text is this project's own.
#![tactic(auto)]

mod acts;
mod counting;
mod events;
mod headers;
mod laws;
mod messages;
mod operations;
mod tallies;
mod totals;
mod words;
mod writing;

pub use counting::LineTally;
pub use events::{render_event, render_room};
pub use headers::{render_header, render_name, render_opening};
pub use laws::{counts_add_up, fronts_go_on};
pub use tallies::Tallies;
