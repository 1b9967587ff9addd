//! How far the records of a trace that come byte by byte are cut short, with each byte looked at once.
//!
//! Every byte here is this project's own and no statement about the CXL standard.
#![tactic(auto)]

mod openings;
mod scans;

pub use openings::opening_cut_below;
pub use scans::EventScan;
