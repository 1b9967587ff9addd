//! The cache of a host: its ways in their order, with the state and the bytes of each line's copy; and sets of busy lines.
//!
//! The states are CXL's (CXL 3.1, chapter 3); that a cache is a list of ways, oldest first, is the project's own.
#![tactic(auto)]

mod busy;
mod caches;
mod held;

pub use busy::BusyLines;
pub use caches::HostCache;

#[cfg(test)]
mod tests;
