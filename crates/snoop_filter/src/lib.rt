//! The device's inclusive snoop filter: which hosts are listed for each line, in a limited number of entries.
//!
//! How a filter is kept is the project's own and no statement about the CXL standard.
#![tactic(auto)]

mod blocks;
mod filters;
mod places;

pub use blocks::Block;
pub use filters::Filter;

#[cfg(test)]
mod tests;
