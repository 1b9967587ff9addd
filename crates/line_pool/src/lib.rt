//! A region of 64-byte lines that is taken at once, and from which slots are taken and given back.
//!
//! All of it is the project's own and no statement about the CXL standard.
#![tactic(auto)]

mod pools;
mod slots;

pub use pools::LinePool;
pub use slots::SlotId;

#[cfg(test)]
mod tests;
