//! Back-invalidate snoops of blocks: which hosts are asked about a block, and which of its lines have no answer yet.
//!
//! Whom the device asks is the project's own rule and no statement about the CXL standard.
#![tactic(auto)]

mod answers;
mod asking;
mod purposes;
mod spans;

pub use answers::AnswersLeft;
pub use asking::{hosts_to_ask, is_asked};
pub use purposes::Purpose;
pub use spans::{span_len, span_of};

#[cfg(test)]
mod tests;
