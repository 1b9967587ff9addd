//! One event in parts: heads without payloads, and the payloads of 64 bytes beside them, each written once.
//!
//! An `Event` by value has some 400 bytes, which every layer that it passes writes again. An `EventRoom` is written in
//! place, and of its payloads only those that the event has. Clauses see an `EventRoom` as the `Event` that it holds. All of
//! it is this project's own and no statement about the CXL standard.
#![tactic(auto)]

mod laws;
mod making;
mod matching;
mod messages;
mod operations;
mod parts;
mod reading;
mod rooms;

pub use laws::{message_parts, op_parts};
pub use matching::same_message;
pub use messages::{MessageHead, MessageRef};
pub use operations::{OpHead, OpRef};
pub use parts::{CauseRef, CommitRef, OutRef, SendsRef};
pub use rooms::EventRoom;

#[cfg(test)]
mod tests;
