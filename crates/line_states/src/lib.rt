//! How far a line is at its host: the request or eviction that is open for it, and the stage of a snoop of it (CXL 3.1, chapter 3:
//! the opcodes, and the conflict handshake; own rule: how they are kept). No call takes memory.
#![tactic(auto)]

mod opens;
mod stages;
#[cfg(test)]
mod tests;

pub use opens::{Open, OpenKind};
pub use stages::{LineStage, StageKind};
