//! The back-invalidate snoops that a host holds until it has answered them: in the order taken, each with the lines that have
//! no answer yet (CXL 3.1, chapter 3: BISnp and BIRsp; own rule: how they are kept). After `open` no call takes memory.
#![tactic(auto)]

mod held;
mod snoops;
#[cfg(test)]
mod tests;

pub use held::HeldSnoops;
pub use snoops::HeldSnoop;
