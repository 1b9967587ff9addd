//! The flat memory: lines of 64 bytes, with no cache, no filter and no messages, by which a history of loads and stores
//! is judged. All of it is an own rule.
#![tactic(auto)]

mod flat;
mod histories;

pub use flat::Flat;
pub use histories::{first_illegal, none_is_legal};

#[cfg(test)]
mod tests;
