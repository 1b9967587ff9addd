//! Credits: purses that are spent from one at a time and earn back what was spent, up to a limit.
//!
//! All of it is the project's own and no statement about the CXL standard.
#![tactic(auto)]

mod purses;

pub use purses::Purse;

#[cfg(test)]
mod tests;
