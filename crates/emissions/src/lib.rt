//! What an event of an agent sends and commits, by value, as both agents answer it.
#![tactic(auto)]

mod emitted;
mod rooms;

pub use emitted::Emitted;
pub use rooms::emits_same;

#[cfg(test)]
mod tests;
