//! The laws of every run, carried to a machine that stands for one: copies, weight, the next event, and rest.
#![tactic(auto)]

mod advancing;
mod lines;
mod resting;
#[cfg(test)]
mod tests;
mod weighing;

pub use advancing::advance;
pub use lines::copies;
pub use resting::quiet;
pub use weighing::weight;
