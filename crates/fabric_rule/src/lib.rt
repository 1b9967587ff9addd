//! The board of a threaded fabric: one counted word, by whose rule each count is the number of an event in one run, and what the
//! seat of each agent has seen of that run.
#![tactic(auto)]

mod board;
mod key;
mod seat;
mod steps;
mod view;

pub use board::Board;
pub use seat::{AgentSeat, Note};
