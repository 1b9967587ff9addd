//! The messages in flight between the hosts and the device: eight queues for each host, one a channel (CXL 3.1, chapter 3: the
//! channels; own rule: their order, and which message may be taken).
#![tactic(auto)]

mod channels;
mod counted;
mod laws;
mod links;
mod matching;
mod queues;
mod weights;

pub use counted::CountedLinks;
pub use laws::flight_goes_on;
pub use links::LinkQueues;

#[cfg(test)]
mod tests;
