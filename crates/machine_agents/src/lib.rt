//! The agents of a machine: a home agent or the device with the number of its acts that are next, which is counted again after each of its
//! steps (own rule: the order of the acts).
//!
//! What an agent answers and does is said in the model's words. Only `open` takes memory.
#![tactic(auto)]

mod devices;
mod hosts;

pub use devices::MachineDevice;
pub use hosts::MachineHost;
