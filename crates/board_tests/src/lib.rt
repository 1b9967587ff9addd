//! Tests of the board: seats of two hosts, from one thread and from two.
#![tactic(auto)]

#[cfg(test)]
mod trials;
