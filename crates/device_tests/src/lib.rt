//! Tests of the device agent and of the crates that it is made of, through their public calls: worked rows, refusals in
//! order, the largest setup, and what each small part tells.
#![tactic(auto)]

#[cfg(test)]
mod agents;
#[cfg(test)]
mod lines;
#[cfg(test)]
mod tables;
#[cfg(test)]
mod worked;
