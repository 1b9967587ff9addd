//! Tests of the home agent and of the crates that it is made of, through their public calls: worked rows, refusals in
//! order, and what each small part tells.
#![tactic(auto)]

#[cfg(test)]
mod acts;
#[cfg(test)]
mod agents;
#[cfg(test)]
mod rows;
#[cfg(test)]
mod tables;
