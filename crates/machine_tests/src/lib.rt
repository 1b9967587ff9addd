//! Tests of the machine: worked rows, event by event, each of their events with one field changed, and what the machine tells of itself.
#![tactic(auto)]

#[cfg(test)]
mod changes;
#[cfg(test)]
mod lines;
#[cfg(test)]
mod names;
#[cfg(test)]
mod parts;
#[cfg(test)]
mod refusals;
#[cfg(test)]
mod rows;
#[cfg(test)]
mod runs;
#[cfg(test)]
mod walks;
#[cfg(test)]
mod words;
