//! Tests of shown text: worked traces, every form of message, cause and operation, and tallies.
#![tactic(auto)]

#[cfg(test)]
mod forms;
#[cfg(test)]
mod tallies;
#[cfg(test)]
mod texts;
#[cfg(test)]
mod worked;
