//! Tests of scripts as text: forms of lines, their limits, names of streams, each reason to refuse a line, and scripts that a
//! seed makes.
#![tactic(auto)]

#[cfg(test)]
mod generated;
#[cfg(test)]
mod names;
#[cfg(test)]
mod reading;
#[cfg(test)]
mod refusals;
