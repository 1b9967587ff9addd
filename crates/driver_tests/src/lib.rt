//! Tests of the driving of scripts: driven and serial traces, their summaries, and writes that fail.
#![tactic(auto)]

#[cfg(test)]
mod drives;
#[cfg(test)]
mod serial;
