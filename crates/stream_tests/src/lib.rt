//! Tests of traces in pieces: each cut and each fault of reading and writing, traces of both versions, and traces longer
//! than what a writer keeps.
#![tactic(auto)]

#[cfg(test)]
mod long;
#[cfg(test)]
mod reading;
#[cfg(test)]
mod samples;
#[cfg(test)]
mod standing;
#[cfg(test)]
mod versions;
#[cfg(test)]
mod writing;
