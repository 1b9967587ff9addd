//! Tests of the records of traces: worked records, each byte of them damaged, and records that come byte by byte.
#![tactic(auto)]

#[cfg(test)]
mod damage;
#[cfg(test)]
mod examples;
#[cfg(test)]
mod places;
#[cfg(test)]
mod records;
#[cfg(test)]
mod scans;
#[cfg(test)]
mod versions;
