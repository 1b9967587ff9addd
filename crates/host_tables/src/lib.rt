//! What a home agent keeps, what its rows read of it, and what its events change (own rule).
//!
//! A contract sees the record of `host_record`: each reading is that of the record, and each change is the record's. Nothing is decided
//! here. Only `HostTables::open` takes memory.
#![tactic(auto)]

mod acted;
mod holding;
mod host;
mod lookups;
mod operated;
mod planned;
mod streams;
mod tables;
mod taken;

pub use host::{HostTables, TagNumber};
