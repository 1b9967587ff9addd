//! What the device keeps: all its tables in one value, as they are opened, and what is read of them; and what a row
//! sends, as a small value.
#![tactic(auto)]

mod decisions;
mod opening;
mod reads;
mod tables;

pub use decisions::Decision;
pub use opening::open_tables;
pub use tables::Tables;
