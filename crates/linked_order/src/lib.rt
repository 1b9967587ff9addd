//! An order of numbered places in a table of links: a place is put last, taken out wherever it stands, and followed to the next.
//!
//! All of it is the project's own and no statement about the CXL standard.
#![tactic(auto)]

mod links;
mod orders;
mod places;

pub use orders::LinkedOrder;
pub use places::Places;

#[cfg(test)]
mod tests;
