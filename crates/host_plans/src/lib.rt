//! How a host's operation goes: whether it hits, and else which Tags and which victim its messages name. An operation is CXL's load or
//! store with its MemRd or MemInv, and its victim's MemClnEvct or MemWr (CXL 3.1, chapter 3); which of them goes out is an own rule.
#![tactic(auto)]

ghost use Rattle.host_plans.specs.Answers.{PlansAnswer};

mod planning;
mod plans;
mod tags;

pub use planning::plan;
pub use plans::{Plan, Unplanned};

#[cfg(test)]
mod tests;

/// The law that the answer of a host to an operation, by its record, is that of its plan (own rule).
pub fn plans_answer()
    ensures law { PlansAnswer }
{}
