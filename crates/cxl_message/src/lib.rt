//! The values of the protocol: messages, events, the setup of a machine and the opening of its memory.
//!
//! Names and meanings of messages are those of the CXL Specification 3.1, chapter 3, for device-managed coherent
//! memory (HDM-DB). What is marked "own rule" is this project's own and no statement about the standard.
#![tactic(auto)]

mod channels;
pub mod codes;
mod configuration;
mod equality;
mod events;
mod formed;
mod identifiers;
mod limits;
mod messages;
mod names;
mod opcodes;
mod openings;
mod operations;
mod profile;
mod states;
#[cfg(test)]
mod tests;

pub use channels::Channel;
pub use configuration::{Setup, SetupRefusal};
pub use equality::{
    equality_is_decided, same_act, same_cause, same_commit, same_commits, same_message, same_op,
    same_out, same_sends,
};
pub use events::{Act, Cause, Commit, Event, Op, Out, Sends};
pub use formed::{cause_formed, well_formed};
pub use identifiers::{BiTag, Bytes64, Line, Tag};
pub use limits::{
    DEVICE, MAX_CREDITS, MAX_ENTRIES, MAX_HOSTS, MAX_LINES, MAX_NAME_LEN, MAX_SPAN, MAX_STREAMS,
    MAX_TAGS, MAX_WAYS, MIN_CREDITS, MIN_TAGS, PLACES,
};
pub use messages::Message;
pub use names::{NameRefusal, Names, is_name, is_name_byte};
pub use opcodes::{Meta, NdrOp, ReqOp, RspOp, SnpOp, SnpType, Span};
pub use openings::{Opening, OpeningRefusal};
pub use profile::in_profile;
pub use states::{CopyState, Listing, RuleNo};
