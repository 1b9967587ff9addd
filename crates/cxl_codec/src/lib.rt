//! The records of trace files: their bytes, both ways.
//!
//! A trace is a header, the openings of lines, the events and an end record. Numbers are unsigned, the highest byte
//! first. Every byte here is this project's own and no statement about the CXL standard.
#![tactic(auto)]

mod acts;
mod ends;
mod events;
mod faults;
mod fields;
mod headers;
mod kind_bytes;
pub mod kinds;
mod laws;
mod messages;
mod names;
mod openings;
mod operations;
mod reading;
mod refusals;
mod version_one;
mod versions;
mod writing;

pub use ends::{decode_end, encode_end};
pub use events::{
    decode_event, decode_event_in, decode_room, decode_room_in, encode_event, encode_event_in,
    encode_room, encode_room_in,
};
pub use fields::FieldName;
pub use headers::{decode_header, decode_header_in, encode_header, encode_header_in};
pub use laws::{one_answer, one_spelling, one_trace, read_again};
pub use names::{decode_name, encode_name};
pub use openings::{OPENING_LENGTH, decode_opening, encode_opening};
pub use refusals::DecodeRefusal;
pub use version_one::{MOST_SHORT_TAGS, fits_version_one, setup_fits_version_one};
pub use versions::Version;
