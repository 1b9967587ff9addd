// Events and texts that several tests take.
use cxl_message::{Bytes64, Cause, Event, Sends};
use std::alloc::{AllocError, Global};

/// 64 zeros.
pub const ZEROS: Bytes64 = Bytes64([0; 64]);
/// The digits of 64 zeros.
pub const ZERO_DIGITS: &[u8] =
    b"00000000000000000000000000000000000000000000000000000000000000000000000000000000000000000000000000000000000000000000000000000000";
/// The digits of 64 bytes `ab`.
pub const AB_DIGITS: &[u8] =
    b"abababababababababababababababababababababababababababababababababababababababababababababababababababababababababababababababab";

/// An event that sends and commits nothing.
pub fn quiet(agent: u8, cause: Cause) -> Event {
    Event {
        agent,
        cause,
        sends: Sends::Nothing,
        commit: None,
    }
}

/// The parts, one after the other.
pub fn joined(alloc: Global, parts: &[&[u8]]) -> Result<Vec<u8>, AllocError> {
    let mut out = Vec::new(alloc);
    for part in parts {
        out.extend_from_slice(part)?;
    }
    Ok(out)
}
