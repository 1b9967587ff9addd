//! The limits of a script's numbers that no setup has: each stands here alone (own rule).

/// A script asks for room for 1 to this many events.
pub const MAX_ROOM: u32 = 200_000;
/// The streams of a script have at most this many operations together.
pub const MAX_OPERATIONS: u32 = 65536;
/// A pick is at most this number.
pub const MAX_PICK: u32 = 65535;
