//! The limits of a machine's numbers, and the agent that is the device: each stands here alone (own rule).

/// There are 1 to this many hosts.
pub const MAX_HOSTS: u8 = 16;
/// There are 1 to this many lines.
pub const MAX_LINES: u32 = 65536;
/// The device's filter has 1 to this many entries.
pub const MAX_ENTRIES: u16 = 4096;
/// A host has 1 to this many ways.
pub const MAX_WAYS: u16 = 256;
/// A host has at least this many tags: one operation may send an eviction and a request together.
pub const MIN_TAGS: u16 = 2;
/// A host has at most this many tags.
pub const MAX_TAGS: u16 = 1024;
/// A channel has at least this many credits: one operation may send an eviction and a request together.
pub const MIN_CREDITS: u8 = 2;
/// A channel has at most this many credits.
pub const MAX_CREDITS: u8 = 64;
/// There are at most this many streams.
pub const MAX_STREAMS: u8 = 64;
/// The device as an agent. The hosts are the agents below it.
pub const DEVICE: u8 = 16;
/// A Word names one of this many places of its line.
pub const PLACES: u8 = 8;
/// A block has at most this many lines, and the low bits of a line's address within one are below it.
pub const MAX_SPAN: u8 = 4;
/// A name of a stream has 1 to this many bytes.
pub const MAX_NAME_LEN: u8 = 32;
