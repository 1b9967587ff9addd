// The numbers that name lines and tags, and the 64 bytes of a line.

/// The number of a line of 64 bytes of the device's memory, counted from 0. A setup has up to 65,536 lines (own rule).
#[derive(Clone, Copy, PartialEq, Eq, Debug)]
pub struct Line(pub u32);

/// The Tag that a host gives a request, a write or a conflict, and that comes back in NDR and DRS (CXL 3.1, chapter 3).
/// It is below the setup's tags, or equal to them in a write-back (own rule).
#[derive(Clone, Copy, PartialEq, Eq, Debug)]
pub struct Tag(pub u32);

/// The BITag that the device gives a back-invalidate snoop, and that comes back in BIRsp (CXL 3.1, chapter 3).
/// It is the number of the snoop's first line (own rule).
#[derive(Clone, Copy, PartialEq, Eq, Debug)]
pub struct BiTag(pub u16);

/// The 64 bytes of a line.
#[derive(Clone, Copy, PartialEq, Eq, Debug)]
pub struct Bytes64(pub [u8; 64]);
