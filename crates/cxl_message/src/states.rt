// The states of copies and listings, and the numbers of the rules.

/// The state of a host's copy of a line (CXL 3.1, chapter 3: I, S, E and M).
#[derive(Clone, Copy, PartialEq, Eq, Debug)]
pub enum CopyState {
    /// No copy.
    I,
    /// A shared copy, which may be read.
    S,
    /// The only copy, as it was read.
    E,
    /// The only copy, and the host has stored to it.
    M,
}

/// What the device's filter keeps of a host and a line (own rule).
#[derive(Clone, Copy, PartialEq, Eq, Debug)]
pub enum Listing {
    /// The host has no copy.
    I,
    /// The host may have a shared copy.
    S,
    /// The host may have a copy in any state.
    A,
}

/// The rules that an event is judged by: profile, channel order and stream order, tried in this order, and then
/// one row, H1 to H10 at a host and V1 to V9 at the device (own rule).
#[derive(Clone, Copy, PartialEq, Eq, Debug)]
pub enum RuleNo {
    /// The event is well formed, what it names exists, and its messages are in the profile.
    P0,
    /// A taken message is in flight, and passes none that it mustn't pass.
    K0,
    /// A stream's operations begin in their order, one at a time.
    S0,
    /// An operation hits.
    H1,
    /// An operation sends its request.
    H2,
    /// A completion or its data is taken.
    H3,
    /// A snoop is taken.
    H4,
    /// The acknowledgement of a conflict is taken.
    H5,
    /// A credit is taken by a host.
    H6,
    /// A conflict is declared.
    H7,
    /// A modified line is written back.
    H8,
    /// A snoop is answered.
    H9,
    /// A host gives a credit back.
    H10,
    /// A request, a write or a credit is taken by the device.
    V1,
    /// An answer to a snoop is taken.
    V2,
    /// A write is completed, or a conflict acknowledged.
    V3,
    /// A clean eviction is completed.
    V4,
    /// A request's task begins.
    V5,
    /// An eviction of filter entries begins.
    V6,
    /// A host is snooped.
    V7,
    /// A task ends.
    V8,
    /// The device gives a credit back.
    V9,
}
