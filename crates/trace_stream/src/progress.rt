// How far a writer of traces is.

/// What a writer of traces has got (own rule).
#[derive(Clone, Copy, PartialEq, Eq, Debug)]
pub enum Progress {
    /// Nothing.
    New,
    /// The header and the openings, and some events.
    Begun,
    /// The end record.
    Ended,
}
