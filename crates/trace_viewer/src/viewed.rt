// What was viewed.
use trace_stream::TraceFault;

/// What the bytes are that a viewer was fed (own rule).
#[derive(Clone, Copy, PartialEq, Eq, Debug)]
pub enum Viewed {
    /// A trace, and all of it was shown, with what was counted of its events.
    Whole,
    /// No trace: this is the first place where they aren't, and why. What stands before it was shown.
    Fault(TraceFault),
}
