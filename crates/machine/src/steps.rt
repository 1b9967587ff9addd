// A next step as its agent and its cause.
use cxl_message::Cause;

/// A next step: the agent that makes its event, and the cause of it (own rule).
#[derive(Clone, Copy)]
pub struct Step {
    /// The number of the host, or 16 for the device.
    pub agent: u8,
    /// What it takes, or which act it is.
    pub cause: Cause,
}
