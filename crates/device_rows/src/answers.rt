// Why the device refuses a cause.
use cxl_message::{Channel, RuleNo};
use thiserror::Error;

/// Why the device refuses a cause (own rule).
#[derive(Clone, Copy, PartialEq, Eq, Debug, Error)]
pub enum DeviceRefusal {
    /// The row holds, but too few credits of this channel are left for what it sends. NDR is tried before DRS.
    #[error("no credit")]
    NoCredit(Channel),
    /// Rule P0, or else the row of this number, doesn't hold.
    #[error("broken rule")]
    Broken(RuleNo),
}
